//! Pairs of scripts that differ in nothing but what others than alfa hide: both answer alfa alike, byte for
//! byte, and each other line begins with the same code.

use crate::over::Kind;
use crate::refusals::printed;
use anyhow::{Context, Result, bail};
use std::alloc::Global;
use std::rt::Files;
use teststeps::lines::{Section, only, policy_of, script_of, text_of};

/// Refuses a pair of scripts that don't answer alfa alike, so many lines, over both books.
pub fn run_pair(rt: &(impl Files + AllocGlobal), section: &Section<'_>) -> Result<String> {
    let alloc = rt.alloc();
    only(section.common, "policy|before")?;
    only(section.lines, "C|hidden|lines")?;
    let policy = policy_of(rt, section.common)?;
    let mut script = script_of(alloc, section.common, "before")?;
    script.extend_from_slice(&script_of(alloc, section.lines, "C")?)?;
    let script = String::from_utf8(script)?;
    let other = hidden_in(alloc, &script, section)?;
    let count = text_of(section.lines, "lines").context("no number of lines")?;
    let count = count.parse::<usize>()?;
    for kind in [Kind::Rows, Kind::Maps] {
        let first = replies_to(alloc, kind, &policy, script.as_str())?;
        let second = replies_to(alloc, kind, &policy, other.as_str())?;
        if first.lines != count || first.alfa != second.alfa || first.codes != second.codes {
            bail!("answered otherwise");
        }
    }
    Ok(String::from_str(alloc, "answered the same")?)
}

/// The other script, where other texts take the place of what is hidden.
fn hidden_in(alloc: Global, script: &String, section: &Section<'_>) -> Result<String> {
    let mut other = script.clone()?;
    for line in section.lines {
        if line.mark == "hidden" {
            let hidden = line.text.split_once(" => ");
            let (this, that) = hidden.context("what is hidden without an arrow")?;
            if !other.contains(this) {
                bail!("not there to be hidden: {this}");
            }
            other = other.replace(alloc, this, that)?;
        }
    }
    Ok(other)
}

/// What a script prints: all that answers alfa, and with what code each line begins that is another's.
#[derive(Drop)]
struct Replies {
    alfa: String,
    lines: usize,
    codes: String,
}

fn replies_to(alloc: Global, kind: Kind, policy: &[u8], script: &str) -> Result<Replies> {
    let printed = String::from_utf8(printed(alloc, kind, policy, script)?)?;
    let mut replies = Replies {
        alfa: String::new(alloc),
        lines: 0,
        codes: String::new(alloc),
    };
    for line in printed.split('\n') {
        if line.contains("\"svTRID\":\"alfa-") {
            replies.alfa.push_str(line)?;
            replies.alfa.push('\n')?;
            replies.lines = replies.lines.saturating_add(1);
        } else {
            replies.codes.push_str(line.get(..12).unwrap_or(line))?;
        }
    }
    Ok(replies)
}
