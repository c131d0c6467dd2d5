//! Cases and transcripts: blocks that are carried out over a registry that is new, in each of some ways.

use crate::over::{Kind, NEVER, Ran, run_over};
use anyhow::{Context, Result, bail};
use std::alloc::Global;
use std::rt::Files;
use std::str;
use teststeps::chapter::Chapter;
use teststeps::lines::{Line, Section, lines_of, only, policy_of, read, text_of, up_to};
use teststeps::pieces::{IN_ONE_PIECE, Way};
use teststeps::step::{Step, steps_of};
use teststeps::ways::{way_of, ways_of};
use teststeps::wire::Wire;

/// The order that settles one object, and that which settles all, after a moment.
const SETTLEMENTS: [&str; 2] = [
    " operator {\"at_most\":1,\"order\":\"settle\"}",
    " operator {\"at_most\":1000000,\"order\":\"settle\"}",
];

/// Over rows too a case of so many ways runs in each of them; one of more in the first and the last.
const FEW: usize = 3;

/// Blocks that are carried out under one policy.
#[derive(Drop)]
struct Part<'a> {
    policy: Vec<u8>,
    steps: Vec<Step<'a>>,
}

/// A case or a transcript.
#[derive(Drop)]
pub struct Case<'a> {
    parts: Vec<Part<'a>>,
    /// The way of each block, and the ways of the last one of a part.
    way: Way,
    ways: Vec<Way>,
    /// How many blocks or replies there are, and whether it runs over ordered maps alone.
    size: usize,
    is_for_maps: bool,
}

impl<'a> Case<'a> {
    /// Reads a case.
    pub fn read(rt: &(impl Files + AllocGlobal), section: &Section<'a>) -> Result<Case<'a>> {
        let alloc = rt.alloc();
        only(section.common, "")?;
        let (policy, way) = (policy_of(rt, section.lines)?, way_of(section.lines)?);
        let steps = steps_of(alloc, section.lines)?;
        let (ways, size) = (ways_of(alloc, section.lines, way)?, steps.len());
        let mut parts = Vec::new(alloc);
        parts.push(Part { policy, steps })?;
        Ok(Case {
            parts,
            way,
            ways,
            size,
            is_for_maps: text_of(section.lines, "maps").is_some(),
        })
    }

    /// Reads a transcript. If its script ends well, it is run with settlements before each line, too: no reply depends
    /// on them but those that say how much was settled.
    pub fn of_transcript(
        rt: &(impl Files + AllocGlobal),
        section: &Section<'a>,
    ) -> Result<Case<'a>> {
        only(section.common, "")?;
        only(section.lines, "policy|change|reopen|prelude|C|S|ends")?;
        let mut ways = Vec::new(rt.alloc());
        ways.push(IN_ONE_PIECE)?;
        if text_of(section.lines, "ends").is_none() {
            for order in SETTLEMENTS {
                let settlement = Some(order);
                ways.push(Way {
                    settlement,
                    ..IN_ONE_PIECE
                })?;
            }
        }
        Ok(Case {
            parts: parts_of(rt, section.lines)?,
            way: IN_ONE_PIECE,
            ways,
            size: section.lines.iter().filter(|line| line.mark == "S").count(),
            is_for_maps: false,
        })
    }

    /// Runs it over both books in each of its ways, and says of how many of these it is.
    pub fn run(&self, alloc: Global, units: &str) -> Result<String> {
        let (size, ways) = (self.size, self.ways.len());
        for (place, way) in self.ways.iter().copied().enumerate() {
            self.run_over(alloc, Kind::Maps, way)?;
            let is_at_end = place == 0 || place.saturating_add(1) == ways;
            if !self.is_for_maps && (is_at_end || ways <= FEW) {
                self.run_over(alloc, Kind::Rows, way)?;
            }
        }
        Ok(format!(in alloc; "{size} {units} in {ways} ways as written")?)
    }

    fn run_over(&self, alloc: Global, kind: Kind, way: Way) -> Result<()> {
        let ran = run_over(alloc, kind, self.chapters(alloc, way)?, NEVER)?;
        let compared = compare(&ran);
        drop(ran);
        compared
    }

    /// What is carried out, where the last block of each part moves in this way.
    fn chapters(&self, alloc: Global, way: Way) -> Result<Vec<Chapter<'_>>> {
        let mut chapters = Vec::new(alloc);
        for part in &self.parts {
            let mut wires = Vec::new(alloc);
            for (index, step) in part.steps.iter().enumerate() {
                let is_last = index.saturating_add(1) == part.steps.len();
                wires.push(Wire::new(alloc, step, if is_last { way } else { self.way })?)?;
            }
            let policy = part.policy.as_slice();
            chapters.push(Chapter { policy, wires })?;
        }
        Ok(chapters)
    }
}

/// Refuses what isn't as it must come.
fn compare(ran: &Ran<'_>) -> Result<()> {
    for chapter in &ran.chapters {
        for wire in &chapter.wires {
            wire.compare(&ran.opening)?;
        }
    }
    Ok(())
}

/// The parts of a transcript: the first runs under the policy that it names, after the lines of its prelude, each other
/// one under that with which the book is opened again.
fn parts_of<'a>(rt: &(impl Files + AllocGlobal), lines: &[Line<'a>]) -> Result<Vec<Part<'a>>> {
    let alloc = rt.alloc();
    let before = match text_of(lines, "prelude") {
        Some(file) => String::from_utf8(read(rt, file)?)?,
        None => String::new(alloc),
    };
    let prelude = lines_of(alloc, before.as_str())?;
    let mut parts = Vec::new(alloc);
    let first = up_to(lines, "reopen");
    parts.push(part_of(alloc, policy_of(rt, lines)?, 0, &prelude, first)?)?;
    for (index, line) in lines.iter().enumerate() {
        if line.mark == "reopen" {
            let (policy, others) = (read(rt, line.text)?, up_to(&lines[index + 1..], "reopen"));
            parts.push(part_of(alloc, policy, line.number, &[], others)?)?;
        }
    }
    Ok(parts)
}

/// The script of these lines, under a policy with their changes.
fn part_of<'a>(
    alloc: Global,
    policy: Vec<u8>,
    number: usize,
    prelude: &[Line<'_>],
    lines: &[Line<'a>],
) -> Result<Part<'a>> {
    let mut policy = policy;
    for line in lines {
        if line.mark == "change" {
            policy = changed(alloc, &policy, line.text)?;
        }
    }
    let mut step = Step::new(alloc, "script", number);
    step.add_script(alloc, prelude)?;
    step.add_script(alloc, lines)?;
    step.end = Some(text_of(lines, "ends").unwrap_or("done"));
    let mut steps = Vec::new(alloc);
    steps.push(step)?;
    Ok(Part { policy, steps })
}

/// A text in which `NEW` of `OLD => NEW` takes the place of `OLD`, which is there. Where `NEW` has
/// `\\n`, a line ends.
fn changed(alloc: Global, text: &[u8], change: &str) -> Result<Vec<u8>> {
    let text = str::from_utf8(text).context("a policy with changes is no text")?;
    let (old, new) = change
        .split_once(" => ")
        .context("a change without an arrow")?;
    if !text.contains(old) {
        bail!("no such text in the policy: {old}");
    }
    let new = new.replace(alloc, "\\n", "\n")?;
    Ok(text.replace(alloc, old, new.as_str())?.into_bytes())
}
