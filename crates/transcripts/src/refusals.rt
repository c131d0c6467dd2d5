//! Lines of which each call on the book is refused once. Nothing may be left of a line in which a call
//! was refused. Sent again it is answered as if nothing had been refused, to the byte. So is everything
//! that is looked at after it.

use crate::over::{Kind, NEVER, Places, Ran, run_over};
use anyhow::{Result, bail};
use std::alloc::Global;
use std::mem;
use std::rt::Files;
use teststeps::chapter::Chapter;
use teststeps::lines::{Section, only, policy_of, script_of};
use teststeps::pieces::IN_ONE_PIECE;
use teststeps::step::Step;
use teststeps::wire::Wire;

/// What is sent before a line, the line, so often, and what is sent after it.
#[derive(Drop)]
struct Trial {
    policy: Vec<u8>,
    steps: Vec<Step<'static>>,
}

impl Trial {
    fn read(
        rt: &(impl Files + AllocGlobal),
        section: &Section<'_>,
        times: usize,
        look: &'static str,
    ) -> Result<Trial> {
        let (alloc, common) = (rt.alloc(), section.common);
        only(common, "policy|before|look")?;
        only(section.lines, "C|S|at")?;
        let mut steps = Vec::new(alloc);
        let before = script_of(alloc, common, "before")?;
        steps.push(Step::sending(alloc, "script", before))?;
        for _ in 0..times {
            let line = script_of(alloc, section.lines, "C")?;
            steps.push(Step::sending(alloc, "line", line))?;
        }
        let shown = script_of(alloc, common, "look")?;
        steps.push(Step::sending(alloc, look, shown))?;
        Ok(Trial {
            policy: policy_of(rt, common)?,
            steps,
        })
    }

    /// Carries out so many of the blocks at most, while calls are refused.
    fn carried_out(&self, alloc: Global, kind: Kind, most: usize, places: Places) -> Result<Tried> {
        let count = most.min(self.steps.len());
        let (policy, steps) = (self.policy.as_slice(), &self.steps[..count]);
        carried_out(alloc, kind, policy, steps, places)
    }

    /// Sends the line, and what comes after it, while calls are refused.
    fn all(&self, alloc: Global, kind: Kind, places: Places) -> Result<Tried> {
        self.carried_out(alloc, kind, usize::MAX, places)
    }

    /// How many calls on the book so many of the blocks make.
    fn calls(&self, alloc: Global, kind: Kind, most: usize) -> Result<u64> {
        let it = self.carried_out(alloc, kind, most, NEVER)?;
        Ok(it.calls)
    }

    /// Refuses each call of the line in turn, and gives how many there are.
    fn refuse_each(&self, alloc: Global, kind: Kind) -> Result<u64> {
        let unrefused = self.all(alloc, kind, NEVER)?;
        if !is_accepted(&unrefused.reply) {
            bail!("not accepted, though nothing was refused to it");
        }
        let first = self.calls(alloc, kind, 1)?;
        let end = self.calls(alloc, kind, 2)?;
        for place in first..end {
            let it = self.all(alloc, kind, (place, u64::MAX, u64::MAX))?;
            if !it.refused.0 || it.failures > 1 {
                bail!("a call wasn't refused");
            }
            if it.reply != unrefused.reply || it.shown != unrefused.shown {
                bail!("a refused call left something");
            }
        }
        Ok(end.saturating_sub(first))
    }

    /// Refuses it at three steps, and compares what is answered then with what was worked out by hand.
    fn refuse_thrice(
        &self,
        alloc: Global,
        kind: Kind,
        places: Places,
        wanted: &[u8],
    ) -> Result<()> {
        let first = self.calls(alloc, kind, 1)?.saturating_add(places.0);
        let second = first.saturating_add(places.1);
        let places = (first, second, second.saturating_add(places.2));
        let mut it = self.all(alloc, kind, places)?;
        it.reply.extend_from_slice(&it.shown)?;
        if it.refused != (true, true, true) || it.failures != 3 || it.reply.as_slice() != wanted {
            bail!("what was refused was counted");
        }
        Ok(())
    }
}

/// What came of blocks.
#[derive(Drop)]
struct Tried {
    /// What the last script or line printed, and what the looks at it did.
    reply: Vec<u8>,
    shown: Vec<u8>,
    /// How often lines failed, and whether all ended well in the end.
    failures: u32,
    ends_well: bool,
    /// How many calls were made of the book, and which were refused.
    calls: u64,
    refused: (bool, bool, bool),
}

impl Tried {
    fn of(alloc: Global, ran: &mut Ran<'_>) -> Tried {
        let mut tried = Tried {
            reply: Vec::new(alloc),
            shown: Vec::new(alloc),
            failures: 0,
            ends_well: true,
            calls: ran.calls,
            refused: ran.refused,
        };
        for chapter in ran.chapters.iter_mut() {
            for wire in chapter.wires.iter_mut() {
                tried.take(wire);
            }
        }
        tried
    }

    /// Takes what a block printed out of it: a copy would ask for memory behind the line.
    fn take(&mut self, wire: &mut Wire<'_>) {
        self.failures = self.failures.saturating_add(wire.failures);
        self.ends_well = self.ends_well && wire.ends_well();
        match wire.step.kind {
            "script" | "line" => mem::swap(&mut self.reply, &mut wire.writer.bytes),
            _ => mem::swap(&mut self.shown, &mut wire.writer.bytes),
        }
    }
}

/// Carries out blocks over a book that is new, each of which has to end well.
fn carried_out<'a>(
    alloc: Global,
    kind: Kind,
    policy: &'a [u8],
    steps: &'a [Step<'static>],
    places: Places,
) -> Result<Tried> {
    let mut wires = Vec::new(alloc);
    for step in steps {
        wires.push(Wire::new(alloc, step, IN_ONE_PIECE)?)?;
    }
    let mut chapters = Vec::new(alloc);
    chapters.push(Chapter { policy, wires })?;
    let mut ran = run_over(alloc, kind, chapters, places)?;
    let tried = Tried::of(alloc, &mut ran);
    drop(ran);
    if !tried.ends_well {
        bail!("a script that ended otherwise");
    }
    Ok(tried)
}

/// What a script prints that ends well.
pub fn printed(alloc: Global, kind: Kind, policy: &[u8], script: &str) -> Result<Vec<u8>> {
    let script = Vec::from_slice(alloc, script.as_bytes())?;
    let mut steps = Vec::new(alloc);
    steps.push(Step::sending(alloc, "script", script))?;
    let it = carried_out(alloc, kind, policy, steps.as_slice(), NEVER)?;
    Ok(it.reply)
}

/// Refuses each call of a line in turn over both books, or three of them, and says what came of it.
pub fn run_refusals(rt: &(impl Files + AllocGlobal), section: &Section<'_>) -> Result<String> {
    let alloc = rt.alloc();
    let trial = Trial::read(rt, section, 1, "look")?;
    let mut places = Vec::new(alloc);
    for line in section.lines {
        if line.mark == "at" {
            places.push(line.text.parse::<u64>()?)?;
        }
    }
    let [first, second, third] = places.as_slice() else {
        let rows = trial.refuse_each(alloc, Kind::Rows)?;
        let maps = trial.refuse_each(alloc, Kind::Maps)?;
        return Ok(format!(in alloc; "{rows} calls over rows, {maps} over ordered maps")?);
    };
    let wanted = script_of(alloc, section.lines, "S")?;
    for kind in [Kind::Rows, Kind::Maps] {
        trial.refuse_thrice(alloc, kind, (*first, *second, *third), &wanted)?;
    }
    Ok(String::from_str(alloc, "as worked out by hand")?)
}

/// What is found of a line while memory may be refused from outside. It is sent again where it couldn't be carried
/// out: what is left is that of one that was sent once, or twice. Where it `stops` it isn't sent, so that one can
/// tell where its own part begins.
pub fn find(
    rt: &(impl Files + AllocGlobal),
    section: &Section<'_>,
    kind: Kind,
    stops: bool,
) -> Result<&'static str> {
    let alloc = rt.alloc();
    let trial = Trial::read(rt, section, 1, "look")?;
    let again = Trial::read(rt, section, 2, "look")?;
    let tried = Trial::read(rt, section, 1, "look if failed")?;
    let once = trial.all(alloc, kind, NEVER)?;
    let twice = again.all(alloc, kind, NEVER)?;
    if stops {
        tried.calls(alloc, kind, 1)?;
        return Ok("nothing");
    }
    let found = tried.all(alloc, kind, NEVER)?;
    if found.failures == 0 && found.reply == once.reply {
        return Ok("passed");
    }
    if found.failures == 1 && found.reply == once.reply && found.shown == once.shown {
        return Ok("undone");
    }
    if found.failures == 1 && found.reply == twice.reply && found.shown == twice.shown {
        return Ok("kept");
    }
    bail!("something else is left")
}

/// Whether a reply has a code below 2000, or is a greeting.
fn is_accepted(reply: &[u8]) -> bool {
    reply.starts_with(b"{\"code\":1") || reply.starts_with(b"{\"greeting\"")
}
