//! What is done with a registry and what must come of it: the blocks of a case.

use crate::escaped::add_bytes;
use crate::lines::{Line, is_among, script_of};
use crate::pieces::Way;
use crate::ways::OF_CASE;
use anyhow::{Context, Result, bail};
use calendar::Moment;
use frames::ListClock;
use std::alloc::Global;
use std::collections::VecDeque;

/// A block.
#[derive(Drop)]
pub struct Step<'a> {
    /// The line that it begins in.
    pub number: usize,
    /// What is done with the bytes that are sent, by the word that the block begins with.
    pub kind: &'a str,
    /// The moments that its clock tells.
    moments: Vec<Moment>,
    /// The last one, which the clock goes on with.
    lasting: Option<Moment>,
    pub sent: Vec<u8>,
    pub wanted: Vec<u8>,
    /// Whether something may come before what is wanted.
    is_last_alone: bool,
    /// How it must end; a block that has no end yet has none.
    pub end: Option<&'a str>,
}

/// So often a clock tells a moment that it goes on with.
const OFTEN: usize = 400;

/// What a reply begins with that says how much was settled.
const SETTLED: &[u8] = b"{\"code\":1000,\"data\":{\"done\":";

impl<'a> Step<'a> {
    pub fn new(alloc: Global, kind: &'a str, number: usize) -> Step<'a> {
        Step {
            number,
            kind,
            moments: Vec::new(alloc),
            lasting: None,
            sent: Vec::new(alloc),
            wanted: Vec::new(alloc),
            is_last_alone: false,
            end: None,
        }
    }

    /// Lines that are sent: a script, a line that is sent again where it fails, or a look, always or where it failed.
    pub fn sending(alloc: Global, kind: &'a str, sent: Vec<u8>) -> Step<'a> {
        let mut step = Step::new(alloc, kind, 0);
        step.sent = sent;
        step
    }

    /// Adds the lines that are sent, and those that must come.
    pub fn add_script(&mut self, alloc: Global, lines: &[Line<'_>]) -> Result<()> {
        self.sent.extend_from_slice(&script_of(alloc, lines, "C")?)?;
        self.wanted
            .extend_from_slice(&script_of(alloc, lines, "S")?)?;
        Ok(())
    }

    /// The first moment.
    pub fn moment(&self) -> Moment {
        match self.moments.first() {
            Some(moment) => *moment,
            None => self.lasting.unwrap_or(Moment::first()),
        }
    }

    /// The clock.
    pub fn clock(&self, alloc: Global) -> Result<ListClock> {
        let mut moments = VecDeque::new(alloc);
        for moment in self.moments.iter().copied() {
            moments.push_back(moment)?;
        }
        if let Some(moment) = self.lasting {
            for _ in 0..OFTEN {
                moments.push_back(moment)?;
            }
        }
        Ok(ListClock::of_list(moments))
    }

    /// Takes a line of the block.
    fn take(&mut self, alloc: Global, mark: &str, text: &'a str) -> Result<()> {
        match mark {
            "at" => self.moments.push(moment_of(text)?)?,
            "from" => self.lasting = Some(moment_of(text)?),
            ">" => add_frame(alloc, &mut self.sent, text)?,
            "<" => add_frame(alloc, &mut self.wanted, text)?,
            ">>" => add_bytes(alloc, &mut self.sent, text)?,
            "<<" => add_bytes(alloc, &mut self.wanted, text)?,
            "C" => add_line(alloc, &mut self.sent, text)?,
            "S" => add_line(alloc, &mut self.wanted, text)?,
            "..." => self.is_last_alone = true,
            "end" => self.end = Some(text),
            _ => bail!("no mark of a block"),
        }
        Ok(())
    }

    /// Whether what came is what must come.
    pub fn is_wanted(&self, alloc: Global, given: &[u8], way: &Way) -> Result<bool> {
        if way.settlement.is_some() {
            let given = without_settlements(alloc, given, true)?;
            return Ok(given == without_settlements(alloc, &self.wanted, false)?);
        }
        if self.is_last_alone {
            return Ok(given.ends_with(&self.wanted));
        }
        Ok(match way.writes {
            Some(_) if way.recovers => self.wanted.starts_with(given),
            Some(writes) => given == &self.wanted[..writes.min(self.wanted.len())],
            None => given == self.wanted.as_slice(),
        })
    }

    /// The script with a settlement before each line, at that line's moment.
    pub fn with_settlements(&self, alloc: Global, order: &str) -> Result<Vec<u8>> {
        let mut script = Vec::new(alloc);
        for line in self.sent.split(|byte| *byte == b'\n') {
            if !line.is_empty() {
                script.extend_from_slice(before_blank(line))?;
                script.extend_from_slice(order.as_bytes())?;
                script.push(b'\n')?;
            }
            script.extend_from_slice(line)?;
            script.push(b'\n')?;
        }
        Ok(script)
    }
}

/// The part of a line before its first blank.
fn before_blank(line: &[u8]) -> &[u8] {
    match line.iter().position(|byte| *byte == b' ') {
        Some(end) => &line[..end],
        None => line,
    }
}

/// The replies but for those that say how much was settled, and where a settlement was sent before each line, for the
/// replies to them.
fn without_settlements(alloc: Global, replies: &[u8], has_more: bool) -> Result<Vec<u8>> {
    let mut left = Vec::new(alloc);
    for (index, reply) in replies.split(|byte| *byte == b'\n').enumerate() {
        let is_own = !has_more || index % 2 == 1;
        if is_own && !reply.is_empty() && !reply.starts_with(SETTLED) {
            left.extend_from_slice(reply)?;
            left.push(b'\n')?;
        }
    }
    Ok(left)
}

/// The blocks of a case.
pub fn steps_of<'a>(alloc: Global, lines: &[Line<'a>]) -> Result<Vec<Step<'a>>> {
    let mut steps = Vec::new(alloc);
    for line in lines {
        add_to(alloc, &mut steps, line).context(format_args!("line {}", line.number))?;
    }
    if steps.iter().any(|step: &Step<'_>| step.end.is_none()) {
        bail!("a block without an end");
    }
    Ok(steps)
}

/// Adds a line to the last block, or begins one.
fn add_to<'a>(alloc: Global, steps: &mut Vec<Step<'a>>, line: &Line<'a>) -> Result<()> {
    if let Some(step) = steps.last_mut() {
        if step.end.is_none() {
            return step.take(alloc, line.mark, line.text);
        }
    }
    if !is_among(line.mark, OF_CASE) {
        steps.push(Step::new(alloc, line.mark, line.number))?;
    }
    Ok(())
}

/// The moment of a text.
fn moment_of(text: &str) -> Result<Moment> {
    Moment::read(text).context("no moment")
}

/// Adds a line.
fn add_line(alloc: Global, bytes: &mut Vec<u8>, text: &str) -> Result<()> {
    add_bytes(alloc, bytes, text)?;
    bytes.push(b'\n')?;
    Ok(())
}

/// Adds the frame of a payload: its length with that of the prefix, and then itself.
fn add_frame(alloc: Global, frames: &mut Vec<u8>, text: &str) -> Result<()> {
    let mut payload = Vec::new(alloc);
    add_bytes(alloc, &mut payload, text)?;
    let length = u32::try_from(payload.len())?;
    frames.extend_from_slice(&length.saturating_add(4).to_be_bytes())?;
    frames.extend_from_slice(&payload)?;
    Ok(())
}
