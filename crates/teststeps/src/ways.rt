//! The ways in which the bytes of a case move, as its lines before the first block say.

use crate::escaped::range_of;
use crate::lines::Line;
use crate::pieces::{IN_ONE_PIECE, Way};
use anyhow::Result;
use std::alloc::Global;

/// The marks of lines that say something of a case, and are of no block.
pub const OF_CASE: &str = "policy|maps|step|signals|recovers|cuts|fronts|reads|writes";

/// The way of each block.
pub fn way_of(lines: &[Line<'_>]) -> Result<Way> {
    let mut way = IN_ONE_PIECE;
    for line in lines {
        match line.mark {
            "step" => way.step = line.text.parse::<usize>()?,
            "signals" => way.is_interrupted = true,
            "recovers" => way.recovers = true,
            _ => {}
        }
    }
    Ok(way)
}

/// The ways of the last block, one after the other.
pub fn ways_of(alloc: Global, lines: &[Line<'_>], way: Way) -> Result<Vec<Way>> {
    let mut ways = Vec::new(alloc);
    for line in lines {
        match line.mark {
            "cuts" => add_cuts(&mut ways, way, line.text.parse::<usize>()?)?,
            "fronts" | "reads" | "writes" => add_range(&mut ways, way, line)?,
            _ => {}
        }
    }
    if ways.is_empty() {
        ways.push(way)?;
    }
    Ok(ways)
}

/// Those in two and three pieces.
fn add_cuts(ways: &mut Vec<Way>, way: Way, places: usize) -> Result<()> {
    for first in 0..places {
        for second in first..places {
            let cuts = (first, second);
            ways.push(Way { cuts, ..way })?;
        }
    }
    Ok(())
}

/// One for each number of a range. A write fails as an error, and as one that takes no byte.
fn add_range(ways: &mut Vec<Way>, way: Way, line: &Line<'_>) -> Result<()> {
    let (first, last) = range_of(line.text)?;
    for number in first..=last {
        let mut way = way;
        match line.mark {
            "fronts" => way.front = number,
            "reads" => way.reads = number,
            _ => way.writes = Some(number),
        }
        way.fails = way.writes.is_some();
        ways.push(way)?;
        if way.fails && !way.recovers {
            way.fails = false;
            ways.push(way)?;
        }
    }
    Ok(())
}
