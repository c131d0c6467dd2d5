//! Sums of moments and years, and the texts of moments.

use anyhow::{Context, Result};
use calendar::Moment;
use std::alloc::Global;

/// The moment so many years after another one, by a line of both.
pub fn sum_of(alloc: Global, line: &str) -> Result<Option<String>> {
    let (text, years) = line.split_once(' ').context("a moment without years")?;
    let years = years.parse::<u32>()?;
    match Moment::read(text) {
        Some(moment) => text_at(alloc, moment.plus_years(years).ok()),
        None => Ok(None),
    }
}

/// The text and the date of the moment of a line that is seconds since 1970, else the seconds of the moment that it
/// spells.
pub fn reading_of(alloc: Global, line: &str) -> Result<Option<String>> {
    let Ok(seconds) = line.parse::<i64>() else {
        return seconds_of(alloc, line);
    };
    let Ok(moment) = Moment::of_secs(seconds) else {
        return Ok(None);
    };
    let (text, date) = (moment.text(alloc)?, moment.date_text(alloc)?);
    Ok(Some(format!(in alloc; "{text} {date}")?))
}

fn seconds_of(alloc: Global, text: &str) -> Result<Option<String>> {
    match Moment::read(text) {
        Some(moment) => Ok(Some(format!(in alloc; "{}", moment.secs())?)),
        None => Ok(None),
    }
}

fn text_at(alloc: Global, moment: Option<Moment>) -> Result<Option<String>> {
    match moment {
        Some(moment) => Ok(Some(moment.text(alloc)?)),
        None => Ok(None),
    }
}
