//! Runs files of data: what is sent to a registry, and what must come. `docs/TRANSCRIPTS.md` describes their kinds.
//!
//! The arguments name the files; a file's ending tells its kind. The status is 1 if anything differs.
//! `find FILE rows|maps PLACE [stops]` sends one line of a file of refusals while memory may be refused
//! from outside, and prints what was found then (`.ci/refused`); with `stops`, it stops before the line.
#![tactic(auto)]

mod case;
mod failing;
mod files;
mod over;
mod pairs;
mod refusals;
mod stops;

use anyhow::{Context, Result, bail};
use case::Case;
use over::Kind;
use pairs::run_pair;
use refusals::{find, run_refusals};
use std::env;
use std::process::ExitCode;
use std::rt::{Env, Files};
use stops::run_stops;
use teststeps::lines::{Section, lines_of, read, sections_of};

/// What a section of a file begins with, by what the file's name ends with.
fn mark_of(file: &str) -> &'static str {
    match file.rsplit_once('.') {
        Some((_, "cases")) => "case",
        Some((_, "refusals")) => "refused",
        Some((_, "pairs")) => "pair",
        Some((_, "stops")) => "stop",
        _ => "transcript",
    }
}

/// Runs a section, and gives what came of it.
fn run_section(
    rt: &(impl Files + AllocGlobal),
    mark: &str,
    section: &Section<'_>,
) -> Result<String> {
    match mark {
        "case" => Case::read(rt, section)?.run(rt.alloc(), "steps"),
        "refused" => run_refusals(rt, section),
        "pair" => run_pair(rt, section),
        "stop" => run_stops(rt, section),
        _ => Case::of_transcript(rt, section)?.run(rt.alloc(), "replies"),
    }
}

/// The text of a file.
fn text_of_file(rt: &(impl Files + AllocGlobal), file: &str) -> Result<String> {
    String::from_utf8(read(rt, file)?).context(format_args!("{file} is no text"))
}

/// Runs the sections of a file, and says whether all is as written.
fn run_file(rt: &(impl Files + Print + AllocGlobal), file: &str) -> Result<bool> {
    let (text, mark) = (text_of_file(rt, file)?, mark_of(file));
    let lines = lines_of(rt.alloc(), text.as_str())?;
    let sections = sections_of(rt.alloc(), &lines, mark)?;
    let mut all_well = true;
    for section in &sections {
        let name = section.name;
        match run_section(rt, mark, section) {
            Ok(outcome) => println!(rt; "{file}: {name}: {outcome}")?,
            Err(error) => {
                all_well = false;
                println!(rt; "{file}: {name}: {error:#}")?;
            }
        }
    }
    Ok(all_well)
}

/// Sends one line of a file of refusals, while memory may be refused, and prints what was found.
fn find_one(rt: &(impl Env + Files + Print + AllocGlobal)) -> Result<bool> {
    let mut words = env::args(rt)?.skip(2);
    let (Some(file), Some(kind), Some(place)) = (words.next(), words.next(), words.next()) else {
        bail!("find FILE rows|maps PLACE [stops]");
    };
    let kind = match kind.as_str() {
        "rows" => Kind::Rows,
        "maps" => Kind::Maps,
        _ => bail!("neither rows nor maps"),
    };
    let text = text_of_file(rt, file.as_str())?;
    let lines = lines_of(rt.alloc(), text.as_str())?;
    let sections = sections_of(rt.alloc(), &lines, "refused")?;
    let place = place.as_str().parse::<usize>()?;
    let section = sections.get(place).context("no such line")?;
    println!(rt; "{}", find(rt, section, kind, words.next().is_some())?)?;
    Ok(true)
}

/// Runs the files that the arguments name, or sends the line that they do.
fn run(rt: &(impl Env + Files + Print + AllocGlobal)) -> Result<bool> {
    let mut all_well = true;
    for file in env::args(rt)?.skip(1) {
        if file.as_str() == "find" {
            return find_one(rt);
        }
        let is_well = run_file(rt, file.as_str())?;
        all_well = all_well && is_well;
    }
    Ok(all_well)
}

fn main(rt: HostRuntime) -> ExitCode {
    match run(&rt) {
        Ok(true) => ExitCode::from(0),
        Ok(false) => ExitCode::from(1),
        Err(error) => {
            let _ = eprintln!(rt; "{error:#}");
            ExitCode::from(1)
        }
    }
}
