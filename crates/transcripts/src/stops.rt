//! A file fails at each of its calls in turn, until a command passes, and what lies in the files is opened
//! again: what was written, and what was synchronised. It is all or nothing.

use crate::failing::{Failing, NONE};
use crate::files::{Left, NOT_OPENED, NOT_TAKEN_UP, REFUSED, Work, work_in};
use anyhow::{Context, Result, bail};
use sqlite::{Files, Options};
use sqlite_disk::{Crash, Disk, Memory};
use std::alloc::Global;
use std::rt::Files as HostFiles;
use teststeps::lines::{Line, Section, is_among, only, read, script_of};
use teststeps::wire::FAILED;

/// A file in memory.
type File = Failing<Memory>;

/// What lies in a log and a database file.
#[derive(PartialEq, Eq, Drop)]
struct Image {
    log: Vec<u8>,
    database: Vec<u8>,
}

impl Image {
    /// What was written to files.
    fn of(alloc: Global, files: &Files<File>) -> Result<Image> {
        Ok(Image {
            log: files.log.inner().bytes().to_vec(alloc)?,
            database: files.db.inner().bytes().to_vec(alloc)?,
        })
    }

    /// Files in which that lies, and whose calls of these numbers fail.
    fn files(&self, alloc: Global, log: (u64, u64), database: (u64, u64)) -> Result<Files<File>> {
        Ok(Files {
            log: file(alloc, &self.log, log)?,
            db: file(alloc, &self.database, database)?,
        })
    }
}

/// A file in which bytes lie that were synchronised.
fn file(alloc: Global, bytes: &[u8], failing: (u64, u64)) -> Result<File> {
    let mut file = Memory::new(alloc);
    file.write_at(0, bytes)?;
    file.sync()?;
    Ok(Failing::new(file, failing))
}

/// The marks of lines that begin a block, and of those in one.
const MARKS: &str = "earlier|tried|taken over|then|look|before|after|instead|C|S";

/// What is sent and what must come, under a policy if it names one.
#[derive(Drop)]
struct Block<'a> {
    mark: &'a str,
    policy: Vec<u8>,
    sent: Vec<u8>,
    wanted: Vec<u8>,
}

/// What is tried and what may be found afterwards, and what lies in the files before.
#[derive(Drop)]
struct Case<'a> {
    blocks: Vec<Block<'a>>,
    earlier: Image,
}

impl<'a> Case<'a> {
    fn read(rt: &(impl HostFiles + AllocGlobal), lines: &[Line<'a>]) -> Result<Case<'a>> {
        let alloc = rt.alloc();
        let mut blocks = Vec::new(alloc);
        for (index, line) in lines.iter().enumerate() {
            if !is_among(line.mark, "C|S") {
                let others = script_lines(&lines[index + 1..]);
                let policy = match line.text {
                    "" => Vec::new(alloc),
                    file => read(rt, file)?,
                };
                blocks.push(Block {
                    mark: line.mark,
                    policy,
                    sent: script_of(alloc, others, "C")?,
                    wanted: script_of(alloc, others, "S")?,
                })?;
            }
        }
        let earlier = earlier_image(alloc, &blocks)?;
        Ok(Case { blocks, earlier })
    }

    /// The first block of a mark.
    fn block(&self, mark: &str) -> Option<&Block<'a>> {
        self.blocks.iter().find(|block| block.mark == mark)
    }

    /// What must come in the block of a mark.
    fn wanted(&self, mark: &str) -> &[u8] {
        match self.block(mark) {
            Some(block) => &block.wanted,
            None => b"",
        }
    }

    /// What is tried.
    fn work(&self) -> Result<Work<'_>> {
        let takeover = self.block("taken over");
        let block = takeover
            .or(self.block("tried"))
            .context("nothing is tried")?;
        Ok(Work {
            policy: &block.policy,
            is_takeover: takeover.is_some(),
            script: &block.sent,
            wanted: &block.wanted,
            then: match self.block("then") {
                Some(block) => &block.sent,
                None => b"",
            },
        })
    }

    /// Refuses what lies in files, unless it may be found after what was printed. What was opened before isn't opened
    /// again.
    fn check(
        &self,
        alloc: Global,
        image: Image,
        printed: &Printed,
        opened: &mut Vec<Opened>,
    ) -> Result<()> {
        for it in opened.iter() {
            if it.image == image {
                return self.compare(printed, &it.found);
            }
        }
        let found = self.found_in(alloc, &image)?;
        self.compare(printed, &found)?;
        Ok(opened.push(Opened { image, found })?)
    }

    /// What the registry in which that lies answers.
    fn found_in(&self, alloc: Global, image: &Image) -> Result<Vec<u8>> {
        let mut found = Vec::new(alloc);
        for block in &self.blocks {
            if block.mark == "look" {
                found.extend_from_slice(&carry_out(alloc, image, block, LATER)?.printed)?;
            }
        }
        Ok(found)
    }

    /// Refuses what is found, unless it may be after what was printed of what was tried, and of what was tried then.
    fn compare(&self, printed: &Printed, found: &[u8]) -> Result<()> {
        let is_after = found == self.wanted("after");
        let is_either = is_after || found == self.wanted("before");
        let is_instead = found == self.wanted("instead");
        let then = printed.1.as_slice();
        let is_right = if printed.0.as_slice() == self.work()?.wanted {
            is_after
        } else if then.is_empty() {
            is_either
        } else if then == FAILED {
            is_either || is_instead
        } else {
            then == self.wanted("then") && is_instead
        };
        if !is_right {
            bail!("something else is found");
        }
        Ok(())
    }
}

/// What lies in the files before: the last command's transaction in the log, and all that was before it written
/// back.
fn earlier_image(alloc: Global, blocks: &[Block<'_>]) -> Result<Image> {
    let (log, database) = (Vec::new(alloc), Vec::new(alloc));
    let mut image = Image { log, database };
    for block in blocks {
        if block.mark == "earlier" {
            image = Image::of(alloc, &carry_out(alloc, &image, block, AT_ONCE)?.files)?;
        }
    }
    Ok(image)
}

/// Those of these lines before the first that is of no script.
fn script_lines<'l, 'a>(lines: &'l [Line<'a>]) -> &'l [Line<'a>] {
    match lines.iter().position(|line| !is_among(line.mark, "C|S")) {
        Some(end) => &lines[..end],
        None => lines,
    }
}

/// A script over what lies in files, none of whose calls fails.
fn carry_out(alloc: Global, image: &Image, block: &Block<'_>, frames: usize) -> Result<Left<File>> {
    let work = Work {
        policy: &block.policy,
        is_takeover: false,
        script: &block.sent,
        wanted: b"",
        then: b"",
    };
    work_in(
        alloc,
        image.files(alloc, NONE, NONE)?,
        options(frames),
        &work,
    )
}

/// Pages in the log at which these are written back to the database file: so many that none is here, or each
/// at once.
const LATER: usize = 1000;

const AT_ONCE: usize = 1;

/// Pages that are held in memory, for which an opening takes room: more than the files here have.
const PAGES: usize = 100;

fn options(checkpoint_frames: usize) -> Options {
    Options {
        cache_pages: PAGES,
        spill_pages: PAGES,
        checkpoint_frames,
        seed: 7,
    }
}

/// Which file fails.
#[derive(Clone, Copy, Debug)]
enum Which {
    Log,
    Database,
}

/// How many calls fail behind the first that does: all, as where the machine has stopped, or none, and what comes then
/// is answered or not.
const ALL: u64 = u64::MAX;

const NO_MORE: u64 = 0;

/// Which file fails, and how, and when the log is written back.
type Trouble = (Which, u64, usize);

/// The database file is written to only where the log is written back.
const TROUBLES: [Trouble; 6] = [
    (Which::Log, ALL, LATER),
    (Which::Log, NO_MORE, LATER),
    (Which::Log, ALL, AT_ONCE),
    (Which::Log, NO_MORE, AT_ONCE),
    (Which::Database, ALL, AT_ONCE),
    (Which::Database, NO_MORE, AT_ONCE),
];

/// Whether what was printed is a fault's: of a command, of an opening, or of what comes before.
fn is_fault(printed: &[u8]) -> bool {
    let words = ["store fault\n", REFUSED, NOT_OPENED, NOT_TAKEN_UP];
    printed == FAILED || words.iter().any(|word| printed == word.as_bytes())
}

/// What was printed of what was tried, and of what was tried then.
type Printed = (Vec<u8>, Vec<u8>);

/// What lay in files, and what was found in them.
#[derive(Drop)]
struct Opened {
    image: Image,
    found: Vec<u8>,
}

/// Lets a file fail after so many calls, and compares what is found: whether no call failed.
fn fail_after(
    alloc: Global,
    case: &Case<'_>,
    (which, more, frames): Trouble,
    calls: u64,
    opened: &mut Vec<Opened>,
) -> Result<bool> {
    let failing = (calls, calls.saturating_add(more));
    let files = match which {
        Which::Log => case.earlier.files(alloc, failing, NONE)?,
        Which::Database => case.earlier.files(alloc, NONE, failing)?,
    };
    let work = case.work()?;
    let left = work_in(alloc, files, options(frames), &work)?;
    let has_failed = left.files.log.has_failed() || left.files.db.has_failed();
    let printed = (left.printed, left.printed_then);
    let (written, synchronised) = remains_of(alloc, left.files)?;
    case.check(alloc, written, &printed, opened)?;
    case.check(alloc, synchronised, &printed, opened)?;
    if printed.0.as_slice() != work.wanted && !(has_failed && is_fault(&printed.0)) {
        bail!("something else is printed");
    }
    Ok(!has_failed)
}

/// What lies in files, where all that was written was kept, and where nothing was of what wasn't synchronised.
fn remains_of(alloc: Global, files: Files<File>) -> Result<(Image, Image)> {
    let mut files = files;
    let written = Image::of(alloc, &files);
    files.log.crash();
    files.db.crash();
    let synchronised = Image::of(alloc, &files);
    drop(files);
    Ok((written?, synchronised?))
}

/// Before so many calls on a disk every command has passed.
const MANY: u64 = 2000;

/// Lets a file fail after each number of calls in turn, until no call fails.
fn fail_after_each(
    alloc: Global,
    case: &Case<'_>,
    trouble: Trouble,
    opened: &mut Vec<Opened>,
) -> Result<()> {
    for calls in 0..MANY {
        let passes = fail_after(alloc, case, trouble, calls, opened);
        if passes.context(format_args!("{trouble:?}, {calls}"))? {
            return Ok(());
        }
    }
    bail!("{trouble:?}: never passes")
}

/// Lets a file fail in each way, after each number of calls, and compares what is found.
pub fn run_stops(rt: &(impl HostFiles + AllocGlobal), section: &Section<'_>) -> Result<String> {
    let alloc = rt.alloc();
    only(section.common, "")?;
    only(section.lines, MARKS)?;
    let case = Case::read(rt, section.lines)?;
    let mut opened = Vec::new(alloc);
    for trouble in TROUBLES {
        fail_after_each(alloc, &case, trouble, &mut opened)?;
    }
    Ok(String::from_str(alloc, "all or nothing")?)
}
