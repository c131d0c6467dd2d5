//! The answers to a script's lines.
ghost use Rattle.std.specs.Prelude.{◌≡◌, ℕ, List, [], ◌++◌, codes, option_map, true, Some, IfErr, IfSome, OnErr, OnOk};
ghost use Rattle.std.specs.Io.{BufRead.strip_last, KnownBytes.{Appends, Keeps, append_known}};
ghost use Rattle.frames.specs.Outcomes.{outcome_of};
ghost use Rattle.script.specs.inner.Runs.{AppendsFront, BreaksAt, EndsBehind, HaltsAt, TellsLine, printed_text, run_end};
ghost use Rattle.script.specs.Runs.{EndsIn, kept};
ghost use Rattle.books.specs.Book.{Follows};

use crate::answer::answer;
use crate::exit::Exit;
use books::Book;
use frames::{Answer, FAILED};
use registry::Registry;
use std::alloc::{AllocError, Global};
use std::io::{self, BufRead, BufReader, Read, Write};
use streams::write_all;

/// How many bytes may be pending before they are written.
const ROOM: usize = 8192;

/// Answers a script line by line over a registry that is open, in which its lines are carried out. What
/// was written before a fault stays, and so does what was carried out.
pub fn run_on<B: Book + Drop, R: Read + Drop, W: Write>(
    alloc: Global,
    registry: &mut Registry<B>,
    reader: R,
    writer: &mut W,
) -> Exit
    ensures ends { IfSome (R.remaining reader) (λ input. (B.state registry.new.book).is_clean ≡ true
        → EndsIn registry.old.policy (kept (B.state registry.old.book))
        (kept (B.state registry.new.book)) input (W.contents writer.old) (W.contents writer.new)
        result) }
    ensures follows { Follows (B.state registry.old.book) (B.state registry.new.book) }
    ensures policy { registry.new.policy ≡ registry.old.policy }
{
    match answer_input(alloc, registry, reader, writer) {
        Ok(()) => Exit::Done,
        Err(exit) => exit,
    }
}

/// Answers all lines of an input, and writes the replies in pieces of about `ROOM` bytes.
fn answer_input<B: Book + Drop, R: Read + Drop, W: Write>(
    alloc: Global,
    registry: &mut Registry<B>,
    reader: R,
    writer: &mut W,
) -> Result<(), Exit>
    ensures ends { IfSome (R.remaining reader) (λ input. (B.state registry.new.book).is_clean ≡ true
        → EndsIn registry.old.policy (kept (B.state registry.old.book))
        (kept (B.state registry.new.book)) input (W.contents writer.old) (W.contents writer.new)
        (run_end result)) }
    ensures follows { Follows (B.state registry.old.book) (B.state registry.new.book) }
    ensures policy { registry.new.policy ≡ registry.old.policy }
{
    let mut reader = BufReader::new(alloc, reader)?;
    let mut pending = Vec::with_capacity(alloc, 2 * ROOM)?;
    let answered = answer_lines(alloc, registry, &mut reader, &mut pending, writer);
    write_pending(&mut pending, writer)?;
    writer.flush()?;
    answered
}

/// Answers all lines. What isn't written yet is pending.
fn answer_lines<B: Book + Drop, R: BufRead, W: Write>(
    alloc: Global,
    registry: &mut Registry<B>,
    reader: &mut R,
    pending: &mut Vec<u8>,
    writer: &mut W,
) -> Result<(), Exit>
    ensures ends { IfSome (R.remaining reader.old) (λ input. (B.state registry.new.book).is_clean
        ≡ true
        → EndsBehind registry.old.policy (kept (B.state registry.old.book))
        (kept (B.state registry.new.book)) input (W.contents writer.old) pending.old.items
        (append_known (W.contents writer.new) pending.new.items) (run_end result)) }
    ensures sent { (sent : List ℕ) × Appends (W.contents writer.old) (W.contents writer.new) sent }
    ensures follows { Follows (B.state registry.old.book) (B.state registry.new.book) }
    ensures policy { registry.new.policy ≡ registry.old.policy }
{
    let mut text = Vec::new(alloc);
    for number in 1..u64::MAX {
        text.clear();
        if reader.read_until(b'\n', &mut text)? == 0 {
            return Ok(());
        }
        print_answer(alloc, registry, number, without_end(&text), pending, writer)?;
    }
    Err(Exit::File)
}

/// A line without the line feed that ends it.
fn without_end(text: &[u8]) -> &[u8]
    ensures { result.now ≡ strip_last 10 text.now }
{
    match text.split_last() {
        Some((b'\n', line)) => line,
        _ => text,
    }
}

/// Prints what a line is answered, unless it is empty.
fn print_answer<B: Book + Drop, W: Write>(
    alloc: Global,
    registry: &mut Registry<B>,
    number: u64,
    line: &[u8],
    pending: &mut Vec<u8>,
    writer: &mut W,
) -> Result<(), Exit>
    ensures is_printed { OnOk result ((B.state registry.new.book).is_clean ≡ true
        → TellsLine registry.old.policy line.now (kept (B.state registry.old.book))
        (kept (B.state registry.new.book)) (append_known (W.contents writer.old) pending.old.items)
        (append_known (W.contents writer.new) pending.new.items)) }
    ensures stopped { IfErr result (HaltsAt registry.old.policy line.now number
        (append_known (W.contents writer.old) pending.old.items)
        (append_known (W.contents writer.new) pending.new.items)) }
    ensures broken { IfErr result (λ exit. (B.state registry.new.book).is_clean ≡ true
        → BreaksAt registry.old.policy line.now (kept (B.state registry.old.book))
        (kept (B.state registry.new.book)) (W.contents writer.old) pending.old.items
        (append_known (W.contents writer.new) pending.new.items) exit) }
    ensures sent { (sent : List ℕ) × Appends (W.contents writer.old) (W.contents writer.new) sent }
    ensures follows { Follows (B.state registry.old.book) (B.state registry.new.book) }
    ensures policy { registry.new.policy ≡ registry.old.policy }
{
    if line.is_empty() {
        return Ok(());
    }
    let Some(answer) = answer(alloc, registry, line) else {
        return Err(Exit::Script(number));
    };
    let Some(text) = text_of(&answer) else {
        return Err(Exit::Memory);
    };
    print(pending, writer, text)?;
    Ok(())
}

/// The text that is printed of an answer, unless it found no memory.
fn text_of(answer: &Answer) -> Option<&[u8]>
    ensures { option_map (λ text. text.now) result ≡ printed_text (outcome_of answer.now) }
{
    match answer {
        Answer::Reply(text) | Answer::LastReply(text) => Some(text),
        Answer::Failed => Some(FAILED),
        Answer::Lost => None,
    }
}

/// Prints a text and a line feed.
fn print<W: Write>(pending: &mut Vec<u8>, writer: &mut W, text: &[u8]) -> io::Result<()>
    ensures printed { OnOk result (Appends (append_known (W.contents writer.old) pending.old.items)
        (append_known (W.contents writer.new) pending.new.items) (text.now ++ codes "\n")) }
    ensures begun { OnErr result (AppendsFront (W.contents writer.old)
        (append_known (W.contents writer.new) pending.new.items) (pending.old.items
        ++ (text.now ++ codes "\n"))) }
    ensures sent { (sent : List ℕ) × Appends (W.contents writer.old) (W.contents writer.new) sent }
{
    make_room(pending, writer)?;
    add(pending, text)?;
    Ok(())
}

/// Writes what is pending, if that is much.
fn make_room<W: Write>(pending: &mut Vec<u8>, writer: &mut W) -> io::Result<()>
    ensures same { OnOk result (Keeps (append_known (W.contents writer.old) pending.old.items)
        (append_known (W.contents writer.new) pending.new.items)) }
    ensures begun { OnErr result (AppendsFront (W.contents writer.old)
        (append_known (W.contents writer.new) pending.new.items) pending.old.items) }
    ensures sent { (sent : List ℕ) × Appends (W.contents writer.old) (W.contents writer.new) sent }
{
    if pending.len() < ROOM {
        return Ok(());
    }
    write_pending(pending, writer)
}

/// Adds a text and a line feed to what is pending.
fn add(pending: &mut Vec<u8>, text: &[u8]) -> Result<(), AllocError>
    ensures all { OnOk result (pending.new.items ≡ pending.old.items
        ++ (text.now ++ codes "\n")) }
    ensures begun { OnErr result (AppendsFront (Some pending.old.items) (Some pending.new.items)
        (text.now ++ codes "\n")) }
{
    pending.extend_from_slice(text)?;
    pending.push(b'\n')?;
    Ok(())
}

/// Writes what is pending. After a fault nothing of it is tried again, so that nothing is written twice.
fn write_pending<W: Write>(pending: &mut Vec<u8>, writer: &mut W) -> io::Result<()>
    ensures empty { pending.new.items ≡ [] }
    ensures bytes { OnOk result (Appends (W.contents writer.old) (W.contents writer.new)
        pending.old.items) }
    ensures begun { OnErr result (AppendsFront (W.contents writer.old) (W.contents writer.new)
        pending.old.items) }
{
    let written = write_all(writer, pending);
    pending.clear();
    written
}
