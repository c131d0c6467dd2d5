//! Lists as one text: statuses, and the lines of a street.
ghost use Rattle.std.specs.Prelude.{◌≡◌, ◌==◌, ◌<◌, ℕ, List, Some, map, IfOk, IfSome};
ghost use Rattle.std.specs.List.{list_any, slice_split};
ghost use Rattle.objects.specs.{StatusTexts.status_text, declared.status.Status.Status};
ghost use Rattle.sqlcolumns.specs.Texts as spec;

use basis::list::Seq;
use basis::text::Text;
use objects::Status;
use std::alloc::{AllocError, Global};

/// The pieces of a text between the places with a character of one byte.
pub(crate) fn pieces_of(alloc: Global, text: &str, at: char) -> Result<Vec<&str>, AllocError>
    requires { at < 128 }
    ensures { IfOk result (λ pieces. map (λ p. p.now) pieces.items
        ≡ slice_split (λ b. b == at) text.now) }
{
    text.split(at).collect(alloc)
}

/// The statuses' texts, with a blank between them.
#[tactic(auto, using(crate::proofs::TextLemmas::joined_is))]
pub fn statuses_column(alloc: Global, statuses: &[Status]) -> Result<Text, AllocError>
    ensures { IfOk result (λ text. text ≡ spec.statuses_column statuses.now) }
{
    let words = words_of(alloc, statuses)?;
    Ok(Text::from_string(words.join(alloc, " ")?))
}

fn words_of(alloc: Global, statuses: &[Status]) -> Result<Vec<&'static str>, AllocError>
    ensures { IfOk result (λ words. map (λ w. w.now) words.items ≡ map status_text statuses.now) }
{
    statuses.iter().map(|status| status.text()).collect(alloc)
}

/// The statuses of a text, if it's a list's.
#[tactic(auto, using(crate::proofs::TextLemmas::statuses_written, crate::proofs::TextLemmas::statuses_back))]
pub fn statuses_of_column(alloc: Global, text: &str) -> Result<Option<Seq<Status>>, AllocError>
    ensures value { IfOk result (λ read. read ≡ spec.statuses_in text.now) }
    ensures found { IfOk result (λ read. IfSome read (λ xs. text.now ≡ spec.statuses_column xs)) }
    ensures only { IfOk result (λ read. (xs : List Status) → text.now ≡ spec.statuses_column xs
        → read ≡ Some xs) }
{
    Ok(named(alloc, text)?)
}

/// The statuses that the words between blanks name, if each names one; an empty text is that of none.
fn named(alloc: Global, text: &str) -> Result<Option<Seq<Status>>, AllocError>
    ensures { IfOk result (λ read. read ≡ spec.statuses_in text.now) }
{
    if text.is_empty() {
        return Ok(Some(Seq::new(alloc)));
    }
    let mut statuses = Vec::new(alloc);
    for word in text.split(' ') {
        let Some(status) = Status::named(word) else {
            return Ok(None);
        };
        statuses.push(status)?;
    }
    Ok(Some(Seq::from_vec(statuses)))
}

/// The lines, with a line feed between them; none where there is no line, or one has a line feed.
#[tactic(auto, using(crate::proofs::TextLemmas::street_joined))]
pub fn street_column(alloc: Global, lines: &[Text]) -> Result<Option<Text>, AllocError>
    ensures { IfOk result (λ text. text ≡ spec.street_column lines.now) }
{
    if lines.is_empty() || have_feeds(lines) {
        return Ok(None);
    }
    let pieces = shown(alloc, lines)?;
    Ok(Some(Text::from_string(pieces.join(alloc, "\n")?)))
}

fn shown(alloc: Global, lines: &[Text]) -> Result<Vec<&str>, AllocError>
    ensures { IfOk result (λ pieces. map (λ p. p.now) pieces.items
        ≡ map (λ line. line) lines.now) }
{
    lines.iter().map(|line| line.as_str()).collect(alloc)
}

fn have_feeds(lines: &[Text]) -> bool
    ensures { result ≡ list_any spec.has_feed lines.now }
{
    lines.iter().any(|line| has_feed(line))
}

fn has_feed(line: &Text) -> bool
    ensures { result ≡ spec.has_feed line.now }
{
    line.as_str().as_bytes().iter().any(|byte| *byte == b'\n')
}

/// The lines of a text, of which there is at least one.
#[tactic(auto, using(crate::proofs::TextLemmas::street_written, crate::proofs::TextLemmas::street_back))]
pub fn street_of_column(alloc: Global, text: &str) -> Result<Seq<Text>, AllocError>
    ensures value { IfOk result (λ lines. lines ≡ spec.street_in text.now) }
    ensures found { IfOk result (λ lines. spec.street_column lines ≡ Some text.now) }
    ensures only { IfOk result (λ lines. (xs : List (List ℕ))
        → spec.street_column xs ≡ Some text.now → lines ≡ xs) }
{
    Ok(Seq::from_vec(lines_of(alloc, text)?))
}

fn lines_of(alloc: Global, text: &str) -> Result<Vec<Text>, AllocError>
    ensures { IfOk result (λ lines. lines.items ≡ spec.street_in text.now) }
{
    let pieces = pieces_of(alloc, text, '\n')?;
    let mut lines = Vec::new(alloc);
    for piece in &pieces {
        lines.push(Text::from_str(alloc, piece)?)?;
    }
    Ok(lines)
}
