//! The two books that everything here runs over. What knows a book of the database by its kind is in
//! one function: each such function costs the prover much.

use anyhow::{Result, bail};
use books::Book;
use mapbook::new_book;
use oncebook::OnceBook;
use script::Exit;
use sqlbook::in_memory;
use std::alloc::Global;
use teststeps::chapter::{Chapter, run_chapters};

/// Where a registry is kept: in the rows of a database in memory, or in ordered maps.
#[derive(Clone, Copy)]
pub enum Kind {
    Rows,
    Maps,
}

/// Three calls on a book that are refused. A book below sees no call that is refused above it, so each counts from
/// what came to it.
pub type Places = (u64, u64, u64);

/// No call is refused.
pub const NEVER: Places = (u64::MAX, u64::MAX, u64::MAX);

/// Chapters that were carried out, the end of the last opening, how many calls were made of the book, and which of the
/// three were refused.
#[derive(Drop)]
pub struct Ran<'a> {
    pub chapters: Vec<Chapter<'a>>,
    pub opening: Exit,
    pub calls: u64,
    pub refused: (bool, bool, bool),
}

/// Carries out chapters over a book of a kind that is new, some of whose calls are refused.
pub fn run_over<'a>(
    alloc: Global,
    kind: Kind,
    chapters: Vec<Chapter<'a>>,
    places: Places,
) -> Result<Ran<'a>> {
    match kind {
        Kind::Rows => match in_memory(alloc) {
            Ok(book) => Ok(ran_over(alloc, book, chapters, places)),
            Err(_) => bail!("no memory for a database"),
        },
        Kind::Maps => Ok(ran_over(alloc, new_book(alloc), chapters, places)),
    }
}

fn ran_over<'a, B: Book + Drop>(
    alloc: Global,
    book: B,
    chapters: Vec<Chapter<'a>>,
    places: Places,
) -> Ran<'a> {
    let (first, second, third) = places;
    let book = OnceBook::new(OnceBook::new(OnceBook::new(book, third), second), first);
    let mut chapters = chapters;
    let (book, opening) = run_chapters(alloc, book, &mut chapters);
    let (calls, refused) = counts(book);
    Ran {
        chapters,
        opening,
        calls,
        refused,
    }
}

/// How many calls came, and which were refused.
fn counts<B: Book + Drop>(book: OnceBook<OnceBook<OnceBook<B>>>) -> (u64, (bool, bool, bool)) {
    let (calls, first) = (book.calls(), book.has_refused());
    let middle = book.into_inner();
    let second = middle.has_refused();
    let last = middle.into_inner();
    let third = last.has_refused();
    drop(last);
    (calls, (first, second, third))
}
