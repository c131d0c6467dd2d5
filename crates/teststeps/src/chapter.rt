//! Blocks that are carried out one after the other over one book, which is opened again for each chapter.

use crate::wire::Wire;
use books::Book;
use policy::{Passwords, PolicyFile};
use registry::Registry;
use script::Exit;
use std::alloc::Global;

/// Blocks, and the policy under which the book is opened for them.
#[derive(Drop)]
pub struct Chapter<'a> {
    pub policy: &'a [u8],
    pub wires: Vec<Wire<'a>>,
}

/// Carries out chapters, up to the first for which the book isn't opened, and gives back the book and the end of the
/// last opening.
pub fn run_chapters<B: Book + Drop>(
    alloc: Global,
    book: B,
    chapters: &mut [Chapter<'_>],
) -> (B, Exit) {
    let mut book = book;
    for chapter in chapters.iter_mut() {
        match run_chapter(alloc, book, chapter) {
            Ok(left) => book = left,
            Err(refused) => return refused,
        }
    }
    (book, Exit::Done)
}

/// Carries out one. A book in a transaction isn't opened.
fn run_chapter<B: Book + Drop>(
    alloc: Global,
    book: B,
    chapter: &mut Chapter<'_>,
) -> Result<B, (B, Exit)> {
    if book.active() {
        return Err((book, Exit::File));
    }
    let PolicyFile { policy, passwords } = match PolicyFile::read(alloc, chapter.policy) {
        Ok(file) => file,
        Err(fault) => return Err((book, Exit::Policy(fault))),
    };
    match Registry::open(alloc, book, policy) {
        Ok(registry) => Ok(carry(registry, &passwords, &mut chapter.wires).into_book()),
        Err((fault, book)) => Err((book, Exit::Open(fault))),
    }
}

/// Carries out its blocks, but for those that come only where others failed.
fn carry<B: Book + Drop>(
    registry: Registry<B>,
    passwords: &Passwords,
    wires: &mut [Wire<'_>],
) -> Registry<B> {
    let mut registry = registry;
    let mut failures = 0u32;
    for wire in wires.iter_mut() {
        if failures > 0 || wire.step.kind != "look if failed" {
            registry = wire.carry(registry, passwords);
        }
        failures = failures.saturating_add(wire.failures);
    }
    registry
}
