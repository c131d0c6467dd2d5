//! Where the rows of a book come from.
ghost use Rattle.std.specs.Prelude.{◌≡◌, Bool, true, false};

use sqlite::{Alter, MemStore};
use sqltables::RowStore;

/// Where the rows of a book come from.
pub trait Provenance<S: Alter> {
    /// Whether this program made them, in memory.
    ghost is_made: { Bool };

    /// Does nothing. It tells a proof that of rows that were made here nothing wrong is ever taken.
    fn show_clean(store: &RowStore<S>)
        ensures { is_made ≡ true → store.now.is_clean ≡ true };
}

/// This program made them, in memory.
#[derive(Clone, Copy, Drop)]
pub struct InMemory;

impl Provenance<MemStore> for InMemory {
    ghost is_made = { true };

    fn show_clean(store: &RowStore<MemStore>) {
        store.show_clean();
    }
}

/// They were in a database that was used before.
#[derive(Clone, Copy, Drop)]
pub struct OnDisk;

impl<S: Alter> Provenance<S> for OnDisk {
    ghost is_made = { false };

    fn show_clean(_store: &RowStore<S>) {}
}
