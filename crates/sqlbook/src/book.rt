//! Books in the rows of a database.
ghost use Rattle.std.specs.Prelude.{◌≡◌, true, IfErr, IfOk};
ghost use Rattle.sqlite.specs.{Held.state, State.HasCleanDisk};
ghost use Rattle.books.specs.Kept.{book_state};
ghost use Rattle.sqlite_trees.specs.{Tree.Trees, View.IsClean};
ghost use Rattle.sqltables.specs.Adoption.{IsAdopted, IsFound, LeavesAsFound, LeavesAsItWas};
ghost use Rattle.sqltables.specs.{Readiness.IsKnownAs, Stored.Covers};
ghost use Rattle.sqlbook.specs.Beginning.{IsAdoptedBook, IsUnused};
ghost use Rattle.sqlbook.specs.{Meaning.{are_right, stored_of}, AsBook.as_book};

use crate::provenance::{InMemory, OnDisk, Provenance};
use crate::records::SqlRecords;
use books::{Book, Kept};
use sqlite::{Alter, Connection, MemStore};
use sqltables::{RowStore, Unadopted};
use states::{BookFault, Ready};
use std::alloc::Global;

/// A book in the tables of a database.
pub type SqlBook<S, O> = Kept<SqlRecords<S, O>>;

/// A book in memory.
pub type MemoryBook = SqlBook<MemStore, InMemory>;

/// A book in memory, with nothing in it, which was never opened. What it may refuse is want of memory
/// or room.
pub fn in_memory(alloc: Global) -> Result<SqlBook<MemStore, InMemory>, BookFault>
    ensures { IfOk result (λ book. IsUnused (book_state (as_book stored_of are_right book.records.store)
        book.refused)) }
{
    let store = RowStore::in_memory(alloc)?;
    Ok(Kept::over(SqlRecords {
        store,
        alloc,
        provenance: InMemory,
    }))
}

/// Does nothing. It tells a proof that nothing wrong is ever taken from a book in memory.
pub fn show_clean(book: &MemoryBook)
    ensures { (⟦<MemoryBook as Book>⟧.state book.now).is_clean ≡ true }
{}

/// The book of rows that were taken up.
fn over_rows<S: Alter>(store: RowStore<S>, alloc: Global) -> SqlBook<S, OnDisk>
    requires { (trees : Trees) × IsAdopted trees store }
    ensures rows { result.records.store ≡ store }
    ensures refused { result.refused ≡ 0 }
    ensures honest { store.is_clean ≡ true → store.is_honest ≡ true }
{
    store.show_rest();
    store.show_honest();
    Kept::over(SqlRecords {
        store,
        alloc,
        provenance: OnDisk,
    })
}

/// The book of a database that was just opened over files: of that the proof knows that its rows lie in the
/// order of their numbers. What isn't taken up is given back as it was found.
#[tactic(auto, using(crate::proofs::BeginningLemmas::adopted_book, crate::proofs::BeginningLemmas::honest_rows))]
pub fn taken<S: Alter + Drop>(
    conn: Connection<S>,
    alloc: Global,
) -> Result<SqlBook<S, OnDisk>, (Unadopted, S)>
    requires { IsFound (state S.Store conn) }
    ensures book { IfOk result (λ book.
        IsAdoptedBook (state S.Store conn).committed.trees book.records.store book.refused) }
    ensures clean { IfOk result (λ book.
        book.records.store.is_clean ≡ true → HasCleanDisk (state S.Store conn)) }
    ensures was_clean { IfErr result (λ e.
        IsClean (S.Store.view e.1) → HasCleanDisk (state S.Store conn)) }
    ensures refused { IfErr result (λ e. IsClean (S.Store.view e.1)
        → LeavesAsFound (state S.Store conn).committed.trees (S.Store.recovers e.1)) }
    ensures others { IfErr result (λ e. e.0 ≡ Unadopted.Other → IsClean (S.Store.view e.1)
        → IsKnownAs Ready.Other (state S.Store conn).committed.trees) }
{
    let store = RowStore::taken(conn, alloc)?;
    Ok(over_rows(store, alloc))
}

/// The book of a database that was used before, or may have been. It is read and checked anew, whole. What
/// isn't taken up is given back, with what was committed as it was: after a fault, and where it is something
/// else's.
#[tactic(auto, using(crate::proofs::BeginningLemmas::adopted_book, crate::proofs::BeginningLemmas::honest_rows))]
pub fn adopt<S: Alter + Drop>(
    conn: Connection<S>,
    alloc: Global,
) -> Result<SqlBook<S, OnDisk>, (Unadopted, S)>
    ensures book { IfOk result (λ book.
        IsAdoptedBook (state S.Store conn).committed.trees book.records.store book.refused) }
    ensures clean { IfOk result (λ book.
        book.records.store.is_clean ≡ true → HasCleanDisk (state S.Store conn)) }
    ensures refused { IfErr result (λ e. IsClean (S.Store.view e.1)
        → LeavesAsItWas (state S.Store conn) (S.Store.recovers e.1)) }
    ensures others { IfErr result (λ e. e.0 ≡ Unadopted.Other → IsClean (S.Store.view e.1)
        → IsKnownAs Ready.Other (state S.Store conn).committed.trees) }
{
    let store = RowStore::adopt(conn, alloc)?;
    Ok(over_rows(store, alloc))
}

/// Gives the connection under a book back, as it is. Whatever a crash may leave of its database is one of
/// what the book returned.
pub fn into_connection<S: Alter, O: Provenance<S> + Drop>(book: SqlBook<S, O>) -> Connection<S>
    ensures honest { (state S.Store result).is_clean ≡ book.records.store.is_honest }
    ensures covers { HasCleanDisk (state S.Store result)
        → Covers book.records.store.crash_leaves (state S.Store result).may_leave }
{
    book.into_records().into_rows().into_connection()
}
