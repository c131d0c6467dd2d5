//! The files under a book, given back.
ghost use Rattle.std.specs.Prelude.{◌≡◌, true};
ghost use Rattle.sqlite_wal.specs.Reads.{AreClean};
ghost use Rattle.books.specs.Kept.{book_state};
ghost use Rattle.sqlbook.specs.{Meaning.{are_right, stored_of}, Files.IsLeftIn, AsBook.as_book};

use crate::book::{SqlBook, into_connection};
use crate::provenance::Provenance;
use sqlite_disk::{Disk, Files};
use sqlite_store::FileStore;

/// Gives the files under a book back; a transaction that is open is undone. Whatever a crash may leave
/// of them is, once it is opened and adopted, one of what the book returned.
pub fn into_files<D: Disk + Drop, O: Provenance<FileStore<D>> + Drop>(
    book: SqlBook<FileStore<D>, O>,
) -> Files<D>
    ensures { AreClean D.Disk result.log result.db
        → (as_book stored_of are_right book.records.store).is_honest ≡ true
        → IsLeftIn D.Disk result (book_state (as_book stored_of are_right book.records.store)
        book.refused) }
{
    into_connection(book).into_store().close()
}
