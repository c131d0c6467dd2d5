//! What the database's rows and errors are to a book.
ghost use Rattle.std.specs.Prelude.{◌≡◌, List, map, IfOk};
ghost use Rattle.sqltables.specs.inner.Faults as faults;

use basis::list::Seq;
use sqlite::{Error, ErrorCode, Row};
use sqlrows::Record;
use states::BookFault;
use std::alloc::Global;

/// What an error of the database is to a book.
pub fn fault_of(error: &Error) -> BookFault
    ensures { result ≡ faults.fault_of error.now }
{
    match error {
        Error::SqliteFailure(ErrorCode::OutOfMemory) => BookFault::Memory,
        _ => BookFault::Store,
    }
}

/// The records that rows show.
pub fn read_all<R: Record>(alloc: Global, rows: &[Row]) -> Result<Seq<R>, BookFault>
    ensures { (xs : List R) → rows.now ≡ map R.shown xs → IfOk result (λ out. out ≡ xs) }
{
    let mut records = Seq::new(alloc);
    'rows: for row in rows {
        match R::from_row(row) {
            Ok(record) => records.push(record)?,
            Err(error) => return Err(fault_of(&error)),
        }
    }
    Ok(records)
}
