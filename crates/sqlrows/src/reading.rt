//! Rows of which there is one at most.
ghost use Rattle.std.specs.Prelude.{◌≡◌, IfOk, Some};
ghost use Rattle.sqlrows.specs.Read.{rows_of};

use basis::list::Seq;
use states::BookFault;

/// The row that these are, if there is one; more are refused.
pub fn only<R: Drop>(rows: Seq<R>) -> Result<Option<R>, BookFault>
    ensures { IfOk result (λ row. rows ≡ rows_of row) }
{
    let mut rows = rows.into_vec();
    let row = rows.pop();
    if !rows.is_empty() {
        return Err(BookFault::Store);
    }
    Ok(row)
}

/// What a row reads as; one that doesn't is refused.
pub fn or_fault<X: Drop>(read: Option<X>) -> Result<X, BookFault>
    ensures { IfOk result (λ x. read ≡ Some x) }
{
    match read {
        None => Err(BookFault::Store),
        Some(x) => Ok(x),
    }
}
