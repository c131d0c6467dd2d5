//! Records, and the rows that show them.

ghost use Rattle.std.specs.Prelude.{◌≡◌, true, IfOk, IsTrue};
ghost use Rattle.sqlite_value.specs.Order.{Row as SqlRow};
ghost use Rattle.sqlite.specs.{Values.bound, Listing.understood, Held.state, State.HasCleanDisk};
ghost use Rattle.sqlrows.specs.inner.Calls.{Writes, ForgetsNoFault};
ghost use Rattle.sqlrows.specs.inner.Layouts.{command_of, writes_tables};

use sqlite::types::ValueRef;
use sqlite::{Alter, Connection, Error, Row};

/// What a row of a table means.
pub trait Record: Sized + Drop {
    ghost shown: { Self → SqlRow };

    fn from_row(row: &Row) -> Result<Self, Error>
        ensures { (x : Self) → row.now ≡ shown x → IfOk result (λ r. r ≡ x) };
}

/// Runs a statement that writes rows, or makes a table or an index.
pub fn write<S: Alter>(
    conn: &mut Connection<S>,
    sql: &str,
    params: &[ValueRef<'_>],
) -> Result<(), Error>
    ensures does { writes_tables (command_of (understood conn.old.schema sql.now)) ≡ true
        → conn.old.in_transaction ≡ true
        → Writes sql.now (bound params.now) (state S.Store conn.old) (state S.Store conn.new)
        result }
    ensures steady { ForgetsNoFault (state S.Store conn.old) (state S.Store conn.new) }
    ensures opened { HasCleanDisk (state S.Store conn.new) → IsTrue (state S.Store conn.new).is_open
        → IsTrue (state S.Store conn.old).is_open }
{
    conn.execute(sql, params)?;
    Ok(())
}
