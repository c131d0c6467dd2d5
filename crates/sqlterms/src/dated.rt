//! Tables of lengths of periods as rows.
ghost use Rattle.std.specs.Prelude.{◌≡◌, true, IfOk};
ghost use Rattle.sqlrows.specs.Meanings.{Changes};
ghost use Rattle.sqlterms.specs.inner.Changes.{AreDated};
ghost use Rattle.sqlterms.specs.Terms as spec;

use crate::counts::dated_days_of;
use basis::list::Seq;
use policy::DatedDays;
use sqlcolumns::{moment_column, moment_of_column};
use sqlite::Alter;
use sqltables::{DayRow, RowStore};
use states::BookFault;
use std::alloc::{AllocError, Global};

/// The table of a row, if each column reads.
fn dated_of(row: &DayRow) -> Option<DatedDays>
    ensures { result ≡ spec.later_days_in row.now }
{
    let from = moment_of_column(row.starts)?;
    let days = dated_days_of(row)?;
    Some(DatedDays { from, days })
}

/// The tables of these rows; one that doesn't read makes them none.
pub(crate) fn all_dated(
    alloc: Global,
    rows: &[DayRow],
) -> Result<Option<Seq<DatedDays>>, AllocError>
    ensures { IfOk result (λ tables. tables ≡ spec.all_dated rows.now) }
{
    let mut tables = Seq::new(alloc);
    for row in rows {
        let Some(table) = dated_of(row) else {
            return Ok(None);
        };
        tables.push(table)?;
    }
    Ok(Some(tables))
}

/// The row of a table. It has no number of its own yet.
fn row_of(table: &DatedDays) -> DayRow {
    let days = &table.days;
    DayRow {
        id: 0,
        starts: moment_column(table.from),
        days_add: i64::from(days.add),
        days_auto_renew: i64::from(days.auto_renew),
        days_renew: i64::from(days.renew),
        days_transfer: i64::from(days.transfer),
        days_redemption: i64::from(days.redemption),
        days_restore: i64::from(days.restore),
        days_pending_delete: i64::from(days.pending_delete),
        days_answer: i64::from(days.answer),
        days_lock: i64::from(days.lock),
    }
}

/// Puts down the tables that come after those that are there. Fewer than there are, are refused.
pub(crate) fn put_tables<S: Alter>(
    store: &mut RowStore<S>,
    tables: &[DatedDays],
) -> Result<(), BookFault>
    requires { store.old.is_open ≡ true }
    ensures { Changes result AreDated store.old store.new }
{
    let there = store.all_days()?;
    let known = there.as_slice().len();
    drop(there);
    let Some(added) = tables.get(known..) else {
        return Err(BookFault::Store);
    };
    append_tables(store, added)
}

fn append_tables<S: Alter>(store: &mut RowStore<S>, tables: &[DatedDays]) -> Result<(), BookFault>
    requires { store.old.is_open ≡ true }
    ensures { Changes result AreDated store.old store.new }
{
    for table in tables {
        store.append_day(&row_of(table))?;
    }
    Ok(())
}
