//! Days and prices as columns.
ghost use Rattle.std.specs.Prelude.{◌≡◌};
ghost use Rattle.sqlterms.specs.Terms as spec;

use policy::{Days, Prices};
use sqlcolumns::years_of_column;
use sqltables::{DayRow, MetaRow};

/// The number of a column, if it's one below 2^32.
fn count_of_column(column: i64) -> Option<u32>
    ensures { result ≡ spec.count_in column }
{
    years_of_column(column)
}

/// The days of these counts, if all are there.
fn days_made(
    add: Option<u32>,
    auto_renew: Option<u32>,
    renew: Option<u32>,
    transfer: Option<u32>,
    redemption: Option<u32>,
    restore: Option<u32>,
    pending_delete: Option<u32>,
    answer: Option<u32>,
    lock: Option<u32>,
) -> Option<Days>
    ensures { result ≡ spec.days_made add auto_renew renew transfer redemption restore
        pending_delete answer lock }
{
    Some(Days {
        add: add?,
        auto_renew: auto_renew?,
        renew: renew?,
        transfer: transfer?,
        redemption: redemption?,
        restore: restore?,
        pending_delete: pending_delete?,
        answer: answer?,
        lock: lock?,
    })
}

/// The days of a row of `days`, if each column is a count.
pub(crate) fn dated_days_of(row: &DayRow) -> Option<Days>
    ensures { result ≡ spec.dated_days_in row.now }
{
    days_made(
        count_of_column(row.days_add),
        count_of_column(row.days_auto_renew),
        count_of_column(row.days_renew),
        count_of_column(row.days_transfer),
        count_of_column(row.days_redemption),
        count_of_column(row.days_restore),
        count_of_column(row.days_pending_delete),
        count_of_column(row.days_answer),
        count_of_column(row.days_lock),
    )
}

/// The days of the row of `meta`, which has the same columns.
pub(crate) fn days_of(row: &MetaRow) -> Option<Days>
    ensures { result ≡ spec.first_days_in row.now }
{
    dated_days_of(&DayRow {
        id: row.id,
        starts: row.clock,
        days_add: row.days_add,
        days_auto_renew: row.days_auto_renew,
        days_renew: row.days_renew,
        days_transfer: row.days_transfer,
        days_redemption: row.days_redemption,
        days_restore: row.days_restore,
        days_pending_delete: row.days_pending_delete,
        days_answer: row.days_answer,
        days_lock: row.days_lock,
    })
}

fn prices_made(create: Option<u32>, renew: Option<u32>, transfer: Option<u32>) -> Option<Prices>
    ensures { result ≡ spec.prices_made create renew transfer }
{
    Some(Prices {
        create: create?,
        renew: renew?,
        transfer: transfer?,
    })
}

/// The prices of a row, if each column is a count.
pub(crate) fn prices_of(row: &MetaRow) -> Option<Prices>
    ensures { result ≡ spec.prices_in row.now }
{
    prices_made(
        count_of_column(row.price_create),
        count_of_column(row.price_renew),
        count_of_column(row.price_transfer),
    )
}
