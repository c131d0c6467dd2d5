//! Lengths of periods that are in force from a moment on.
ghost use Rattle.std.specs.Prelude.{◌≡◌, true};
ghost use Rattle.sqltables.specs.inner.Calls.{bound, days_to, Finds, Makes, appended};
ghost use Rattle.sqltables.specs.Day.{days, day_shown};

use crate::store::RowStore;
use basis::list::Seq;
use sqlite::types::{ToSql, ValueRef};
use sqlite::{Alter, Error, Row};
use sqlrows::Record;
use states::BookFault;

/// The tree of the table `days`.
pub(crate) const TREE: u64 = 34;

const ALL: &str =
    "SELECT id, starts, days_add, days_auto_renew, days_renew, days_transfer, days_redemption, days_restore, days_pending_delete, days_answer, days_lock FROM days ORDER BY id";

const APPEND: &str =
    "INSERT INTO days (starts, days_add, days_auto_renew, days_renew, days_transfer, days_redemption, days_restore, days_pending_delete, days_answer, days_lock) VALUES (?1, ?2, ?3, ?4, ?5, ?6, ?7, ?8, ?9, ?10)";

/// A row of the table `days`.
#[derive(Drop)]
pub struct DayRow {
    pub id: i64,
    pub starts: i64,
    pub days_add: i64,
    pub days_auto_renew: i64,
    pub days_renew: i64,
    pub days_transfer: i64,
    pub days_redemption: i64,
    pub days_restore: i64,
    pub days_pending_delete: i64,
    pub days_answer: i64,
    pub days_lock: i64,
}

impl DayRow {
    /// Its columns as parameters, its number first.
    fn params(&self) -> [ValueRef<'_>; 11]
        ensures { bound result ≡ day_shown self.now }
    {
        parameters!(
            self: number id, number starts, number days_add, number days_auto_renew,
            number days_renew, number days_transfer, number days_redemption, number days_restore,
            number days_pending_delete, number days_answer, number days_lock
        )
    }
}

impl Record for DayRow {
    ghost shown = { day_shown };

    fn from_row(row: &Row) -> Result<DayRow, Error> {
        by_columns!(
            DayRow of row: number id 0, number starts 1, number days_add 2,
            number days_auto_renew 3, number days_renew 4, number days_transfer 5,
            number days_redemption 6, number days_restore 7, number days_pending_delete 8,
            number days_answer 9, number days_lock 10
        )
    }
}

impl<S: Alter> RowStore<S> {
    /// All of them, by their numbers.
    pub fn all_days(&mut self) -> Result<Seq<DayRow>, BookFault>
        ensures { Finds result self.old.content.days self.old self.new }
    {
        self.select(TREE, ALL, &[])
    }

    /// Adds a row at the end, with the number after the last one. The given row's number isn't looked at.
    pub fn append_day(&mut self, day: &DayRow) -> Result<(), BookFault>
        requires { self.old.is_open ≡ true }
        ensures { Makes result (days_to (appended days (λ id. record day.now { id = id }))
            self.old.content) self.old self.new }
    {
        self.write(TREE, APPEND, &day.params()[1..])
    }
}
