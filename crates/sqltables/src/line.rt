//! Lines of accounts.
ghost use Rattle.std.specs.Prelude.{◌≡◌, true, filter, IfOk};
ghost use Rattle.sqltables.specs.inner.Calls.{bound, delete_where, insert_by, lines_to, Finds, Makes, appended};
ghost use Rattle.sqltables.specs.Line.{LineRow, lines, line_with_account, line_with_id, line_of_object, line_shown};

use crate::store::RowStore;
use basis::list::Seq;
use sqlite::types::{ToSql, ValueRef};
use sqlite::{Alter, Error, Row, params};
use sqlrows::{Number, Record, maybe_number};
use states::BookFault;

/// The tree of the table `line`.
const TREE: u64 = 11;

const BY_ACCOUNT: &str =
    "SELECT id, account, kind, creator, serial, years, cents, started, ends, refunded, recorded FROM line WHERE account = ?1 ORDER BY id";

const BY_OBJECT: &str =
    "SELECT id, account, kind, creator, serial, years, cents, started, ends, refunded, recorded FROM line WHERE account = ?1 AND creator = ?2 AND serial = ?3 ORDER BY id";

const PUT: &str =
    "INSERT INTO line (id, account, kind, creator, serial, years, cents, started, ends, refunded, recorded) VALUES (?1, ?2, ?3, ?4, ?5, ?6, ?7, ?8, ?9, ?10, ?11) ON CONFLICT (id) DO UPDATE SET account = excluded.account, kind = excluded.kind, creator = excluded.creator, serial = excluded.serial, years = excluded.years, cents = excluded.cents, started = excluded.started, ends = excluded.ends, refunded = excluded.refunded, recorded = excluded.recorded";

const APPEND: &str =
    "INSERT INTO line (account, kind, creator, serial, years, cents, started, ends, refunded, recorded) VALUES (?1, ?2, ?3, ?4, ?5, ?6, ?7, ?8, ?9, ?10)";

const REMOVE_ID: &str = "DELETE FROM line WHERE id = ?1";

/// The columns of a line's grace: when it began, and when it ends.
#[derive(Drop)]
pub struct GraceRow {
    pub started: Option<i64>,
    pub ends: Option<i64>,
}

/// The columns of a grace in a line's row.
fn grace_of(row: &Row) -> Result<GraceRow, Error>
    ensures { (x : LineRow) → row.now ≡ line_shown x → IfOk result (λ r. r ≡ x.grace) }
{
    by_columns!(GraceRow of row: maybe_number started 7, maybe_number ends 8)
}

/// A row of the table `line`.
#[derive(Drop)]
pub struct LineRow {
    pub id: i64,
    pub account: i64,
    pub kind: i64,
    pub creator: Option<i64>,
    pub serial: Option<i64>,
    pub years: i64,
    pub cents: i64,
    pub refunded: Option<i64>,
    pub recorded: i64,
    pub grace: GraceRow,
}

impl LineRow {
    /// Its columns as parameters, its number first.
    fn params(&self) -> [ValueRef<'_>; 11]
        ensures { bound result ≡ line_shown self.now }
    {
        parameters!(
            self: number id, number account, number kind, maybe_number creator, maybe_number serial,
            number years, number cents, maybe_number grace.started, maybe_number grace.ends,
            maybe_number refunded, number recorded
        )
    }
}

impl Record for LineRow {
    ghost shown = { line_shown };

    fn from_row(row: &Row) -> Result<LineRow, Error> {
        Ok(LineRow {
            id: row.get(0)?,
            account: row.get(1)?,
            kind: row.get(2)?,
            creator: row.get(3)?,
            serial: row.get(4)?,
            years: row.get(5)?,
            cents: row.get(6)?,
            refunded: row.get(9)?,
            recorded: row.get(10)?,
            grace: grace_of(row)?,
        })
    }
}

impl<S: Alter> RowStore<S> {
    /// Those whose `account` is this.
    pub fn lines_by_account(&mut self, account: Number) -> Result<Seq<LineRow>, BookFault>
        ensures { Finds result (filter (line_with_account account) self.old.content.lines) self.old
            self.new }
    {
        self.select(TREE, BY_ACCOUNT, params![account])
    }

    /// Those of this account for the object that this registrar created with this number.
    pub fn lines_by_object(
        &mut self,
        account: Number,
        creator: Number,
        serial: Number,
    ) -> Result<Seq<LineRow>, BookFault>
        ensures { Finds result (filter (line_of_object account creator serial)
            self.old.content.lines) self.old self.new }
    {
        self.select(TREE, BY_OBJECT, params![account, creator, serial])
    }

    /// Puts a row in the place of the one with its number, or after all others.
    pub fn put_line(&mut self, line: &LineRow) -> Result<(), BookFault>
        requires { self.old.is_open ≡ true }
        ensures { Makes result (lines_to (λ xs. insert_by lines.key xs line.now) self.old.content)
            self.old self.new }
    {
        self.write(TREE, PUT, &line.params())
    }

    /// Adds a row at the end, with the number after the last one. The given row's number isn't looked at.
    pub fn append_line(&mut self, line: &LineRow) -> Result<(), BookFault>
        requires { self.old.is_open ≡ true }
        ensures { Makes result (lines_to (appended lines (λ id. record line.now { id = id }))
            self.old.content) self.old self.new }
    {
        self.write(TREE, APPEND, &line.params()[1..])
    }

    /// Removes those whose `id` is this.
    pub fn remove_lines_by_id(&mut self, id: Number) -> Result<(), BookFault>
        requires { self.old.is_open ≡ true }
        ensures { Makes result (lines_to (delete_where (line_with_id id)) self.old.content) self.old
            self.new }
    {
        self.write(TREE, REMOVE_ID, params![id])
    }
}
