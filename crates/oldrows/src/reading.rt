//! A database with the tables of the schema before this one.
ghost use Rattle.std.specs.Prelude.{◌≡◌, ◌≢◌, true, false, List, IfErr, IfOk, OnOk};
ghost use Rattle.oldrows.specs.inner.Adoption.{is_first};
ghost use Rattle.sqltables.specs.inner.FirstTables.{first_registry};

use basis::list::Seq;
use http_server::Log;
use sqlite::{Alter, Connection, Error};
use sqlite_schema::schema::Schema;
use sqlrows::{Record, begin, is_schema};
use sqltables::{MetaRow, create_first, fault_of, read_all, reread};
use states::{BookFault, Ready};
use std::alloc::Global;
use std::marker::Model;

/// The number of the schema before this one, which the row of `meta` keeps.
const NUMBER: i64 = 1;

const METAS: &str =
    "SELECT id, version, clock, zone, reserved, days_add, days_auto_renew, days_renew, days_transfer, days_redemption, days_restore, days_pending_delete, days_answer, days_lock, price_create, price_renew, price_transfer FROM meta ORDER BY id";

/// The rows of a database of the schema before this one. Nothing is written to it.
#[derive(Drop)]
pub struct OldRows<S: Alter> {
    conn: Connection<S>,
    alloc: Global,
    /// Whether its tables are those.
    is_there: bool,
    /// The database that a crash may leave, as what it was when it was seen. Only proofs read it.
    seen: Log<Connection<S>, bool>,
}

impl<S: Alter> Model for OldRows<S> {
    ghost use Rattle.sqlite.specs.Held.{state};
    ghost use Rattle.oldrows.specs.inner.Stored.{FitsOld, GuardsOld, old_leaves, as_found};
    ghost use Rattle.oldrows.specs.Stored.{OldState};

    ghost Value = { OldState };

    ghost view = { λ r. as_found r.is_there (state S.Store r.conn) (old_leaves (state S.Store) r.seen.items) };

    ghost invariant = { λ r. FitsOld r.is_there (state S.Store r.conn)
        × GuardsOld (state S.Store r.conn) (old_leaves (state S.Store) r.seen.items) };
}

/// The schema that the texts make, read off a database in memory.
fn first_schema(alloc: Global) -> Result<Schema, Error>
    ensures { IfOk result (λ schema. schema ≡ first_registry) }
{
    let mut conn = Connection::open_in_memory(alloc)?;
    begin(&mut conn)?;
    create_first(&mut conn)?;
    Ok(conn.schema().copy(alloc)?)
}

/// Whether a schema is that.
fn has_first_tables(schema: &Schema, alloc: Global) -> Result<bool, Error>
    ensures same { IfOk result (λ said. said ≡ true → schema.now ≡ first_registry) }
    ensures other { IfOk result (λ said. said ≡ false → schema.now ≢ first_registry) }
{
    let first = first_schema(alloc)?;
    Ok(is_schema(schema, &first))
}

/// Whether the rows of `meta` are one, with the number of the schema.
fn is_first(metas: &[MetaRow]) -> bool
    ensures { result ≡ is_first metas.now }
{
    match metas {
        [meta] => meta.version == NUMBER,
        _ => false,
    }
}

impl<S: Alter> OldRows<S> {
    ghost use Rattle.sqlite.specs.Given.{IsPlain};
    ghost use Rattle.sqlite.specs.Held.{state};
    ghost use Rattle.sqlite.specs.Listing.{understood};
    ghost use Rattle.sqlite.specs.State.{HasCleanDisk};
    ghost use Rattle.sqltables.specs.Content.{Content};
    ghost use Rattle.oldrows.specs.Stored.{Answers, IsRead};
    ghost use Rattle.oldrows.specs.inner.Stored.{Asks, CoversOld, FindsOld, IsOldContent};

    /// The records that the rows of a query show.
    pub(crate) fn select<R: Record>(&mut self, sql: &str) -> Result<Seq<R>, BookFault>
        requires { IsPlain (understood first_registry sql.now) }
        ensures { (f : Content → List R) → Asks R.shown sql.now f
            → FindsOld result (f self.old.content) self.old self.new }
    {
        self.look(sql)?;
        self.ask(sql)
    }

    /// Does nothing but learn whether the database still answers.
    fn look(&mut self, sql: &str) -> Result<(), BookFault>
        ensures same { IsRead self.old self.new }
        ensures answers { OnOk result (Answers self.new) }
    {
        match self.conn.prepare(sql) {
            Ok(_) => Ok(()),
            Err(error) => Err(fault_of(&error)),
        }
    }

    /// The records that the rows of a query show, where the database still answers.
    fn ask<R: Record>(&mut self, sql: &str) -> Result<Seq<R>, BookFault>
        requires plain { IsPlain (understood first_registry sql.now) }
        requires answers { Answers self.old }
        ensures { (f : Content → List R) → Asks R.shown sql.now f
            → FindsOld result (f self.old.content) self.old self.new }
    {
        if !self.is_there {
            return Err(BookFault::Store);
        }
        let rows = match self.conn.query_all(sql, &[]) {
            Ok(rows) => rows,
            Err(error) => return Err(fault_of(&error)),
        };
        read_all(self.alloc, &rows)
    }

    /// The rows of `meta`.
    pub fn metas(&mut self) -> Result<Seq<MetaRow>, BookFault>
        ensures { FindsOld result self.old.content.metas self.old self.new }
    {
        self.select(METAS)
    }

    /// Where memory is taken from.
    pub fn alloc(&self) -> Global {
        self.alloc
    }

    /// Does nothing. It tells a proof what always holds of the rows.
    pub fn show_consistent(&self)
        ensures { self.now.is_clean ≡ true → IsOldContent self.now.content }
    {
        let _alloc = self.alloc;
    }

    /// Whether the tables are there.
    pub fn ready(&self) -> Ready
        ensures { result ≡ self.now.readiness }
    {
        if self.is_there {
            Ready::Used
        } else {
            Ready::Other
        }
    }

    /// Gives the connection back, as it is. Whatever a crash may leave of its database is one of what was
    /// told.
    pub fn into_connection(self) -> Connection<S>
        ensures honest { (state S.Store result).is_clean ≡ self.is_honest }
        ensures covers { HasCleanDisk (state S.Store result)
            → CoversOld self.crash_leaves (state S.Store result).may_leave }
    {
        self.conn
    }
}

impl<S: Alter + Drop> OldRows<S> {
    ghost use Rattle.sqlite.specs.Held.{state};
    ghost use Rattle.sqlite.specs.State.{HasCleanDisk};
    ghost use Rattle.sqlite_trees.specs.Tree.{Trees};
    ghost use Rattle.sqlite_trees.specs.View.{IsClean};
    ghost use Rattle.std.specs.Prelude.{IsTrue};
    ghost use Rattle.sqltables.specs.Adoption.{IsFound};
    ghost use Rattle.oldrows.specs.inner.Stored.{LeavesAlone};
    ghost use Rattle.oldrows.specs.inner.Adoption.{IsOldAdopted, IsSeen};

    /// The rows of a database that was read anew, by its tables alone.
    fn over(conn: Connection<S>, alloc: Global) -> Result<OldRows<S>, (BookFault, S)>
        requires { IsFound (state S.Store conn) }
        ensures seen { (trees : Trees) → (HasCleanDisk (state S.Store conn)
            → (state S.Store conn).now.trees ≡ trees) → IfOk result (IsSeen trees) }
        ensures left { (trees : Trees) → (HasCleanDisk (state S.Store conn)
            → (state S.Store conn).now.trees ≡ trees) → IfErr result (λ e. IsClean (S.Store.view e.1)
            → LeavesAlone trees (S.Store.recovers e.1)) }
    {
        let is_there = match has_first_tables(conn.schema(), alloc) {
            Ok(said) => said,
            Err(error) => return Err((fault_of(&error), conn.into_store())),
        };
        let seen = Log::new().and(&conn, &is_there);
        Ok(OldRows {
            conn,
            alloc,
            is_there,
            seen,
        })
    }

    /// The same rows, if their row of `meta` has the number.
    fn numbered(old: OldRows<S>) -> Result<OldRows<S>, (BookFault, S)>
        ensures adopted { (trees : Trees) → IsSeen trees old → IfOk result (IsOldAdopted trees) }
        ensures left { (trees : Trees) → IsSeen trees old → IfErr result (λ e. IsClean (S.Store.view e.1)
            → LeavesAlone trees (S.Store.recovers e.1)) }
    {
        if !old.is_there {
            return Ok(old);
        }
        let mut old = old;
        let metas = match old.metas() {
            Ok(metas) => metas,
            Err(fault) => return Err((fault, old.into_connection().into_store())),
        };
        if !is_first(metas.as_slice()) {
            old.is_there = false;
        }
        Ok(old)
    }

    /// The rows of a database of the schema before this one. It is read and checked anew, whole. After a
    /// fault the database is given back, with what was committed as it was.
    pub fn adopt(conn: Connection<S>, alloc: Global) -> Result<OldRows<S>, (BookFault, S)>
        ensures adopted { IfOk result (IsOldAdopted (state S.Store conn).committed.trees) }
        ensures left { IfErr result (λ e. IsClean (S.Store.view e.1) → IsTrue (state S.Store conn).is_open
            → LeavesAlone (state S.Store conn).committed.trees (S.Store.recovers e.1)) }
    {
        let conn = match reread(conn, alloc) {
            Ok(conn) => conn,
            Err((fault, store)) => return Err((fault, store)),
        };
        let old = OldRows::over(conn, alloc)?;
        OldRows::numbered(old)
    }
}
