//! The eleven tables in a database as rows, with transactions: each call is its statement.
ghost use Rattle.std.specs.Prelude.{◌≡◌, ◌≢◌, ℤ, false, true, ⊤, List, [], ◌∷◌, map, IfErr, IfOk, IfSome, OnOk};

use crate::adoption::{Unadopted, by_fault, reread};
use crate::answers::Answers;
use crate::form::Form;
use crate::readiness::{form_of, is_numbered};
use crate::records::{fault_of, read_all};
use crate::schema::create;
use basis::list::Seq;
use http_server::Log;
use sqlite::types::ValueRef;
use sqlite::{Alter, Connection, MemStore};
use sqlrows::{Record, rollback};
use states::{BookFault, Ready};
use std::alloc::Global;
use std::marker::Model;

/// The eleven tables in a database, as rows. Each call is its statement. What was asked before is known without
/// one: in the same transaction whatever was asked of a table since it was written, and in later ones what was
/// asked of `account`, `meta` and `days`, or put there.
#[derive(Drop)]
pub struct RowStore<S: Alter> {
    conn: Connection<S>,
    alloc: Global,
    form: Form,
    /// Whether a transaction is open. After going back was itself refused the connection may think otherwise.
    begun: bool,
    /// What was answered about each table since it was written last.
    answers: Answers,
    /// The databases that a crash may leave, as what they were when they were seen. Only proofs read it.
    left: Log<Connection<S>, Form>,
}

impl<S: Alter> Model for RowStore<S> {
    ghost use Rattle.sqlite.specs.Held.{state};
    ghost use Rattle.sqltables.specs.inner.Answers.{Recalls};
    ghost use Rattle.sqltables.specs.Content.{Content};
    ghost use Rattle.states.specs.States.{StateOf};
    ghost use Rattle.sqltables.specs.inner.Stored.{Fits, Guards, leaves_of, store_state};

    ghost Value = { StateOf Content };

    ghost view = { λ r. store_state r.form r.begun (state S.Store r.conn) (leaves_of (state S.Store) r.left.items) };

    ghost invariant = { λ r. Fits r.form r.begun (state S.Store r.conn) × Guards r.begun (state S.Store r.conn) (leaves_of (state S.Store) r.left.items) × Recalls (state S.Store r.conn) r.answers };
}

impl<S: Alter> RowStore<S> {
    ghost use Rattle.sqlite.specs.Given.{IsPlain};
    ghost use Rattle.sqlite.specs.Held.{state};
    ghost use Rattle.sqlite.specs.Listing.{understood};
    ghost use Rattle.sqlite.specs.State.{HasCleanDisk};
    ghost use Rattle.sqlite.specs.Values.{bound};
    ghost use Rattle.sqlite_trees.specs.Tree.{Trees};
    ghost use Rattle.sqlite_value.specs.Value.{owned};
    ghost use Rattle.sqltables.specs.Content.{Content};
    ghost use Rattle.states.specs.States.{Begins, Closes, Ends, Finds, IsIdle, Makes, FindsSome, Notes};
    ghost use Rattle.sqltables.specs.inner.Answers.{IsAnsweredByRows, IsQueryOf};
    ghost use Rattle.sqltables.specs.inner.Content.{IsContent};
    ghost use Rattle.sqltables.specs.inner.Statements.{Alters, Appends, Asks};
    ghost use Rattle.sqltables.specs.Stored.{Covers, fresh};
    ghost use Rattle.sqltables.specs.Tables.{registry};
    ghost use Rattle.sqltables.specs.inner.Consistent.{IsConsistent};

    /// The records that the rows of a query of the table in this tree show.
    pub(crate) fn select<R: Record>(
        &mut self,
        tree: u64,
        sql: &str,
        params: &[ValueRef<'_>],
    ) -> Result<Seq<R>, BookFault>
        requires { (f : Content → List R) × Asks tree R.shown sql.now (bound params.now) f }
        ensures { (f : Content → List R) → Asks tree R.shown sql.now (bound params.now) f
            → Finds result (f self.old.content) self.old self.new }
    {
        self.look(sql)?;
        self.ask(tree, sql, params)
    }

    /// Does nothing but learn whether the database still answers, where no transaction shows it.
    fn look(&mut self, sql: &str) -> Result<(), BookFault>
        ensures same { FindsSome result (λ done. ⊤) self.old self.new }
        ensures answers { self.new.is_honest ≡ true → OnOk result (self.new.is_clean ≡ true) }
    {
        if self.begun {
            return Ok(());
        }
        match self.conn.prepare(sql) {
            Ok(_) => Ok(()),
            Err(error) => {
                self.answers.forget();
                return Err(fault_of(&error));
            }
        }
    }

    /// The records that the rows of a query of the table in this tree show, where the database still answers.
    /// What was asked since the table was written isn't asked again.
    fn ask<R: Record>(
        &mut self,
        tree: u64,
        sql: &str,
        params: &[ValueRef<'_>],
    ) -> Result<Seq<R>, BookFault>
        requires plain { IsPlain (understood registry sql.now) }
        requires reads { IsQueryOf tree sql.now }
        requires answers { self.old.is_honest ≡ true → self.old.is_clean ≡ true }
        ensures { (f : Content → List R) → Asks tree R.shown sql.now (bound params.now) f
            → Finds result (f self.old.content) self.old self.new }
    {
        if let Some(found) = self.known(tree, sql, params) {
            return found;
        }
        if !self.form.has_rows() {
            return Err(BookFault::Store);
        }
        match self.conn.query_all(sql, params) {
            Ok(rows) => {
                let found = read_all(self.alloc, &rows);
                self.answers.keep(tree, sql, params, rows);
                found
            }
            Err(error) => {
                self.answers.forget();
                if self.conn.is_autocommit() {
                    self.form = self.form.undone();
                    self.begun = false;
                }
                Err(fault_of(&error))
            }
        }
    }

    /// The records that the same question was answered with, where that is kept.
    pub(crate) fn known<R: Record>(
        &self,
        tree: u64,
        sql: &str,
        params: &[ValueRef<'_>],
    ) -> Option<Result<Seq<R>, BookFault>>
        ensures { (f : Content → List R) → Asks tree R.shown sql.now (bound params.now) f
            → IfSome result (λ found. Finds found (f self.now.content) self.now self.now) }
    {
        if !self.form.has_rows() {
            return None;
        }
        self.answers.find(sql, params)
    }

    /// Keeps the answer to a question of the table in this tree: it is the row with these values. If memory
    /// lacks, none is kept.
    pub(crate) fn know(
        &mut self,
        tree: u64,
        sql: &str,
        params: &[ValueRef<'_>],
        row: &[ValueRef<'_>],
    )
        requires reads { IsQueryOf tree sql.now }
        requires right { self.old.is_clean ≡ true → (db : Trees)
            → IsContent self.old.content (record { schema = registry; trees = db })
            → IsAnsweredByRows db sql.now (bound params.now) (map owned row.now ∷ []) }
        ensures { self.new ≡ self.old }
    {
        if self.form.has_rows() {
            self.answers.keep_row(tree, sql, params, row);
        }
    }

    /// Runs a statement that writes rows of the table in this tree, in the open transaction. What was answered
    /// about other tables is kept.
    pub(crate) fn write(
        &mut self,
        tree: u64,
        sql: &str,
        params: &[ValueRef<'_>],
    ) -> Result<(), BookFault>
        requires means { (f : Content → Content) × Alters tree sql.now (bound params.now) f }
        requires begun { self.old.is_open ≡ true }
        ensures { (f : Content → Content) → Alters tree sql.now (bound params.now) f
            → Makes result (f self.old.content) self.old self.new }
    {
        self.run(tree, sql, params)?;
        Ok(())
    }

    /// The same, and the number of the row that was added last.
    pub(crate) fn run(
        &mut self,
        tree: u64,
        sql: &str,
        params: &[ValueRef<'_>],
    ) -> Result<i64, BookFault>
        requires means { (f : Content → Content) × Alters tree sql.now (bound params.now) f }
        requires begun { self.old.is_open ≡ true }
        ensures made { (f : Content → Content) → Alters tree sql.now (bound params.now) f
            → Makes result (f self.old.content) self.old self.new }
        ensures numbered { (f : Content → Content) (number : Content → ℤ)
            → Appends tree sql.now (bound params.now) f number
            → IfOk result (λ id. self.new.is_clean ≡ true → id ≡ number self.old.content) }
    {
        if !self.form.has_rows() {
            return Err(BookFault::Store);
        }
        match self.conn.execute(sql, params) {
            Ok(_) => {
                self.answers.forget_of(tree);
                Ok(self.conn.last_insert_rowid())
            }
            Err(error) => {
                self.answers.forget();
                if self.conn.is_autocommit() {
                    self.form = self.form.undone();
                    self.begun = false;
                }
                Err(fault_of(&error))
            }
        }
    }

    /// Opens a transaction over what is there.
    fn begin_as_is(&mut self) -> Result<(), BookFault>
        requires { self.old.is_open ≡ false }
        ensures { Begins result self.old self.new }
    {
        self.answers.forget_passing();
        match self.conn.execute("BEGIN", &[]) {
            Ok(_) => {
                self.begun = true;
                Ok(())
            }
            Err(error) => {
                self.answers.forget();
                Err(fault_of(&error))
            }
        }
    }

    /// Makes the tables in the open transaction, where nothing was made before.
    fn make(&mut self) -> Result<(), BookFault>
        requires { self.old.is_open ≡ true }
        ensures { Makes result self.old.content self.old self.new }
    {
        let Form::Unused = self.form else {
            return Ok(());
        };
        self.answers.forget();
        match create(&mut self.conn) {
            Ok(()) => {
                self.form = Form::Making;
                Ok(())
            }
            Err(error) => {
                let _ = rollback(&mut self.conn);
                self.begun = false;
                Err(fault_of(&error))
            }
        }
    }

    /// Opens a transaction. Where nothing was made before, the tables are made in it.
    pub fn begin(&mut self) -> Result<(), BookFault>
        requires { self.old.is_open ≡ false }
        ensures { Begins result self.old self.new }
    {
        if let Form::Other = self.form {
            return Err(BookFault::Store);
        }
        match self.begin_as_is() {
            Ok(()) => self.make(),
            Err(fault) => Err(fault),
        }
    }

    /// Keeps what the transaction did.
    pub fn commit(&mut self) -> Result<(), BookFault>
        requires { self.old.is_open ≡ true }
        ensures ends { Ends result self.old self.new }
        ensures noted { Notes result self.old self.new }
    {
        if !self.form.has_rows() {
            return Err(BookFault::Store);
        }
        self.answers.forget_passing();
        let made = self.form.committed();
        let kept = Log::new().and(&self.conn, &made);
        let tried = self.left.and(&self.conn, &made);
        let _schema = self.conn.schema();
        match self.conn.execute("COMMIT", &[]) {
            Ok(_) => {
                self.form = made;
                self.begun = false;
                self.left = kept;
                Ok(())
            }
            Err(error) => {
                self.answers.forget();
                self.form = self.form.undone();
                self.begun = false;
                self.left = tried;
                Err(fault_of(&error))
            }
        }
    }

    /// Whether a transaction is open.
    pub fn is_open(&self) -> bool
        ensures { result ≡ self.now.is_open }
    {
        self.begun
    }

    /// Whether a book is in it.
    pub fn ready(&mut self) -> Result<Ready, BookFault>
        ensures { Finds result self.old.readiness self.old self.new }
    {
        Ok(self.form.readiness())
    }

    /// Whether nothing was ever made in it.
    pub fn is_unused(&self) -> bool
        ensures { result ≡ true → self.now.content ≡ fresh }
    {
        matches!(self.form, Form::Unused)
    }

    /// Does nothing. It tells a proof what always holds of the rows.
    pub fn show_consistent(&self)
        ensures { self.now.is_clean ≡ true → IsConsistent self.now.content }
    {
        let _schema = self.conn.schema();
    }

    /// Does nothing. It tells a proof that where no transaction is open going back leads nowhere else.
    pub fn show_rest(&self)
        ensures { IsIdle self.now }
    {
        let _begun = self.begun;
    }

    /// Does nothing. It tells a proof that what answers told nothing wrong.
    pub fn show_honest(&self)
        ensures { self.now.is_clean ≡ true → self.now.is_honest ≡ true }
    {
        let _begun = self.begun;
    }

    /// Gives the connection back, as it is. Whatever a crash may leave of its database is one of what was
    /// told.
    pub fn into_connection(self) -> Connection<S>
        ensures honest { (state S.Store result).is_clean ≡ self.is_honest }
        ensures covers { HasCleanDisk (state S.Store result)
            → Covers self.crash_leaves (state S.Store result).may_leave }
    {
        self.conn
    }

    /// Goes back to where the transaction began, if one is open.
    pub fn back(&mut self)
        ensures { Closes self.old.before self.old self.new }
    {
        self.answers.forget();
        let _ = rollback(&mut self.conn);
        self.form = self.form.undone();
        self.begun = false;
    }
}

impl<S: Alter + Drop> RowStore<S> {
    ghost use Rattle.sqlite.specs.Held.{state};
    ghost use Rattle.sqlite.specs.State.{HasCleanDisk};
    ghost use Rattle.sqlite_trees.specs.Tree.{Trees};
    ghost use Rattle.sqlite_trees.specs.View.{IsClean};
    ghost use Rattle.sqltables.specs.Adoption.{IsAdopted, IsFound, LeavesAsFound, LeavesAsItWas};
    ghost use Rattle.sqltables.specs.inner.Adoption.{IsShown, LeavesNoMore, LeavesSameRegistry};
    ghost use Rattle.sqltables.specs.Readiness.{IsKnownAs};
    ghost use Rattle.sqltables.specs.Stored.{Covers};

    /// Gives back what the connection is over. A transaction that is open is undone.
    fn into_store(self) -> S
        ensures { IsClean (S.Store.view result) → (self.is_honest ≡ true)
            × Covers self.crash_leaves (S.Store.recovers result) }
    {
        self.into_connection().into_store()
    }

    /// A store of the rows of a database that was read anew, by its tables alone.
    fn over(conn: Connection<S>, alloc: Global) -> Result<RowStore<S>, (Unadopted, S)>
        requires { IsFound (state S.Store conn) }
        ensures shown { (trees : Trees) → (HasCleanDisk (state S.Store conn)
            → (state S.Store conn).now.trees ≡ trees) → IfOk result (IsShown trees) }
        ensures ours { IfOk result (λ store. store.readiness ≢ Ready.Other) }
        ensures honest { IfOk result (λ store. store.is_honest ≡ (state S.Store conn).is_clean) }
        ensures clean { IfErr result (λ e. IsClean (S.Store.view e.1)
            → HasCleanDisk (state S.Store conn)) }
        ensures refused { IfErr result (λ e. LeavesNoMore (state S.Store conn)
            (S.Store.recovers e.1)) }
        ensures others { IfErr result (λ e. e.0 ≡ Unadopted.Other
            → HasCleanDisk (state S.Store conn)
            → IsKnownAs Ready.Other (state S.Store conn).now.trees) }
    {
        let form = match form_of(&conn, alloc) {
            Ok(form) => form,
            Err(error) => return Err((by_fault(fault_of(&error)), conn.into_store())),
        };
        if let Form::Other = form {
            return Err((Unadopted::Other, conn.into_store()));
        }
        let left = Log::new().and(&conn, &form);
        Ok(RowStore {
            conn,
            alloc,
            form,
            begun: false,
            answers: Answers::none(alloc),
            left,
        })
    }

    /// The same store, unless its row of `meta` has another number than this schema's.
    fn numbered(store: RowStore<S>) -> Result<RowStore<S>, (Unadopted, S)>
        requires shown { (trees : Trees) × IsShown trees store }
        requires ours { store.readiness ≢ Ready.Other }
        ensures adopted { (trees : Trees) → IsShown trees store → IfOk result (IsAdopted trees) }
        ensures ours { IfOk result (λ it. it.readiness ≢ Ready.Other) }
        ensures honest { IfOk result (λ it. it.is_honest ≡ true → store.is_honest ≡ true) }
        ensures clean { IfErr result (λ e. IsClean (S.Store.view e.1) → store.is_honest ≡ true) }
        ensures refused { (trees : Trees) → IsShown trees store
            → IfErr result (λ e. IsClean (S.Store.view e.1)
            → LeavesSameRegistry trees (S.Store.recovers e.1)) }
        ensures others { (trees : Trees) → IsShown trees store
            → IfErr result (λ e. e.0 ≡ Unadopted.Other → IsClean (S.Store.view e.1)
            → IsKnownAs Ready.Other trees) }
    {
        let Form::Made = store.form else {
            return Ok(store);
        };
        let mut store = store;
        let metas = match store.all_metas() {
            Ok(metas) => metas,
            Err(fault) => return Err((by_fault(fault), store.into_store())),
        };
        if !is_numbered(metas.as_slice()) {
            return Err((Unadopted::Other, store.into_store()));
        }
        let Form::Made = store.form else {
            return Err((Unadopted::Store, store.into_store()));
        };
        Ok(store)
    }

    /// A store of the rows of a database that was just opened, of which the proof knows that its rows lie
    /// in the order of their numbers. What isn't taken up is given back as it was found.
    pub fn taken(conn: Connection<S>, alloc: Global) -> Result<RowStore<S>, (Unadopted, S)>
        requires { IsFound (state S.Store conn) }
        ensures adopted { IfOk result (IsAdopted (state S.Store conn).committed.trees) }
        ensures ours { IfOk result (λ store. store.readiness ≢ Ready.Other) }
        ensures honest { IfOk result (λ store. store.is_honest ≡ true
            → HasCleanDisk (state S.Store conn)) }
        ensures clean { IfErr result (λ e. IsClean (S.Store.view e.1)
            → HasCleanDisk (state S.Store conn)) }
        ensures refused { IfErr result (λ e. IsClean (S.Store.view e.1)
            → LeavesAsFound (state S.Store conn).committed.trees (S.Store.recovers e.1)) }
        ensures others { IfErr result (λ e. e.0 ≡ Unadopted.Other → IsClean (S.Store.view e.1)
            → IsKnownAs Ready.Other (state S.Store conn).committed.trees) }
    {
        let store = RowStore::over(conn, alloc)?;
        RowStore::numbered(store)
    }

    /// A store of the rows of a database that was used before. It is read and checked anew, whole. What
    /// isn't taken up is given back, with what was committed as it was: after a fault, and where it is
    /// something else's.
    pub fn adopt(conn: Connection<S>, alloc: Global) -> Result<RowStore<S>, (Unadopted, S)>
        ensures adopted { IfOk result (IsAdopted (state S.Store conn).committed.trees) }
        ensures ours { IfOk result (λ store. store.readiness ≢ Ready.Other) }
        ensures honest { IfOk result (λ store. store.is_honest ≡ true
            → HasCleanDisk (state S.Store conn)) }
        ensures refused { IfErr result (λ e. IsClean (S.Store.view e.1)
            → LeavesAsItWas (state S.Store conn) (S.Store.recovers e.1)) }
        ensures others { IfErr result (λ e. e.0 ≡ Unadopted.Other → IsClean (S.Store.view e.1)
            → IsKnownAs Ready.Other (state S.Store conn).committed.trees) }
    {
        match reread(conn, alloc) {
            Ok(conn) => RowStore::taken(conn, alloc),
            Err((fault, store)) => Err((by_fault(fault), store)),
        }
    }
}

impl RowStore<MemStore> {
    ghost use Rattle.sqltables.specs.inner.Stored.{IsNew};

    /// A store in memory, in which nothing was made.
    pub fn in_memory(alloc: Global) -> Result<RowStore<MemStore>, BookFault>
        ensures { IfOk result IsNew }
    {
        let conn = Connection::open_in_memory(alloc)?;
        let left = Log::new().and(&conn, &Form::Unused);
        Ok(RowStore {
            conn,
            alloc,
            form: Form::Unused,
            begun: false,
            answers: Answers::none(alloc),
            left,
        })
    }

    /// Does nothing. It tells a proof that nothing wrong is ever taken from memory.
    pub fn show_clean(&self)
        ensures { self.now.is_clean ≡ true }
    {
        let _begun = self.begun;
    }
}
