//! Rows of the tables in which each row has a name, and no name comes twice: found by name, and put under
//! the number that a row of the name has, or else added.
ghost use Rattle.std.specs.Prelude.{◌≡◌, true, Some, None};
ghost use Rattle.states.specs.States.{FindsSome};
ghost use Rattle.sqlrows.specs.Read.{rows_of};
ghost use Rattle.sqlobjects.specs.inner.Stages.{ChangesGiving, IsPlacedAt, rows_named};

use basis::list::Seq;
use basis::text::Text;
use sqlite::Alter;
use sqlrows::only;
use sqltables::{ContactRow, DomainRow, HostRow, RowStore};
use states::BookFault;

/// A row of such a table.
pub trait NamedRow: Sized + Drop {
    ghost use Rattle.std.specs.Prelude.{◌≡◌, true, IfOk};
    ghost use Rattle.sqlite_keyed.specs.Keyed.{next_key};
    ghost use Rattle.states.specs.States.{Finds, Makes};
    ghost use Rattle.sqlobjects.specs.inner.Stages.{NamedTable, rows_named, with_last, with_replaced};

    /// Its table.
    ghost table: { NamedTable Self };

    fn name(&self) -> &str
        ensures { result.now ≡ table.name self.now };

    fn id(&self) -> i64
        ensures { result ≡ table.key self.now };

    /// Takes this number.
    fn set_id(&mut self, id: i64)
        ensures { self.new ≡ table.numbered self.old id };

    /// Those of a name.
    fn by_name<S: Alter>(store: &mut RowStore<S>, name: &str) -> Result<Seq<Self>, BookFault>
        ensures { Finds result (rows_named table name.now store.old.content) store.old store.new };

    /// Puts it in the place of the row with its number, if there is one.
    fn replace<S: Alter>(&self, store: &mut RowStore<S>) -> Result<(), BookFault>
        requires { store.old.is_open ≡ true }
        ensures { Makes result (with_replaced table self.now store.old.content) store.old store.new };

    /// Adds it at the end, with the number after the last one, and answers that number.
    fn append<S: Alter>(&self, store: &mut RowStore<S>) -> Result<i64, BookFault>
        requires { store.old.is_open ≡ true }
        ensures made { Makes result (with_last table self.now store.old.content) store.old
            store.new }
        ensures numbered { IfOk result (λ id. store.new.is_clean ≡ true
            → id ≡ next_key table.key (table.rows store.old.content)) };
}

impl NamedRow for ContactRow {
    ghost use Rattle.sqlobjects.specs.inner.Stages.{named_contacts};

    ghost table = { named_contacts };

    fn name(&self) -> &str {
        self.name.as_str()
    }

    fn id(&self) -> i64 {
        self.id
    }

    fn set_id(&mut self, id: i64) {
        self.id = id;
    }

    fn by_name<S: Alter>(
        store: &mut RowStore<S>,
        name: &str,
    ) -> Result<Seq<ContactRow>, BookFault> {
        store.contacts_by_name(name)
    }

    fn replace<S: Alter>(&self, store: &mut RowStore<S>) -> Result<(), BookFault> {
        store.replace_contact(self)
    }

    fn append<S: Alter>(&self, store: &mut RowStore<S>) -> Result<i64, BookFault> {
        store.append_contact(self)
    }
}

impl NamedRow for HostRow {
    ghost use Rattle.sqlobjects.specs.inner.Stages.{named_hosts};

    ghost table = { named_hosts };

    fn name(&self) -> &str {
        self.name.as_str()
    }

    fn id(&self) -> i64 {
        self.id
    }

    fn set_id(&mut self, id: i64) {
        self.id = id;
    }

    fn by_name<S: Alter>(store: &mut RowStore<S>, name: &str) -> Result<Seq<HostRow>, BookFault> {
        store.hosts_by_name(name)
    }

    fn replace<S: Alter>(&self, store: &mut RowStore<S>) -> Result<(), BookFault> {
        store.replace_host(self)
    }

    fn append<S: Alter>(&self, store: &mut RowStore<S>) -> Result<i64, BookFault> {
        store.append_host(self)
    }
}

impl NamedRow for DomainRow {
    ghost use Rattle.sqlobjects.specs.inner.Stages.{named_domains};

    ghost table = { named_domains };

    fn name(&self) -> &str {
        self.name.as_str()
    }

    fn id(&self) -> i64 {
        self.id
    }

    fn set_id(&mut self, id: i64) {
        self.id = id;
    }

    fn by_name<S: Alter>(store: &mut RowStore<S>, name: &str) -> Result<Seq<DomainRow>, BookFault> {
        store.domains_by_name(name)
    }

    fn replace<S: Alter>(&self, store: &mut RowStore<S>) -> Result<(), BookFault> {
        store.replace_domain(self)
    }

    fn append<S: Alter>(&self, store: &mut RowStore<S>) -> Result<i64, BookFault> {
        store.append_domain(self)
    }
}

/// The row of this name, if there is one.
pub fn row_named<R: NamedRow, S: Alter>(
    store: &mut RowStore<S>,
    name: &Text,
) -> Result<Option<R>, BookFault>
    ensures { FindsSome result (λ row. rows_named R.table name.now store.old.content ≡ rows_of row)
        store.old store.new }
{
    let rows = R::by_name(store, name.as_str())?;
    only(rows)
}

/// Puts a row in the place of the one that was found under its name, or else after the others. It is
/// given back under the number that it has there.
pub fn place_row<R: NamedRow, S: Alter>(
    store: &mut RowStore<S>,
    found: Option<R>,
    row: R,
) -> Result<R, BookFault>
    requires { store.old.is_open ≡ true }
    ensures { ChangesGiving result (IsPlacedAt R.table found row) store.old store.new }
{
    match found {
        None => add_row(store, row),
        Some(found) => put_row(store, &found, row),
    }
}

/// Puts a row in the place of this one, under its number.
fn put_row<R: NamedRow, S: Alter>(
    store: &mut RowStore<S>,
    found: &R,
    row: R,
) -> Result<R, BookFault>
    requires { store.old.is_open ≡ true }
    ensures { ChangesGiving result (IsPlacedAt R.table (Some found.now) row) store.old store.new }
{
    let mut row = row;
    row.set_id(found.id());
    row.replace(store)?;
    Ok(row)
}

/// Adds a row, whose name no row has.
fn add_row<R: NamedRow, S: Alter>(store: &mut RowStore<S>, row: R) -> Result<R, BookFault>
    requires { store.old.is_open ≡ true }
    ensures { ChangesGiving result (IsPlacedAt R.table None row) store.old store.new }
{
    let mut row = row;
    let id = row.append(store)?;
    row.set_id(id);
    Ok(row)
}
