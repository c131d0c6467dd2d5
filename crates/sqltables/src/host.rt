//! Hosts.
ghost use Rattle.std.specs.Prelude.{◌≡◌, true, filter, IfOk};
ghost use Rattle.sqltables.specs.inner.Calls.{bound, insert_by, next_key, delete_where, update_where, hosts_to, Finds, Makes, appended};
ghost use Rattle.sqltables.specs.Host.{hosts, host_takes_sponsor, host_with_id, host_with_name, host_with_above, host_shown};

use crate::store::RowStore;
use basis::list::Seq;
use basis::text::Text;
use sqlite::types::{ToSql, ValueRef};
use sqlite::{Alter, Error, Row, params};
use sqlrows::{Number, Record, maybe_number};
use states::BookFault;

/// The tree of the table `host`.
const TREE: u64 = 7;

const ALL: &str =
    "SELECT id, name, creator, serial, above, external_sponsor, sponsor, created, updated, statuses FROM host ORDER BY id";

const BY_ID: &str =
    "SELECT id, name, creator, serial, above, external_sponsor, sponsor, created, updated, statuses FROM host WHERE id = ?1 ORDER BY id";

const BY_NAME: &str =
    "SELECT id, name, creator, serial, above, external_sponsor, sponsor, created, updated, statuses FROM host WHERE name = ?1 ORDER BY id";

const BY_ABOVE: &str =
    "SELECT id, name, creator, serial, above, external_sponsor, sponsor, created, updated, statuses FROM host WHERE above = ?1 ORDER BY id";

const PUT: &str =
    "INSERT INTO host (id, name, creator, serial, above, external_sponsor, sponsor, created, updated, statuses) VALUES (?1, ?2, ?3, ?4, ?5, ?6, ?7, ?8, ?9, ?10) ON CONFLICT (id) DO UPDATE SET name = excluded.name, creator = excluded.creator, serial = excluded.serial, above = excluded.above, external_sponsor = excluded.external_sponsor, sponsor = excluded.sponsor, created = excluded.created, updated = excluded.updated, statuses = excluded.statuses";

const REPLACE: &str =
    "UPDATE host SET name = ?2, creator = ?3, serial = ?4, above = ?5, external_sponsor = ?6, sponsor = ?7, created = ?8, updated = ?9, statuses = ?10 WHERE id = ?1";

const APPEND: &str =
    "INSERT INTO host (name, creator, serial, above, external_sponsor, sponsor, created, updated, statuses) VALUES (?1, ?2, ?3, ?4, ?5, ?6, ?7, ?8, ?9)";

const UPDATE_SPONSOR: &str =
    "UPDATE host SET sponsor = ?2 WHERE above = ?1 AND external_sponsor IS NULL";

const REMOVE_ID: &str = "DELETE FROM host WHERE id = ?1";

/// A row of the table `host`.
#[derive(Drop)]
pub struct HostRow {
    pub id: i64,
    pub name: Text,
    pub creator: i64,
    pub serial: i64,
    /// The last two labels of its name.
    pub above: Text,
    pub external_sponsor: Option<i64>,
    pub sponsor: Option<i64>,
    pub created: i64,
    pub updated: Option<i64>,
    pub statuses: Text,
}

impl HostRow {
    /// Its columns as parameters, its number first.
    fn params(&self) -> [ValueRef<'_>; 10]
        ensures { bound result ≡ host_shown self.now }
    {
        parameters!(
            self: number id, text name, number creator, number serial, text above,
            maybe_number external_sponsor, maybe_number sponsor, number created,
            maybe_number updated, text statuses
        )
    }
}

impl Record for HostRow {
    ghost shown = { host_shown };

    fn from_row(row: &Row) -> Result<HostRow, Error> {
        by_columns!(
            HostRow of row: number id 0, text name 1, number creator 2, number serial 3,
            text above 4, maybe_number external_sponsor 5, maybe_number sponsor 6, number created 7,
            maybe_number updated 8, text statuses 9
        )
    }
}

impl<S: Alter> RowStore<S> {
    /// All of them, by their numbers.
    pub fn all_hosts(&mut self) -> Result<Seq<HostRow>, BookFault>
        ensures { Finds result self.old.content.hosts self.old self.new }
    {
        self.select(TREE, ALL, &[])
    }

    /// Those with this number.
    pub fn hosts_by_id(&mut self, id: Number) -> Result<Seq<HostRow>, BookFault>
        ensures { Finds result (filter (host_with_id id) self.old.content.hosts) self.old self.new }
    {
        self.select(TREE, BY_ID, params![id])
    }

    /// Those whose `name` is this.
    pub fn hosts_by_name(&mut self, name: &str) -> Result<Seq<HostRow>, BookFault>
        ensures { Finds result (filter (host_with_name name.now) self.old.content.hosts) self.old
            self.new }
    {
        self.select(TREE, BY_NAME, params![name])
    }

    /// Those whose `above` is this.
    pub fn hosts_by_above(&mut self, above: &str) -> Result<Seq<HostRow>, BookFault>
        ensures { Finds result (filter (host_with_above above.now) self.old.content.hosts) self.old
            self.new }
    {
        self.select(TREE, BY_ABOVE, params![above])
    }

    /// Puts a row in the place of the one with its number, or after all others.
    pub fn put_host(&mut self, host: &HostRow) -> Result<(), BookFault>
        requires { self.old.is_open ≡ true }
        ensures { Makes result (hosts_to (λ xs. insert_by hosts.key xs host.now) self.old.content)
            self.old self.new }
    {
        self.write(TREE, PUT, &host.params())
    }

    /// Puts a row in the place of the one with its number. If there is none, nothing is changed. An index
    /// whose columns stay is left alone, which an upsert doesn't do.
    pub fn replace_host(&mut self, host: &HostRow) -> Result<(), BookFault>
        requires { self.old.is_open ≡ true }
        ensures { Makes result (hosts_to (update_where (host_with_id host.now.id)
            (λ x. record host.now { id = x.id })) self.old.content) self.old self.new }
    {
        self.write(TREE, REPLACE, &host.params())
    }

    /// Adds a row at the end, with the number after the last one, and answers that number. The given row's
    /// isn't looked at.
    pub fn append_host(&mut self, host: &HostRow) -> Result<i64, BookFault>
        requires { self.old.is_open ≡ true }
        ensures made { Makes result (hosts_to (appended hosts (λ id. record host.now { id = id }))
            self.old.content) self.old self.new }
        ensures numbered { IfOk result (λ id. self.new.is_clean ≡ true
            → id ≡ next_key hosts.key self.old.content.hosts) }
    {
        self.run(TREE, APPEND, &host.params()[1..])
    }

    /// Those whose `above` is this, and that have no `external_sponsor`, have this `sponsor`.
    pub fn update_hosts_sponsor(
        &mut self,
        above: &str,
        sponsor: Option<i64>,
    ) -> Result<(), BookFault>
        requires { self.old.is_open ≡ true }
        ensures { Makes result (hosts_to (update_where (host_takes_sponsor above.now)
            (λ x. record x { sponsor = sponsor })) self.old.content) self.old self.new }
    {
        self.write(
            TREE,
            UPDATE_SPONSOR,
            &[above.to_sql(), maybe_number(sponsor)],
        )
    }

    /// Removes those whose `id` is this.
    pub fn remove_hosts_by_id(&mut self, id: Number) -> Result<(), BookFault>
        requires { self.old.is_open ≡ true }
        ensures { Makes result (hosts_to (delete_where (host_with_id id)) self.old.content) self.old
            self.new }
    {
        self.write(TREE, REMOVE_ID, params![id])
    }
}
