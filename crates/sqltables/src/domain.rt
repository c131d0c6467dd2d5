//! Domains.
ghost use Rattle.std.specs.Prelude.{◌≡◌, true, filter, take, IfOk};
ghost use Rattle.sqltables.specs.inner.Calls.{bound, insert_by, next_key, delete_where, update_where, domains_to, Finds, Makes, appended};
ghost use Rattle.sqltables.specs.Domain.{domain_with_name, domains, domain_after_id, domain_with_id, domain_with_registrant, domain_within_due, domain_of_sponsor_within, domain_of_registrant_within, domain_with_roid, domains_by_due, domain_shown};

use crate::store::RowStore;
use basis::list::Seq;
use basis::text::Text;
use sqlite::types::{ToSql, ValueRef};
use sqlite::{Alter, Error, Row, params};
use sqlrows::{Number, Record, maybe_number};
use states::BookFault;

/// The tree of the table `domain`.
const TREE: u64 = 5;

const ALL: &str =
    "SELECT id, name, creator, serial, sponsor, created, years, transferred, updated, statuses, secret, registrant, deleted, restore_requested, due FROM domain ORDER BY id";

const FIRST: &str =
    "SELECT id, name, creator, serial, sponsor, created, years, transferred, updated, statuses, secret, registrant, deleted, restore_requested, due FROM domain ORDER BY id LIMIT ?1";

const AFTER_ID: &str =
    "SELECT id, name, creator, serial, sponsor, created, years, transferred, updated, statuses, secret, registrant, deleted, restore_requested, due FROM domain WHERE id > ?1 ORDER BY id LIMIT ?2";

const BY_ID: &str =
    "SELECT id, name, creator, serial, sponsor, created, years, transferred, updated, statuses, secret, registrant, deleted, restore_requested, due FROM domain WHERE id = ?1 ORDER BY id";

const BY_NAME: &str =
    "SELECT id, name, creator, serial, sponsor, created, years, transferred, updated, statuses, secret, registrant, deleted, restore_requested, due FROM domain WHERE name = ?1 ORDER BY id";

const FIRST_BY_REGISTRANT: &str =
    "SELECT id, name, creator, serial, sponsor, created, years, transferred, updated, statuses, secret, registrant, deleted, restore_requested, due FROM domain WHERE registrant = ?1 ORDER BY id LIMIT 1";

const UNTIL_DUE: &str =
    "SELECT id, name, creator, serial, sponsor, created, years, transferred, updated, statuses, secret, registrant, deleted, restore_requested, due FROM domain WHERE due <= ?1 ORDER BY due, id";

const FIRST_UNTIL_DUE: &str =
    "SELECT id, name, creator, serial, sponsor, created, years, transferred, updated, statuses, secret, registrant, deleted, restore_requested, due FROM domain WHERE due <= ?1 ORDER BY due, id LIMIT ?2";

const BY_SPONSOR_UNTIL_DUE: &str =
    "SELECT id, name, creator, serial, sponsor, created, years, transferred, updated, statuses, secret, registrant, deleted, restore_requested, due FROM domain WHERE sponsor = ?1 AND due <= ?2 ORDER BY id";

const BY_REGISTRANT_UNTIL_DUE: &str =
    "SELECT id, name, creator, serial, sponsor, created, years, transferred, updated, statuses, secret, registrant, deleted, restore_requested, due FROM domain WHERE registrant = ?1 AND due <= ?2 ORDER BY id";

const BY_ROID: &str =
    "SELECT id, name, creator, serial, sponsor, created, years, transferred, updated, statuses, secret, registrant, deleted, restore_requested, due FROM domain WHERE creator = ?1 AND serial = ?2 ORDER BY id";

const PUT: &str =
    "INSERT INTO domain (id, name, creator, serial, sponsor, created, years, transferred, updated, statuses, secret, registrant, deleted, restore_requested, due) VALUES (?1, ?2, ?3, ?4, ?5, ?6, ?7, ?8, ?9, ?10, ?11, ?12, ?13, ?14, ?15) ON CONFLICT (id) DO UPDATE SET name = excluded.name, creator = excluded.creator, serial = excluded.serial, sponsor = excluded.sponsor, created = excluded.created, years = excluded.years, transferred = excluded.transferred, updated = excluded.updated, statuses = excluded.statuses, secret = excluded.secret, registrant = excluded.registrant, deleted = excluded.deleted, restore_requested = excluded.restore_requested, due = excluded.due";

const REPLACE: &str =
    "UPDATE domain SET name = ?2, creator = ?3, serial = ?4, sponsor = ?5, created = ?6, years = ?7, transferred = ?8, updated = ?9, statuses = ?10, secret = ?11, registrant = ?12, deleted = ?13, restore_requested = ?14, due = ?15 WHERE id = ?1";

const APPEND: &str =
    "INSERT INTO domain (name, creator, serial, sponsor, created, years, transferred, updated, statuses, secret, registrant, deleted, restore_requested, due) VALUES (?1, ?2, ?3, ?4, ?5, ?6, ?7, ?8, ?9, ?10, ?11, ?12, ?13, ?14)";

const REMOVE_ID: &str = "DELETE FROM domain WHERE id = ?1";

/// A row of the table `domain`.
#[derive(Drop)]
pub struct DomainRow {
    pub id: i64,
    pub name: Text,
    pub creator: i64,
    pub serial: i64,
    pub sponsor: i64,
    pub created: i64,
    pub years: i64,
    pub transferred: Option<i64>,
    pub updated: Option<i64>,
    pub statuses: Text,
    pub secret: Text,
    pub registrant: i64,
    pub deleted: Option<i64>,
    pub restore_requested: Option<i64>,
    pub due: i64,
}

impl DomainRow {
    /// Its columns as parameters, its number first.
    fn params(&self) -> [ValueRef<'_>; 15]
        ensures { bound result ≡ domain_shown self.now }
    {
        parameters!(
            self: number id, text name, number creator, number serial, number sponsor,
            number created, number years, maybe_number transferred, maybe_number updated,
            text statuses, text secret, number registrant, maybe_number deleted,
            maybe_number restore_requested, number due
        )
    }
}

impl Record for DomainRow {
    ghost shown = { domain_shown };

    fn from_row(row: &Row) -> Result<DomainRow, Error> {
        by_columns!(
            DomainRow of row: number id 0, text name 1, number creator 2, number serial 3,
            number sponsor 4, number created 5, number years 6, maybe_number transferred 7,
            maybe_number updated 8, text statuses 9, text secret 10, number registrant 11,
            maybe_number deleted 12, maybe_number restore_requested 13, number due 14
        )
    }
}

impl<S: Alter> RowStore<S> {
    /// All of them, by their numbers.
    pub fn all_domains(&mut self) -> Result<Seq<DomainRow>, BookFault>
        ensures { Finds result self.old.content.domains self.old self.new }
    {
        self.select(TREE, ALL, &[])
    }

    /// The first of them by their numbers, and no more than so many.
    pub fn first_domains(&mut self, at_most: u32) -> Result<Seq<DomainRow>, BookFault>
        ensures { Finds result (take at_most self.old.content.domains) self.old self.new }
    {
        self.select(TREE, FIRST, params![at_most])
    }

    /// Those after this number, by their numbers, and no more than so many.
    pub fn domains_after(&mut self, id: Number, at_most: u32) -> Result<Seq<DomainRow>, BookFault>
        ensures { Finds result (take at_most (filter (domain_after_id id) self.old.content.domains))
            self.old self.new }
    {
        self.select(TREE, AFTER_ID, params![id, at_most])
    }

    /// Those with this number.
    pub fn domains_by_id(&mut self, id: Number) -> Result<Seq<DomainRow>, BookFault>
        ensures { Finds result (filter (domain_with_id id) self.old.content.domains) self.old
            self.new }
    {
        self.select(TREE, BY_ID, params![id])
    }

    /// Those whose `name` is this.
    pub fn domains_by_name(&mut self, name: &str) -> Result<Seq<DomainRow>, BookFault>
        ensures { Finds result (filter (domain_with_name name.now) self.old.content.domains)
            self.old self.new }
    {
        self.select(TREE, BY_NAME, params![name])
    }

    /// The first of those whose `registrant` is this, by number, if there is any.
    pub fn first_domains_by_registrant(
        &mut self,
        registrant: Number,
    ) -> Result<Seq<DomainRow>, BookFault>
        ensures { Finds result
            (take 1 (filter (domain_with_registrant registrant) self.old.content.domains)) self.old
            self.new }
    {
        self.select(TREE, FIRST_BY_REGISTRANT, params![registrant])
    }

    /// Those whose `due` is this moment or one before, in the order in which they are due.
    pub fn domains_until_due(&mut self, due: Number) -> Result<Seq<DomainRow>, BookFault>
        ensures { Finds result
            (domains_by_due (filter (domain_within_due due) self.old.content.domains)) self.old
            self.new }
    {
        self.select(TREE, UNTIL_DUE, params![due])
    }

    /// The first of those whose `due` is this moment or one before, in the order in which they are due, and
    /// no more than so many.
    pub fn first_domains_until_due(
        &mut self,
        due: Number,
        at_most: u32,
    ) -> Result<Seq<DomainRow>, BookFault>
        ensures { Finds result (take at_most
            (domains_by_due (filter (domain_within_due due) self.old.content.domains))) self.old
            self.new }
    {
        self.select(TREE, FIRST_UNTIL_DUE, params![due, at_most])
    }

    /// Those whose `sponsor` is this and whose `due` is this moment or one before.
    pub fn domains_by_sponsor_until_due(
        &mut self,
        sponsor: Number,
        due: Number,
    ) -> Result<Seq<DomainRow>, BookFault>
        ensures { Finds result (filter (domain_of_sponsor_within sponsor due)
            self.old.content.domains) self.old self.new }
    {
        self.select(TREE, BY_SPONSOR_UNTIL_DUE, params![sponsor, due])
    }

    /// Those whose `registrant` is this and whose `due` is this moment or one before.
    pub fn domains_by_registrant_until_due(
        &mut self,
        registrant: Number,
        due: Number,
    ) -> Result<Seq<DomainRow>, BookFault>
        ensures { Finds result (filter (domain_of_registrant_within registrant due)
            self.old.content.domains) self.old self.new }
    {
        self.select(TREE, BY_REGISTRANT_UNTIL_DUE, params![registrant, due])
    }

    /// Those that this registrar created with this number.
    pub fn domains_by_roid(
        &mut self,
        creator: Number,
        serial: Number,
    ) -> Result<Seq<DomainRow>, BookFault>
        ensures { Finds result (filter (domain_with_roid creator serial) self.old.content.domains)
            self.old self.new }
    {
        self.select(TREE, BY_ROID, params![creator, serial])
    }

    /// Puts a row in the place of the one with its number, or after all others.
    pub fn put_domain(&mut self, domain: &DomainRow) -> Result<(), BookFault>
        requires { self.old.is_open ≡ true }
        ensures { Makes result (domains_to (λ xs. insert_by domains.key xs domain.now)
            self.old.content) self.old self.new }
    {
        self.write(TREE, PUT, &domain.params())
    }

    /// Puts a row in the place of the one with its number. If there is none, nothing is changed. An index
    /// whose columns stay is left alone, which an upsert doesn't do.
    pub fn replace_domain(&mut self, domain: &DomainRow) -> Result<(), BookFault>
        requires { self.old.is_open ≡ true }
        ensures { Makes result (domains_to (update_where (domain_with_id domain.now.id)
            (λ x. record domain.now { id = x.id })) self.old.content) self.old self.new }
    {
        self.write(TREE, REPLACE, &domain.params())
    }

    /// Adds a row at the end, with the number after the last one, and answers that number. The given row's
    /// isn't looked at.
    pub fn append_domain(&mut self, domain: &DomainRow) -> Result<i64, BookFault>
        requires { self.old.is_open ≡ true }
        ensures made { Makes result (domains_to (appended domains (λ id. record domain.now { id = id }))
            self.old.content) self.old self.new }
        ensures numbered { IfOk result (λ id. self.new.is_clean ≡ true
            → id ≡ next_key domains.key self.old.content.domains) }
    {
        self.run(TREE, APPEND, &domain.params()[1..])
    }

    /// Removes those whose `id` is this.
    pub fn remove_domains_by_id(&mut self, id: Number) -> Result<(), BookFault>
        requires { self.old.is_open ≡ true }
        ensures { Makes result (domains_to (delete_where (domain_with_id id)) self.old.content)
            self.old self.new }
    {
        self.write(TREE, REMOVE_ID, params![id])
    }
}
