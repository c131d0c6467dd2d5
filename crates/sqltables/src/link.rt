//! What domains name: contacts in a role, and hosts.
ghost use Rattle.std.specs.Prelude.{◌≡◌, true, filter, take};
ghost use Rattle.sqltables.specs.inner.Calls.{bound, delete_where, update_where, insert_by, links_to, Finds, Makes, appended};
ghost use Rattle.sqltables.specs.Link.{links, link_with_domain, link_of_domains, link_with_contact, link_with_host, link_of_contact_within, link_of_host_within, link_shown};

use crate::store::RowStore;
use basis::list::Seq;
use sqlite::types::{ToSql, ValueRef};
use sqlite::{Alter, Error, Row, params};
use sqlrows::{Number, Record, maybe_number};
use states::BookFault;

/// The tree of the table `link`.
const TREE: u64 = 10;

const BY_DOMAIN: &str =
    "SELECT id, domain, contact, host, role, due FROM link WHERE domain = ?1 ORDER BY id";

const OF_DOMAINS: &str =
    "SELECT id, domain, contact, host, role, due FROM link WHERE domain >= ?1 AND domain <= ?2 ORDER BY id";

const FIRST_BY_CONTACT: &str =
    "SELECT id, domain, contact, host, role, due FROM link WHERE contact = ?1 ORDER BY id LIMIT 1";

const FIRST_BY_HOST: &str =
    "SELECT id, domain, contact, host, role, due FROM link WHERE host = ?1 ORDER BY id LIMIT 1";

const BY_CONTACT_UNTIL_DUE: &str =
    "SELECT id, domain, contact, host, role, due FROM link WHERE contact = ?1 AND due <= ?2 ORDER BY id";

const BY_HOST_UNTIL_DUE: &str =
    "SELECT id, domain, contact, host, role, due FROM link WHERE host = ?1 AND due <= ?2 ORDER BY id";

const PUT: &str =
    "INSERT INTO link (id, domain, contact, host, role, due) VALUES (?1, ?2, ?3, ?4, ?5, ?6) ON CONFLICT (id) DO UPDATE SET domain = excluded.domain, contact = excluded.contact, host = excluded.host, role = excluded.role, due = excluded.due";

const APPEND: &str =
    "INSERT INTO link (domain, contact, host, role, due) VALUES (?1, ?2, ?3, ?4, ?5)";

const REMOVE_DOMAIN: &str = "DELETE FROM link WHERE domain = ?1";

const UPDATE_DUE: &str = "UPDATE link SET due = ?2 WHERE domain = ?1";

/// A row of the table `link`.
#[derive(Drop)]
pub struct LinkRow {
    pub id: i64,
    pub domain: i64,
    pub contact: Option<i64>,
    pub host: Option<i64>,
    pub role: i64,
    /// That of the domain.
    pub due: i64,
}

impl LinkRow {
    /// Its columns as parameters, its number first.
    fn params(&self) -> [ValueRef<'_>; 6]
        ensures { bound result ≡ link_shown self.now }
    {
        parameters!(
            self: number id, number domain, maybe_number contact, maybe_number host, number role,
            number due
        )
    }
}

impl Record for LinkRow {
    ghost shown = { link_shown };

    fn from_row(row: &Row) -> Result<LinkRow, Error> {
        by_columns!(
            LinkRow of row: number id 0, number domain 1, maybe_number contact 2,
            maybe_number host 3, number role 4, number due 5
        )
    }
}

impl<S: Alter> RowStore<S> {
    /// Those whose `domain` is this.
    pub fn links_by_domain(&mut self, domain: Number) -> Result<Seq<LinkRow>, BookFault>
        ensures { Finds result (filter (link_with_domain domain) self.old.content.links) self.old
            self.new }
    {
        self.select(TREE, BY_DOMAIN, params![domain])
    }

    /// Those whose `domain` is from the first of these numbers to the last.
    pub fn links_of_domains(
        &mut self,
        first: Number,
        last: Number,
    ) -> Result<Seq<LinkRow>, BookFault>
        ensures { Finds result (filter (link_of_domains first last) self.old.content.links) self.old
            self.new }
    {
        self.select(TREE, OF_DOMAINS, params![first, last])
    }

    /// The first of those whose `contact` is this, by number, if there is any.
    pub fn first_links_by_contact(&mut self, contact: Number) -> Result<Seq<LinkRow>, BookFault>
        ensures { Finds result (take 1 (filter (link_with_contact contact) self.old.content.links))
            self.old self.new }
    {
        self.select(TREE, FIRST_BY_CONTACT, params![contact])
    }

    /// The first of those whose `host` is this, by number, if there is any.
    pub fn first_links_by_host(&mut self, host: Number) -> Result<Seq<LinkRow>, BookFault>
        ensures { Finds result (take 1 (filter (link_with_host host) self.old.content.links))
            self.old self.new }
    {
        self.select(TREE, FIRST_BY_HOST, params![host])
    }

    /// Those whose `contact` is this and whose `due` is this moment or one before.
    pub fn links_by_contact_until_due(
        &mut self,
        contact: Number,
        due: Number,
    ) -> Result<Seq<LinkRow>, BookFault>
        ensures { Finds result (filter (link_of_contact_within contact due) self.old.content.links)
            self.old self.new }
    {
        self.select(TREE, BY_CONTACT_UNTIL_DUE, params![contact, due])
    }

    /// Those whose `host` is this and whose `due` is this moment or one before.
    pub fn links_by_host_until_due(
        &mut self,
        host: Number,
        due: Number,
    ) -> Result<Seq<LinkRow>, BookFault>
        ensures { Finds result (filter (link_of_host_within host due) self.old.content.links)
            self.old self.new }
    {
        self.select(TREE, BY_HOST_UNTIL_DUE, params![host, due])
    }

    /// Puts a row in the place of the one with its number, or after all others.
    pub fn put_link(&mut self, link: &LinkRow) -> Result<(), BookFault>
        requires { self.old.is_open ≡ true }
        ensures { Makes result (links_to (λ xs. insert_by links.key xs link.now) self.old.content)
            self.old self.new }
    {
        self.write(TREE, PUT, &link.params())
    }

    /// Adds a row at the end, with the number after the last one. The given row's number isn't looked at.
    pub fn append_link(&mut self, link: &LinkRow) -> Result<(), BookFault>
        requires { self.old.is_open ≡ true }
        ensures { Makes result (links_to (appended links (λ id. record link.now { id = id }))
            self.old.content) self.old self.new }
    {
        self.write(TREE, APPEND, &link.params()[1..])
    }

    /// Removes those whose `domain` is this.
    pub fn remove_links_by_domain(&mut self, domain: Number) -> Result<(), BookFault>
        requires { self.old.is_open ≡ true }
        ensures { Makes result (links_to (delete_where (link_with_domain domain)) self.old.content)
            self.old self.new }
    {
        self.write(TREE, REMOVE_DOMAIN, params![domain])
    }

    /// Those whose `domain` is this are due at this moment.
    pub fn update_links_due(&mut self, domain: Number, due: Number) -> Result<(), BookFault>
        requires { self.old.is_open ≡ true }
        ensures { Makes result (links_to (update_where (link_with_domain domain)
            (λ x. record x { due = due })) self.old.content) self.old self.new }
    {
        self.write(TREE, UPDATE_DUE, params![domain, due])
    }
}
