//! Addresses of hosts.
ghost use Rattle.std.specs.Prelude.{◌≡◌, true, filter};
ghost use Rattle.sqltables.specs.inner.Calls.{bound, delete_where, insert_by, addresses_to, Finds, Makes, appended};
ghost use Rattle.sqltables.specs.Address.{addresses, address_with_host, address_shown};

use crate::store::RowStore;
use basis::list::Seq;
use basis::text::Text;
use sqlite::types::{ToSql, ValueRef};
use sqlite::{Alter, Error, Row, params};
use sqlrows::{Number, Record};
use states::BookFault;

/// The tree of the table `address`.
const TREE: u64 = 9;

const BY_HOST: &str = "SELECT id, host, address FROM address WHERE host = ?1 ORDER BY id";

const PUT: &str =
    "INSERT INTO address (id, host, address) VALUES (?1, ?2, ?3) ON CONFLICT (id) DO UPDATE SET host = excluded.host, address = excluded.address";

const APPEND: &str = "INSERT INTO address (host, address) VALUES (?1, ?2)";

const REMOVE_HOST: &str = "DELETE FROM address WHERE host = ?1";

/// A row of the table `address`.
#[derive(Drop)]
pub struct AddressRow {
    pub id: i64,
    pub host: i64,
    pub address: Text,
}

impl AddressRow {
    /// Its columns as parameters, its number first.
    fn params(&self) -> [ValueRef<'_>; 3]
        ensures { bound result ≡ address_shown self.now }
    {
        parameters!(self: number id, number host, text address)
    }
}

impl Record for AddressRow {
    ghost shown = { address_shown };

    fn from_row(row: &Row) -> Result<AddressRow, Error> {
        by_columns!(AddressRow of row: number id 0, number host 1, text address 2)
    }
}

impl<S: Alter> RowStore<S> {
    /// Those whose `host` is this.
    pub fn addresses_by_host(&mut self, host: Number) -> Result<Seq<AddressRow>, BookFault>
        ensures { Finds result (filter (address_with_host host) self.old.content.addresses) self.old
            self.new }
    {
        self.select(TREE, BY_HOST, params![host])
    }

    /// Puts a row in the place of the one with its number, or after all others.
    pub fn put_address(&mut self, address: &AddressRow) -> Result<(), BookFault>
        requires { self.old.is_open ≡ true }
        ensures { Makes result (addresses_to (λ xs. insert_by addresses.key xs address.now)
            self.old.content) self.old self.new }
    {
        self.write(TREE, PUT, &address.params())
    }

    /// Adds a row at the end, with the number after the last one. The given row's number isn't looked at.
    pub fn append_address(&mut self, address: &AddressRow) -> Result<(), BookFault>
        requires { self.old.is_open ≡ true }
        ensures { Makes result
            (addresses_to (appended addresses (λ id. record address.now { id = id }))
            self.old.content) self.old self.new }
    {
        self.write(TREE, APPEND, &address.params()[1..])
    }

    /// Removes those whose `host` is this.
    pub fn remove_addresses_by_host(&mut self, host: Number) -> Result<(), BookFault>
        requires { self.old.is_open ≡ true }
        ensures { Makes result (addresses_to (delete_where (address_with_host host))
            self.old.content) self.old self.new }
    {
        self.write(TREE, REMOVE_HOST, params![host])
    }
}
