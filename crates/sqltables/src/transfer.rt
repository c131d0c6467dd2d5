//! The last transfer of each object that had one.
ghost use Rattle.std.specs.Prelude.{◌≡◌, true, filter};
ghost use Rattle.sqltables.specs.inner.Calls.{bound, delete_where, insert_by, transfers_to, Finds, Makes, appended};
ghost use Rattle.sqltables.specs.Transfer.{transfers, transfer_with_contact, transfer_with_domain, transfer_of_domains, transfer_pending_by, transfer_pending_from, transfer_shown};

use crate::store::RowStore;
use basis::list::Seq;
use sqlite::types::{ToSql, ValueRef};
use sqlite::{Alter, Error, Row, params};
use sqlrows::{Number, Record, maybe_number};
use states::BookFault;

/// The tree of the table `transfer`.
const TREE: u64 = 13;

const BY_CONTACT: &str =
    "SELECT id, contact, domain, requester, losing, requested, ac_date, due, state FROM transfer WHERE contact = ?1 ORDER BY id";

const BY_DOMAIN: &str =
    "SELECT id, contact, domain, requester, losing, requested, ac_date, due, state FROM transfer WHERE domain = ?1 ORDER BY id";

const OF_DOMAINS: &str =
    "SELECT id, contact, domain, requester, losing, requested, ac_date, due, state FROM transfer WHERE domain >= ?1 AND domain <= ?2 ORDER BY id";

const PENDING_BY_REQUESTER: &str =
    "SELECT id, contact, domain, requester, losing, requested, ac_date, due, state FROM transfer WHERE requester = ?1 AND due >= 0 ORDER BY id";

const PENDING_BY_LOSING: &str =
    "SELECT id, contact, domain, requester, losing, requested, ac_date, due, state FROM transfer WHERE losing = ?1 AND due >= 0 ORDER BY id";

const PUT: &str =
    "INSERT INTO transfer (id, contact, domain, requester, losing, requested, ac_date, due, state) VALUES (?1, ?2, ?3, ?4, ?5, ?6, ?7, ?8, ?9) ON CONFLICT (id) DO UPDATE SET contact = excluded.contact, domain = excluded.domain, requester = excluded.requester, losing = excluded.losing, requested = excluded.requested, ac_date = excluded.ac_date, due = excluded.due, state = excluded.state";

const APPEND: &str =
    "INSERT INTO transfer (contact, domain, requester, losing, requested, ac_date, due, state) VALUES (?1, ?2, ?3, ?4, ?5, ?6, ?7, ?8)";

const REMOVE_CONTACT: &str = "DELETE FROM transfer WHERE contact = ?1";

const REMOVE_DOMAIN: &str = "DELETE FROM transfer WHERE domain = ?1";

/// A row of the table `transfer`.
#[derive(Drop)]
pub struct TransferRow {
    pub id: i64,
    pub contact: Option<i64>,
    pub domain: Option<i64>,
    pub requester: i64,
    pub losing: i64,
    pub requested: i64,
    pub ac_date: i64,
    pub due: Option<i64>,
    pub state: i64,
}

impl TransferRow {
    /// Its columns as parameters, its number first.
    fn params(&self) -> [ValueRef<'_>; 9]
        ensures { bound result ≡ transfer_shown self.now }
    {
        parameters!(
            self: number id, maybe_number contact, maybe_number domain, number requester,
            number losing, number requested, number ac_date, maybe_number due, number state
        )
    }
}

impl Record for TransferRow {
    ghost shown = { transfer_shown };

    fn from_row(row: &Row) -> Result<TransferRow, Error> {
        by_columns!(
            TransferRow of row: number id 0, maybe_number contact 1, maybe_number domain 2,
            number requester 3, number losing 4, number requested 5, number ac_date 6,
            maybe_number due 7, number state 8
        )
    }
}

impl<S: Alter> RowStore<S> {
    /// Those whose `contact` is this.
    pub fn transfers_by_contact(&mut self, contact: Number) -> Result<Seq<TransferRow>, BookFault>
        ensures { Finds result (filter (transfer_with_contact contact) self.old.content.transfers)
            self.old self.new }
    {
        self.select(TREE, BY_CONTACT, params![contact])
    }

    /// Those whose `domain` is this.
    pub fn transfers_by_domain(&mut self, domain: Number) -> Result<Seq<TransferRow>, BookFault>
        ensures { Finds result (filter (transfer_with_domain domain) self.old.content.transfers)
            self.old self.new }
    {
        self.select(TREE, BY_DOMAIN, params![domain])
    }

    /// Those whose `domain` is from the first of these numbers to the last.
    pub fn transfers_of_domains(
        &mut self,
        first: Number,
        last: Number,
    ) -> Result<Seq<TransferRow>, BookFault>
        ensures { Finds result (filter (transfer_of_domains first last) self.old.content.transfers)
            self.old self.new }
    {
        self.select(TREE, OF_DOMAINS, params![first, last])
    }

    /// Those that are pending and whose `requester` is this.
    pub fn pending_transfers_by_requester(
        &mut self,
        requester: Number,
    ) -> Result<Seq<TransferRow>, BookFault>
        ensures { Finds result (filter (transfer_pending_by requester) self.old.content.transfers)
            self.old self.new }
    {
        self.select(TREE, PENDING_BY_REQUESTER, params![requester])
    }

    /// Those that are pending and whose `losing` is this.
    pub fn pending_transfers_by_losing(
        &mut self,
        losing: Number,
    ) -> Result<Seq<TransferRow>, BookFault>
        ensures { Finds result (filter (transfer_pending_from losing) self.old.content.transfers)
            self.old self.new }
    {
        self.select(TREE, PENDING_BY_LOSING, params![losing])
    }

    /// Puts a row in the place of the one with its number, or after all others.
    pub fn put_transfer(&mut self, transfer: &TransferRow) -> Result<(), BookFault>
        requires { self.old.is_open ≡ true }
        ensures { Makes result (transfers_to (λ xs. insert_by transfers.key xs transfer.now)
            self.old.content) self.old self.new }
    {
        self.write(TREE, PUT, &transfer.params())
    }

    /// Adds a row at the end, with the number after the last one. The given row's number isn't looked at.
    pub fn append_transfer(&mut self, transfer: &TransferRow) -> Result<(), BookFault>
        requires { self.old.is_open ≡ true }
        ensures { Makes result
            (transfers_to (appended transfers (λ id. record transfer.now { id = id }))
            self.old.content) self.old self.new }
    {
        self.write(TREE, APPEND, &transfer.params()[1..])
    }

    /// Removes those whose `contact` is this.
    pub fn remove_transfers_by_contact(&mut self, contact: Number) -> Result<(), BookFault>
        requires { self.old.is_open ≡ true }
        ensures { Makes result (transfers_to (delete_where (transfer_with_contact contact))
            self.old.content) self.old self.new }
    {
        self.write(TREE, REMOVE_CONTACT, params![contact])
    }

    /// Removes those whose `domain` is this.
    pub fn remove_transfers_by_domain(&mut self, domain: Number) -> Result<(), BookFault>
        requires { self.old.is_open ≡ true }
        ensures { Makes result (transfers_to (delete_where (transfer_with_domain domain))
            self.old.content) self.old self.new }
    {
        self.write(TREE, REMOVE_DOMAIN, params![domain])
    }
}
