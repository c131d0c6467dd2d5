//! The rows of each table, as they are copied.
ghost use Rattle.std.specs.Prelude.{◌≡◌, true, map, IfOk};
ghost use Rattle.sqlite_keyed.specs.Keyed.{insert_by};
ghost use Rattle.oldrows.specs.{inner.{Stored.FindsOld, Tables.Table}, Copies.renumbered};
ghost use Rattle.states.specs.States.{Makes};

use crate::reading::OldRows;
use basis::list::Seq;
use sqlite::Alter;
use sqlrows::{Record, only};
use sqltables::{
    AccountRow, AddressRow, ContactRow, DomainRow, HostRow, LineRow, LinkRow, MessageRow, MetaRow,
    RowStore, SCHEMA_NUMBER, TransferRow,
};
use states::BookFault;
use std::alloc::Global;

const ACCOUNTS: &str =
    "SELECT id, ident, commands, messages, serial, waiting, balance, held FROM account ORDER BY id";

const CONTACTS: &str =
    "SELECT id, name, creator, serial, sponsor, created, transferred, updated, statuses, secret, postal_name, org, street, city, state, postal_code, country, voice, due, mail FROM contact ORDER BY id";

const DOMAINS: &str =
    "SELECT id, name, creator, serial, sponsor, created, years, transferred, updated, statuses, secret, registrant, deleted, restore_requested, due FROM domain ORDER BY id";

const HOSTS: &str =
    "SELECT id, name, creator, serial, above, external_sponsor, sponsor, created, updated, statuses FROM host ORDER BY id";

const ADDRESSES: &str = "SELECT id, host, address FROM address ORDER BY id";

const LINKS: &str = "SELECT id, domain, contact, host, role, due FROM link ORDER BY id";

const LINES: &str =
    "SELECT id, account, kind, creator, serial, years, cents, started, NULL, refunded, recorded FROM line ORDER BY id";

const MESSAGES: &str =
    "SELECT id, account, moment, class, number, name, subject, notice FROM message ORDER BY id";

const TRANSFERS: &str =
    "SELECT id, contact, domain, requester, losing, requested, ac_date, due, state FROM transfer ORDER BY id";

/// A row of a table that is copied as it is, with its number.
pub trait Copied: Record {
    ghost table: { Table Self };

    /// All rows of the table, by their numbers. A line has no end of its grace.
    fn all<S: Alter>(from: &mut OldRows<S>) -> Result<Seq<Self>, BookFault>
        ensures { FindsOld result (table.rows_of from.old.content) from.old from.new };

    /// Puts the row in the place of the one with its number, or after all others.
    fn put<S: Alter>(&self, store: &mut RowStore<S>) -> Result<(), BookFault>
        requires { store.old.is_open ≡ true }
        ensures { Makes result (table.rows_to (λ xs. insert_by table.key xs self.now)
            store.old.content) store.old store.new };
}

impl Copied for AccountRow {
    ghost use Rattle.oldrows.specs.inner.Tables.{account_table};

    ghost table = { account_table };

    fn all<S: Alter>(from: &mut OldRows<S>) -> Result<Seq<AccountRow>, BookFault> {
        from.select(ACCOUNTS)
    }

    fn put<S: Alter>(&self, store: &mut RowStore<S>) -> Result<(), BookFault> {
        store.put_account(self)
    }
}

impl Copied for ContactRow {
    ghost use Rattle.oldrows.specs.inner.Tables.{contact_table};

    ghost table = { contact_table };

    fn all<S: Alter>(from: &mut OldRows<S>) -> Result<Seq<ContactRow>, BookFault> {
        from.select(CONTACTS)
    }

    fn put<S: Alter>(&self, store: &mut RowStore<S>) -> Result<(), BookFault> {
        store.put_contact(self)
    }
}

impl Copied for DomainRow {
    ghost use Rattle.oldrows.specs.inner.Tables.{domain_table};

    ghost table = { domain_table };

    fn all<S: Alter>(from: &mut OldRows<S>) -> Result<Seq<DomainRow>, BookFault> {
        from.select(DOMAINS)
    }

    fn put<S: Alter>(&self, store: &mut RowStore<S>) -> Result<(), BookFault> {
        store.put_domain(self)
    }
}

impl Copied for HostRow {
    ghost use Rattle.oldrows.specs.inner.Tables.{host_table};

    ghost table = { host_table };

    fn all<S: Alter>(from: &mut OldRows<S>) -> Result<Seq<HostRow>, BookFault> {
        from.select(HOSTS)
    }

    fn put<S: Alter>(&self, store: &mut RowStore<S>) -> Result<(), BookFault> {
        store.put_host(self)
    }
}

impl Copied for AddressRow {
    ghost use Rattle.oldrows.specs.inner.Tables.{address_table};

    ghost table = { address_table };

    fn all<S: Alter>(from: &mut OldRows<S>) -> Result<Seq<AddressRow>, BookFault> {
        from.select(ADDRESSES)
    }

    fn put<S: Alter>(&self, store: &mut RowStore<S>) -> Result<(), BookFault> {
        store.put_address(self)
    }
}

impl Copied for LinkRow {
    ghost use Rattle.oldrows.specs.inner.Tables.{link_table};

    ghost table = { link_table };

    fn all<S: Alter>(from: &mut OldRows<S>) -> Result<Seq<LinkRow>, BookFault> {
        from.select(LINKS)
    }

    fn put<S: Alter>(&self, store: &mut RowStore<S>) -> Result<(), BookFault> {
        store.put_link(self)
    }
}

impl Copied for LineRow {
    ghost use Rattle.oldrows.specs.inner.Tables.{line_table};

    ghost table = { line_table };

    fn all<S: Alter>(from: &mut OldRows<S>) -> Result<Seq<LineRow>, BookFault> {
        from.select(LINES)
    }

    fn put<S: Alter>(&self, store: &mut RowStore<S>) -> Result<(), BookFault> {
        store.put_line(self)
    }
}

impl Copied for MessageRow {
    ghost use Rattle.oldrows.specs.inner.Tables.{message_table};

    ghost table = { message_table };

    fn all<S: Alter>(from: &mut OldRows<S>) -> Result<Seq<MessageRow>, BookFault> {
        from.select(MESSAGES)
    }

    fn put<S: Alter>(&self, store: &mut RowStore<S>) -> Result<(), BookFault> {
        store.put_message(self)
    }
}

impl Copied for TransferRow {
    ghost use Rattle.oldrows.specs.inner.Tables.{transfer_table};

    ghost table = { transfer_table };

    fn all<S: Alter>(from: &mut OldRows<S>) -> Result<Seq<TransferRow>, BookFault> {
        from.select(TRANSFERS)
    }

    fn put<S: Alter>(&self, store: &mut RowStore<S>) -> Result<(), BookFault> {
        store.put_transfer(self)
    }
}

impl Copied for MetaRow {
    ghost use Rattle.oldrows.specs.inner.Tables.{meta_table};

    ghost table = { meta_table };

    fn all<S: Alter>(from: &mut OldRows<S>) -> Result<Seq<MetaRow>, BookFault> {
        let rows = from.metas()?;
        all_renumbered(from.alloc(), rows)
    }

    fn put<S: Alter>(&self, store: &mut RowStore<S>) -> Result<(), BookFault> {
        store.put_meta(self)
    }
}

/// The row with the number of today's schema, if there is one; more are refused.
fn all_renumbered(alloc: Global, rows: Seq<MetaRow>) -> Result<Seq<MetaRow>, BookFault>
    ensures { IfOk result (λ out. out ≡ map renumbered rows) }
{
    let mut all = Seq::new(alloc);
    if let Some(row) = only(rows)? {
        all.push(renumbered(row))?;
    }
    Ok(all)
}

fn renumbered(row: MetaRow) -> MetaRow
    ensures { result ≡ renumbered row }
{
    let mut row = row;
    row.version = SCHEMA_NUMBER;
    row
}
