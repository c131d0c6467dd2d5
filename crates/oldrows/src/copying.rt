//! Rows, copied into the same tables of today.
ghost use Rattle.std.specs.Prelude.{◌≡◌, true};
ghost use Rattle.oldrows.specs.inner.Copies.{Copies, put_from, put_of, put_of_all, put_rows};
ghost use Rattle.states.specs.States.{Makes};

use crate::copied::Copied;
use crate::reading::OldRows;
use sqlite::Alter;
use sqltables::{
    AccountRow, AddressRow, ContactRow, DomainRow, HostRow, LineRow, LinkRow, MessageRow, MetaRow,
    RowStore, TransferRow,
};
use states::BookFault;

/// A table that is copied.
#[derive(Clone, Copy, Drop)]
pub enum TableName {
    Metas,
    Accounts,
    Contacts,
    Domains,
    Hosts,
    Addresses,
    Links,
    Lines,
    Messages,
    Transfers,
}

/// Copies all rows of a table.
fn copy<R: Copied, S: Alter, T: Alter>(
    from: &mut OldRows<S>,
    to: &mut RowStore<T>,
) -> Result<(), BookFault>
    requires { to.old.is_open ≡ true }
    ensures { Copies result (put_from R.table) from.old from.new to.old to.new }
{
    let rows = R::all(from)?;
    put_all(to, rows.as_slice())
}

/// Puts rows, each in the place of the one with its number, or after all others.
pub fn put_all<R: Copied, T: Alter>(to: &mut RowStore<T>, rows: &[R]) -> Result<(), BookFault>
    requires { to.old.is_open ≡ true }
    ensures { Makes result (R.table.rows_to (put_rows R.table.key rows.now) to.old.content) to.old
        to.new }
{
    for row in rows {
        row.put(to)?;
    }
    Ok(())
}

/// Copies all rows of a table. That of `meta` gets the number of today's schema.
fn copy_table<S: Alter, T: Alter>(
    table: TableName,
    from: &mut OldRows<S>,
    to: &mut RowStore<T>,
) -> Result<(), BookFault>
    requires { to.old.is_open ≡ true }
    ensures { Copies result (put_of table) from.old from.new to.old to.new }
{
    match table {
        TableName::Metas => copy::<MetaRow, S, T>(from, to),
        TableName::Accounts => copy::<AccountRow, S, T>(from, to),
        TableName::Contacts => copy::<ContactRow, S, T>(from, to),
        TableName::Domains => copy::<DomainRow, S, T>(from, to),
        TableName::Hosts => copy::<HostRow, S, T>(from, to),
        TableName::Addresses => copy::<AddressRow, S, T>(from, to),
        TableName::Links => copy::<LinkRow, S, T>(from, to),
        TableName::Lines => copy::<LineRow, S, T>(from, to),
        TableName::Messages => copy::<MessageRow, S, T>(from, to),
        TableName::Transfers => copy::<TransferRow, S, T>(from, to),
    }
}

/// Copies these tables, one after another.
pub fn copy_tables<S: Alter, T: Alter>(
    tables: &[TableName],
    from: &mut OldRows<S>,
    to: &mut RowStore<T>,
) -> Result<(), BookFault>
    requires { to.old.is_open ≡ true }
    ensures { Copies result (put_of_all tables.now) from.old from.new to.old to.new }
{
    for table in tables {
        copy_table(*table, from, to)?;
    }
    Ok(())
}
