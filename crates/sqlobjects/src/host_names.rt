//! The row of one host made another's.
ghost use Rattle.std.specs.Prelude.{◌≡◌, true, [], filter, Some};
ghost use Rattle.sqltables.specs.Host.{host_with_name};
ghost use Rattle.states.specs.States.{FindsSome};
ghost use Rattle.sqlrows.specs.Meanings.{Changes};
ghost use Rattle.sqlobjects.specs.inner.Changes.{IsRowRenamed};
ghost use Rattle.sqlobjects.specs.inner.Stages.{ChangesGiving, IsHostFound, IsRowTaken};

use crate::addresses::put_addresses;
use crate::host_rows::{row_again, row_to_change};
use crate::named_rows::row_named;
use basis::text::Text;
use objects::Host;
use sqlcolumns::is_host;
use sqlite::Alter;
use sqltables::{HostRow, RowStore};
use states::BookFault;
use std::alloc::Global;

/// The row of the host of this name is that of another host, whose name none has, and keeps its
/// number. So what leads to the one leads to the other. Refused is what replaces a row with a wrong
/// sponsor.
pub fn rename_row<S: Alter>(
    store: &mut RowStore<S>,
    alloc: Global,
    from: &Text,
    host: &Host,
) -> Result<(), BookFault>
    requires { store.old.is_open ≡ true }
    ensures { Changes result (IsRowRenamed from.now host.now) store.old store.new }
{
    if !is_host(host) {
        return Err(BookFault::Store);
    }
    store.show_consistent();
    let row = take_row(store, alloc, from, host)?;
    put_addresses(store, alloc, &row, host.addresses.as_slice(), false)?;
    store.show_consistent();
    Ok(())
}

/// The same but for the addresses. The row is given back.
fn take_row<S: Alter>(
    store: &mut RowStore<S>,
    alloc: Global,
    from: &Text,
    host: &Host,
) -> Result<HostRow, BookFault>
    requires { store.old.is_open ≡ true }
    ensures { ChangesGiving result (λ row old new. IsRowTaken from.now host.now row old new) store.old
        store.new }
{
    check_free(store, &host.name)?;
    let found = row_to_rename(store, from)?;
    let row = row_again(store, alloc, &found, host)?;
    store.put_host(&row)?;
    Ok(row)
}

/// Refuses a name that a row has.
fn check_free<S: Alter>(store: &mut RowStore<S>, name: &Text) -> Result<(), BookFault>
    ensures { FindsSome result (λ done. filter (host_with_name name.now) store.old.content.hosts ≡ [])
        store.old store.new }
{
    match row_named::<HostRow, S>(store, name)? {
        None => Ok(()),
        Some(_) => Err(BookFault::Store),
    }
}

/// The row of the host of this name, whose sponsor is right.
fn row_to_rename<S: Alter>(store: &mut RowStore<S>, name: &Text) -> Result<HostRow, BookFault>
    ensures { FindsSome result (λ row. IsHostFound store.old.content name.now (Some row)) store.old
        store.new }
{
    match row_to_change(store, name)? {
        None => Err(BookFault::Store),
        Some(row) => Ok(row),
    }
}
