//! Hosts put under their names and dropped.
ghost use Rattle.std.specs.Prelude.{◌≡◌, true, Some, None};
ghost use Rattle.sqlrows.specs.Meanings.{Changes};
ghost use Rattle.sqlobjects.specs.inner.Changes.{IsHostPut};

use crate::addresses::put_addresses;
use crate::host_rows::{row_of, row_to_change};
use crate::hosts::number_of;
use crate::named_rows::place_row;
use basis::text::Text;
use objects::Host;
use sqlcolumns::is_host;
use sqlite::Alter;
use sqltables::RowStore;
use states::BookFault;
use std::alloc::Global;

/// The host is under its name. Refused is what replaces a row with a wrong sponsor.
pub fn put_host<S: Alter>(
    store: &mut RowStore<S>,
    alloc: Global,
    host: Host,
) -> Result<(), BookFault>
    requires { store.old.is_open ≡ true }
    ensures { Changes result (IsHostPut host.name (Some host)) store.old store.new }
{
    put(store, alloc, &host)
}

/// The same of a host that is kept: in the row that has its name, or else in a new one, and then its
/// addresses. One that wouldn't be read back is refused.
fn put<S: Alter>(store: &mut RowStore<S>, alloc: Global, host: &Host) -> Result<(), BookFault>
    requires { store.old.is_open ≡ true }
    ensures { Changes result (IsHostPut host.now.name (Some host.now)) store.old store.new }
{
    store.show_consistent();
    let found = row_to_change(store, &host.name)?;
    if !is_host(host) {
        return Err(BookFault::Store);
    }
    let is_new = found.is_none();
    let bare = row_of(store, alloc, 0, host)?;
    let row = place_row(store, found, bare)?;
    store.show_consistent();
    put_addresses(store, alloc, &row, host.addresses.as_slice(), is_new)?;
    store.show_consistent();
    Ok(())
}

/// No host is under this name, and no address is of the one that was. Refused is what removes a row with
/// a wrong sponsor.
pub fn drop_host<S: Alter>(
    store: &mut RowStore<S>,
    alloc: Global,
    name: Text,
) -> Result<(), BookFault>
    requires { store.old.is_open ≡ true }
    ensures { Changes result (IsHostPut name None) store.old store.new }
{
    store.show_consistent();
    let Some(row) = row_to_change(store, &name)? else {
        return Ok(());
    };
    let number = number_of(&row);
    store.remove_addresses_by_host(number)?;
    store.remove_hosts_by_id(number)?;
    store.show_consistent();
    Ok(())
}
