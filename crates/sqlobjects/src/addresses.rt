//! The addresses of a host, in their order.
ghost use Rattle.std.specs.Prelude.{◌≡◌, ◌↔◌, true, [], ◌∷◌, IfOk, IsTrue};
ghost use Rattle.states.specs.States.{FindsSome};
ghost use Rattle.sqlrows.specs.Meanings.{Changes};
ghost use Rattle.sqlobjects.specs.Objects.{addresses_of};
ghost use Rattle.sqlobjects.specs.inner.Stages.{AreAddressesAdded, AreAddressesPut};

use crate::hosts::{number_of, texts_of};
use basis::text::Text;
use sqlite::Alter;
use sqltables::{AddressRow, HostRow, RowStore};
use states::BookFault;
use std::alloc::{AllocError, Global};

/// Gives a host, which lies in this row, these addresses in place of those that it had. To a new row none
/// leads, so none is looked for.
pub(crate) fn put_addresses<S: Alter>(
    store: &mut RowStore<S>,
    alloc: Global,
    host: &HostRow,
    addresses: &[Text],
    is_new: bool,
) -> Result<(), BookFault>
    requires { store.old.is_open ≡ true }
    ensures { Changes result (λ old new. (is_new ≡ true → addresses_of old host.now.id ≡ [])
        → AreAddressesPut host.now.id addresses.now old new) store.old store.new }
{
    if is_new {
        return add_addresses(store, host, addresses);
    }
    replace_addresses(store, alloc, host, addresses)
}

/// The same where it may have some. If it has these, nothing is written.
fn replace_addresses<S: Alter>(
    store: &mut RowStore<S>,
    alloc: Global,
    host: &HostRow,
    addresses: &[Text],
) -> Result<(), BookFault>
    requires { store.old.is_open ≡ true }
    ensures { Changes result (AreAddressesPut host.now.id addresses.now) store.old store.new }
{
    let is_there = has_addresses(store, alloc, host, addresses)?;
    if is_there {
        return Ok(());
    }
    store.remove_addresses_by_host(number_of(host))?;
    add_addresses(store, host, addresses)?;
    Ok(())
}

/// Whether the host in this row has these addresses, in this order.
fn has_addresses<S: Alter>(
    store: &mut RowStore<S>,
    alloc: Global,
    host: &HostRow,
    addresses: &[Text],
) -> Result<bool, BookFault>
    ensures { FindsSome result (λ it. it ≡ true
        → addresses_of store.old.content host.now.id ≡ addresses.now) store.old store.new }
{
    let rows = store.addresses_by_host(number_of(host))?;
    let there = texts_of(alloc, rows)?;
    Ok(are_same(there.as_slice(), addresses))
}

pub fn are_same(texts: &[Text], others: &[Text]) -> bool
    ensures { IsTrue result ↔ (texts.now ≡ others.now) }
{
    texts == others
}

/// Adds addresses, one after another.
fn add_addresses<S: Alter>(
    store: &mut RowStore<S>,
    host: &HostRow,
    addresses: &[Text],
) -> Result<(), BookFault>
    requires { store.old.is_open ≡ true }
    ensures { Changes result (AreAddressesAdded host.now.id addresses.now) store.old store.new }
{
    for address in addresses {
        add_address(store, host, address)?;
    }
    Ok(())
}

/// Adds one address.
fn add_address<S: Alter>(
    store: &mut RowStore<S>,
    host: &HostRow,
    address: &Text,
) -> Result<(), BookFault>
    requires { store.old.is_open ≡ true }
    ensures { Changes result (AreAddressesAdded host.now.id (address.now ∷ [])) store.old store.new }
{
    let row = row_of(host, address)?;
    store.append_address(&row)?;
    Ok(())
}

/// The row of a host's address, but for its number.
fn row_of(host: &HostRow, address: &Text) -> Result<AddressRow, AllocError>
    ensures host { IfOk result (λ row. row.host ≡ host.now.id) }
    ensures address { IfOk result (λ row. row.address ≡ address.now) }
{
    Ok(AddressRow {
        id: 0,
        host: host.id,
        address: address.clone()?,
    })
}
