//! Hosts, by name.
ghost use Rattle.std.specs.Prelude.{◌≡◌, true, filter, IfOk, Some, is_some, option_map};
ghost use Rattle.std.specs.FinMap.{get};
ghost use Rattle.sqlcolumns.specs.Hosts.{host_of_columns};
ghost use Rattle.sqltables.specs.Host.{host_with_name};
ghost use Rattle.states.specs.States.{Finds, FindsSome};
ghost use Rattle.sqlobjects.specs.Objects as spec;
ghost use Rattle.sqlrows.specs.Read.{IsRead};

use crate::named_rows::row_named;
use basis::list::Seq;
use basis::text::Text;
use objects::Host;
use sqlcolumns::host_of_row;
use sqlite::Alter;
use sqlrows::{Number, or_fault};
use sqltables::{AddressRow, HostRow, RowStore};
use states::BookFault;
use std::alloc::{AllocError, Global};

/// The host of this name.
pub fn host<S: Alter>(
    store: &mut RowStore<S>,
    alloc: Global,
    name: &Text,
) -> Result<Option<Host>, BookFault>
    ensures found { Finds result (get (spec.hosts_of store.old.content) name.now) store.old
        store.new }
    ensures read { IfOk result (λ host. store.new.is_clean ≡ true
        → IsRead (filter (host_with_name name.now) store.old.content.hosts) host) }
{
    let Some(row) = row_named::<HostRow, S>(store, name)? else {
        return Ok(None);
    };
    Ok(Some(host_of(store, alloc, row)?))
}

/// The host of a row.
fn host_of<S: Alter>(
    store: &mut RowStore<S>,
    alloc: Global,
    row: HostRow,
) -> Result<Host, BookFault>
    ensures { FindsSome result (λ host. spec.host_read store.old.content row ≡ Some host) store.old
        store.new }
{
    let number = number_of(&row);
    let addresses = store.addresses_by_host(number)?;
    let addresses = texts_of(alloc, addresses)?;
    read_host(alloc, row, addresses)
}

pub(crate) fn number_of(row: &HostRow) -> Number
    ensures { result ≡ row.now.id }
{
    Number::new(row.id)
}

pub(crate) fn texts_of(alloc: Global, rows: Seq<AddressRow>) -> Result<Seq<Text>, AllocError>
    ensures { IfOk result (λ texts. texts ≡ spec.texts_of rows) }
{
    let mut texts = Seq::new(alloc);
    for row in rows.into_vec() {
        texts.push(row.address)?;
    }
    Ok(texts)
}

fn read_host(alloc: Global, row: HostRow, addresses: Seq<Text>) -> Result<Host, BookFault>
    ensures { IfOk result (λ host. host_of_columns row addresses ≡ Some host) }
{
    or_fault(host_of_row(alloc, row, addresses)?)
}

/// Whether there is a host of this name.
pub fn has_host<S: Alter>(
    store: &mut RowStore<S>,
    alloc: Global,
    name: &Text,
) -> Result<bool, BookFault>
    ensures { Finds result (is_some (get (spec.hosts_of store.old.content) name.now)) store.old
        store.new }
{
    let host = host(store, alloc, name)?;
    Ok(host.is_some())
}

/// The addresses of the host of this name.
pub fn host_addresses<S: Alter>(
    store: &mut RowStore<S>,
    alloc: Global,
    name: &Text,
) -> Result<Option<Seq<Text>>, BookFault>
    ensures { Finds result (option_map (λ h. h.addresses) (get (spec.hosts_of store.old.content)
        name.now)) store.old store.new }
{
    let host = host(store, alloc, name)?;
    Ok(addresses_in(host))
}

fn addresses_in(host: Option<Host>) -> Option<Seq<Text>>
    ensures { result ≡ option_map (λ h. h.addresses) host }
{
    match host {
        None => None,
        Some(host) => Some(host.addresses),
    }
}
