//! Whether domains name a contact or a host.
ghost use Rattle.std.specs.Prelude.{◌≡◌, filter, take};
ghost use Rattle.sqlrows.specs.Read.{rows_of};
ghost use Rattle.sqlite_rules.specs.Lists.{Has};
ghost use Rattle.sqltables.specs.Domain.{domain_with_registrant};
ghost use Rattle.sqltables.specs.Link.{link_with_contact, link_with_host};
ghost use Rattle.states.specs.States.{Finds, FindsSome};
ghost use Rattle.objects.specs.Links as links;
ghost use Rattle.sqldomains.specs.inner.Links as spec;

use crate::domains::domain_of;
use basis::text::Text;
use sqlite::Alter;
use sqlobjects::row_named;
use sqlrows::{Number, only};
use sqltables::{ContactRow, DomainRow, HostRow, LinkRow, RowStore};
use states::BookFault;
use std::alloc::Global;

/// Whether a domain names the contact of this name.
pub fn is_linked_contact<S: Alter>(
    store: &mut RowStore<S>,
    alloc: Global,
    name: &Text,
) -> Result<bool, BookFault>
    ensures { Finds result (spec.some_domain_names_contact store.old.content name.now)
        store.old store.new }
{
    store.show_consistent();
    let Some(contact) = row_named::<ContactRow, S>(store, name)? else {
        return Ok(false);
    };
    let Some(row) = use_of_contact(store, &contact)? else {
        return Ok(false);
    };
    naming_contact(store, alloc, row, name)?;
    Ok(true)
}

/// A domain's row, if any row refers to the contact in this row.
fn use_of_contact<S: Alter>(
    store: &mut RowStore<S>,
    contact: &ContactRow,
) -> Result<Option<DomainRow>, BookFault>
    ensures { FindsSome result (spec.IsUseOfContact store.old.content contact.now.id) store.old store.new }
{
    if let Some(row) = registered_by(store, contact)? {
        return Ok(Some(row));
    }
    let Some(link) = link_to_contact(store, contact)? else {
        return Ok(None);
    };
    Ok(Some(domain_at(store, link.domain)?))
}

/// The first domain's row that has the contact as its registrant.
fn registered_by<S: Alter>(
    store: &mut RowStore<S>,
    contact: &ContactRow,
) -> Result<Option<DomainRow>, BookFault>
    ensures { FindsSome result (λ row.
        take 1 (filter (domain_with_registrant contact.now.id) store.old.content.domains)
        ≡ rows_of row) store.old store.new }
{
    let number = Number::new(contact.id);
    let rows = store.first_domains_by_registrant(number)?;
    only(rows)
}

/// The first link to the contact.
fn link_to_contact<S: Alter>(
    store: &mut RowStore<S>,
    contact: &ContactRow,
) -> Result<Option<LinkRow>, BookFault>
    ensures { FindsSome result (λ row.
        take 1 (filter (link_with_contact contact.now.id) store.old.content.links)
        ≡ rows_of row) store.old store.new }
{
    let number = Number::new(contact.id);
    let rows = store.first_links_by_contact(number)?;
    only(rows)
}

/// The domain's row with this number, to which a link belongs.
fn domain_at<S: Alter>(store: &mut RowStore<S>, id: i64) -> Result<DomainRow, BookFault>
    ensures { FindsSome result (λ row. Has store.old.content.domains row) store.old store.new }
{
    let number = Number::new(id);
    let rows = store.domains_by_id(number)?;
    match only(rows)? {
        None => Err(BookFault::Store),
        Some(row) => Ok(row),
    }
}

/// Reads the domain of a row, and refuses one that doesn't name the contact.
fn naming_contact<S: Alter>(
    store: &mut RowStore<S>,
    alloc: Global,
    row: DomainRow,
    name: &Text,
) -> Result<(), BookFault>
    ensures { FindsSome result (λ done. spec.PassesTest store.old.content
        (λ d. links.names_contact name.now d.links) row) store.old store.new }
{
    let domain = domain_of(store, alloc, row)?;
    let is_named = domain.links.names_contact(name);
    drop(domain);
    if !is_named {
        return Err(BookFault::Store);
    }
    Ok(())
}

/// Whether a domain names the host of this name.
pub fn is_linked_host<S: Alter>(
    store: &mut RowStore<S>,
    alloc: Global,
    name: &Text,
) -> Result<bool, BookFault>
    ensures { Finds result (spec.some_domain_names_host store.old.content name.now)
        store.old store.new }
{
    store.show_consistent();
    let Some(host) = row_named::<HostRow, S>(store, name)? else {
        return Ok(false);
    };
    let Some(row) = use_of_host(store, &host)? else {
        return Ok(false);
    };
    naming_host(store, alloc, row, name)?;
    Ok(true)
}

/// A domain's row, if any row refers to the host in this row.
fn use_of_host<S: Alter>(
    store: &mut RowStore<S>,
    host: &HostRow,
) -> Result<Option<DomainRow>, BookFault>
    ensures { FindsSome result (spec.IsUseOfHost store.old.content host.now.id) store.old store.new }
{
    let Some(link) = link_to_host(store, host)? else {
        return Ok(None);
    };
    Ok(Some(domain_at(store, link.domain)?))
}

/// The first link to the host.
fn link_to_host<S: Alter>(
    store: &mut RowStore<S>,
    host: &HostRow,
) -> Result<Option<LinkRow>, BookFault>
    ensures { FindsSome result (λ row.
        take 1 (filter (link_with_host host.now.id) store.old.content.links) ≡ rows_of row)
        store.old store.new }
{
    let number = Number::new(host.id);
    let rows = store.first_links_by_host(number)?;
    only(rows)
}

/// Reads the domain of a row, and refuses one that doesn't name the host.
fn naming_host<S: Alter>(
    store: &mut RowStore<S>,
    alloc: Global,
    row: DomainRow,
    name: &Text,
) -> Result<(), BookFault>
    ensures { FindsSome result (λ done. spec.PassesTest store.old.content
        (λ d. links.names_host name.now d.links) row) store.old store.new }
{
    let domain = domain_of(store, alloc, row)?;
    let is_named = domain.links.names_host(name);
    drop(domain);
    if !is_named {
        return Err(BookFault::Store);
    }
    Ok(())
}
