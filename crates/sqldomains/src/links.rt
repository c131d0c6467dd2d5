//! What domains name.
ghost use Rattle.std.specs.Prelude.{◌≡◌, Some, IfOk};
ghost use Rattle.states.specs.States.{FindsSome};
ghost use Rattle.sqldomains.specs.Domains as spec;

use crate::names::{contact_name, host_name};
use crate::placing::placed;
use basis::list::Seq;
use basis::text::Text;
use objects::Links;
use sqlcolumns::{Coded, Role};
use sqlite::Alter;
use sqlrows::{Number, or_fault};
use sqltables::{DomainRow, LinkRow, RowStore};
use states::BookFault;
use std::alloc::{AllocError, Global};

/// What the domain of a row names, by the rows of its links.
pub(crate) fn links_by<S: Alter>(
    store: &mut RowStore<S>,
    alloc: Global,
    row: &DomainRow,
    links: Seq<LinkRow>,
) -> Result<Links, BookFault>
    ensures { FindsSome result (λ all. spec.links_by store.old.content row.now links ≡ Some all)
        store.old store.new }
{
    let registrant = contact_name(store, row.registrant)?;
    let rows = dated(row, links)?;
    with_links(store, registrant_alone(alloc, registrant), rows)
}

/// These rows of a domain's links, if each says when the domain's row is due.
fn dated(row: &DomainRow, rows: Seq<LinkRow>) -> Result<Seq<LinkRow>, BookFault>
    ensures { IfOk result (λ links. spec.dated row.now.due rows ≡ Some links) }
{
    if !are_dated(row, rows.as_slice()) {
        return Err(BookFault::Store);
    }
    Ok(rows)
}

pub(crate) fn are_dated(row: &DomainRow, rows: &[LinkRow]) -> bool
    ensures { result ≡ spec.are_dated row.now.due rows.now }
{
    rows.iter().all(|link| link.due == row.due)
}

pub(crate) fn number_of(row: &DomainRow) -> Number
    ensures { result ≡ row.now.id }
{
    Number::new(row.id)
}

pub(crate) fn due_of(row: &DomainRow) -> Number
    ensures { result ≡ row.now.due }
{
    Number::new(row.due)
}

pub(crate) fn registrant_alone(alloc: Global, registrant: Text) -> Links
    ensures { result ≡ spec.registrant_alone registrant }
{
    Links {
        registrant,
        admin: Seq::new(alloc),
        tech: Seq::new(alloc),
        hosts: Seq::new(alloc),
    }
}

/// With what the rows lead to, in their order.
pub(crate) fn with_links<S: Alter>(
    store: &mut RowStore<S>,
    links: Links,
    rows: Seq<LinkRow>,
) -> Result<Links, BookFault>
    ensures { FindsSome result (λ all. spec.with_links store.old.content links rows ≡ Some all)
        store.old store.new }
{
    let mut links = links;
    for row in rows.into_vec() {
        links = with_link(store, links, row)?;
    }
    Ok(links)
}

/// With what a row leads to.
fn with_link<S: Alter>(
    store: &mut RowStore<S>,
    links: Links,
    row: LinkRow,
) -> Result<Links, BookFault>
    ensures { FindsSome result (λ more. spec.with_link_read store.old.content links row ≡ Some more)
        store.old store.new }
{
    let role = or_fault(Role::of_column(row.role))?;
    let name = linked_name(store, role, row.contact, row.host)?;
    Ok(with_name(links, role, name)?)
}

/// The name of what a row leads to.
fn linked_name<S: Alter>(
    store: &mut RowStore<S>,
    role: Role,
    contact: Option<i64>,
    host: Option<i64>,
) -> Result<Text, BookFault>
    ensures { FindsSome result (λ name. spec.linked_name store.old.content role contact host
        ≡ Some name) store.old store.new }
{
    match (role, contact, host) {
        (Role::Host, None, Some(id)) => host_name(store, id),
        (Role::Admin | Role::Tech, Some(id), None) => contact_name(store, id),
        _ => Err(BookFault::Store),
    }
}

fn with_name(links: Links, role: Role, name: Text) -> Result<Links, AllocError>
    ensures { IfOk result (λ more. more ≡ spec.with_linked_name links role name) }
{
    let mut links = links;
    match role {
        Role::Admin => links.admin.push(name)?,
        Role::Tech => links.tech.push(name)?,
        Role::Host => links.hosts = placed(links.hosts, name)?,
    }
    Ok(links)
}
