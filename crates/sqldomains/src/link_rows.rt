//! The rows that lead from a domain to what it names.
ghost use Rattle.std.specs.Prelude.{◌≡◌, true, ◌∷◌, [], filter, Some};
ghost use Rattle.states.specs.States.{FindsSome};
ghost use Rattle.sqlrows.specs.Meanings.{Changes};
ghost use Rattle.sqldomains.specs.{Domains.linked_name, inner.Links.name_at};
ghost use Rattle.sqldomains.specs.inner.Stages.{AreCompared, AreDuesSet, AreLinksPut, AreLinksPutOver, AreNamesAdded, IsLinkTo};
ghost use Rattle.sqldomains.specs.declared.comparison.LinkComparison.TheVariants as comparisons;
ghost use Rattle.sqltables.specs.Link.{link_with_domain};

use crate::comparison::{LinkComparison, compare_links};
use crate::links::{due_of, number_of};
use crate::placing::check_places;
use basis::text::Text;
use objects::Links;
use sqlcolumns::{Coded, Role};
use sqlite::Alter;
use sqlobjects::{NamedRow, row_named};
use sqltables::{ContactRow, DomainRow, HostRow, LinkRow, RowStore};
use states::BookFault;
use std::alloc::Global;

/// The domain that lies in this row, which may be new, names this, in place of what it named. Its
/// registrant is in its row.
/// Hosts in another order than that of their names wouldn't be read back and are refused. Rows that
/// lead to this already stay, and get the moment when the domain is due.
pub(crate) fn put_links<S: Alter>(
    store: &mut RowStore<S>,
    alloc: Global,
    domain: &DomainRow,
    links: &Links,
    is_new: bool,
) -> Result<(), BookFault>
    requires { store.old.is_open ≡ true }
    ensures { Changes result (λ old new.
        (is_new ≡ true → filter (link_with_domain domain.now.id) old.links ≡ [])
        → AreLinksPut domain.now.id domain.now.due links.now old new) store.old store.new }
{
    check_places(alloc, links.hosts.as_slice())?;
    let there = compare_or_absent(store, alloc, domain, links, is_new)?;
    put_over(store, domain, links, there)
}

/// How the rows that lead from the domain compare with this: from a new row none leads.
fn compare_or_absent<S: Alter>(
    store: &mut RowStore<S>,
    alloc: Global,
    domain: &DomainRow,
    links: &Links,
    is_new: bool,
) -> Result<LinkComparison, BookFault>
    ensures { FindsSome result (λ there.
        (is_new ≡ true → filter (link_with_domain domain.now.id) store.old.content.links ≡ [])
        → AreCompared store.old.content domain.now.due links.now
        (filter (link_with_domain domain.now.id) store.old.content.links) there) store.old
        store.new }
{
    if is_new {
        return Ok(LinkComparison::Absent);
    }
    compare_links(store, alloc, domain, links)
}

/// The same, given how the rows that lead from the domain compare.
fn put_over<S: Alter>(
    store: &mut RowStore<S>,
    domain: &DomainRow,
    links: &Links,
    there: LinkComparison,
) -> Result<(), BookFault>
    requires { store.old.is_open ≡ true }
    ensures { Changes result (AreLinksPutOver domain.now.id domain.now.due links.now there)
        store.old store.new }
{
    match there {
        LinkComparison::Absent => add_links(store, domain, links),
        LinkComparison::Same => Ok(()),
        LinkComparison::Misdated => set_due(store, domain),
        LinkComparison::Different => replace_links(store, domain, links),
    }
}

/// The domain, from which nothing leads, names this.
fn add_links<S: Alter>(
    store: &mut RowStore<S>,
    domain: &DomainRow,
    links: &Links,
) -> Result<(), BookFault>
    requires { store.old.is_open ≡ true }
    ensures { Changes result (AreLinksPutOver domain.now.id domain.now.due links.now
        comparisons.Absent) store.old store.new }
{
    add_names(store, domain, Role::Admin, links.admin.as_slice())?;
    add_names(store, domain, Role::Tech, links.tech.as_slice())?;
    add_names(store, domain, Role::Host, links.hosts.as_slice())?;
    Ok(())
}

/// The rows that lead from the domain say when it is due.
fn set_due<S: Alter>(store: &mut RowStore<S>, domain: &DomainRow) -> Result<(), BookFault>
    requires { store.old.is_open ≡ true }
    ensures { Changes result (AreDuesSet domain.now.id domain.now.due) store.old store.new }
{
    store.update_links_due(number_of(domain), due_of(domain))?;
    Ok(())
}

/// The domain names this in place of what it named.
fn replace_links<S: Alter>(
    store: &mut RowStore<S>,
    domain: &DomainRow,
    links: &Links,
) -> Result<(), BookFault>
    requires { store.old.is_open ≡ true }
    ensures { Changes result (AreLinksPutOver domain.now.id domain.now.due links.now
        comparisons.Different) store.old store.new }
{
    store.remove_links_by_domain(number_of(domain))?;
    add_links(store, domain, links)?;
    Ok(())
}

/// The domain names these besides, in a role, one after another.
fn add_names<S: Alter>(
    store: &mut RowStore<S>,
    domain: &DomainRow,
    role: Role,
    names: &[Text],
) -> Result<(), BookFault>
    requires { store.old.is_open ≡ true }
    ensures { Changes result (AreNamesAdded domain.now.id domain.now.due role names.now) store.old
        store.new }
{
    for name in names {
        add_name(store, domain, role, name)?;
    }
    Ok(())
}

/// The domain names one thing more. A name that nothing has is refused.
fn add_name<S: Alter>(
    store: &mut RowStore<S>,
    domain: &DomainRow,
    role: Role,
    name: &Text,
) -> Result<(), BookFault>
    requires { store.old.is_open ≡ true }
    ensures { Changes result (AreNamesAdded domain.now.id domain.now.due role (name.now ∷ []))
        store.old store.new }
{
    let row = row_to(store, domain, role, name)?;
    store.append_link(&row)?;
    Ok(())
}

/// The row that leads to what has this name, but for its number.
fn row_to<S: Alter>(
    store: &mut RowStore<S>,
    domain: &DomainRow,
    role: Role,
    name: &Text,
) -> Result<LinkRow, BookFault>
    ensures { FindsSome result (IsLinkTo store.old.content domain.now.id domain.now.due role
        name.now) store.old store.new }
{
    let (contact, host) = numbers_of(store, role, name)?;
    Ok(LinkRow {
        id: 0,
        domain: domain.id,
        contact,
        host,
        role: role.column(),
        due: domain.due,
    })
}

/// The number of what has this name, as the columns of a contact and of a host have it.
fn numbers_of<S: Alter>(
    store: &mut RowStore<S>,
    role: Role,
    name: &Text,
) -> Result<(Option<i64>, Option<i64>), BookFault>
    ensures { FindsSome result (λ at. linked_name store.old.content role at.0 at.1 ≡ Some name.now)
        store.old store.new }
{
    match role {
        Role::Host => Ok((None, Some(number_there::<HostRow, S>(store, name)?))),
        Role::Admin | Role::Tech => Ok((Some(number_there::<ContactRow, S>(store, name)?), None)),
    }
}

/// The number of the row of this name, which has to be there.
pub(crate) fn number_there<R: NamedRow, S: Alter>(
    store: &mut RowStore<S>,
    name: &Text,
) -> Result<i64, BookFault>
    ensures { FindsSome result (λ id. name_at R.table store.old.content id ≡ Some name.now)
        store.old store.new }
{
    store.show_consistent();
    match row_named::<R, S>(store, name)? {
        None => Err(BookFault::Store),
        Some(row) => Ok(row.id()),
    }
}
