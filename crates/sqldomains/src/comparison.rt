//! A domain's rows of links, compared with what it is to name.
ghost use Rattle.std.specs.Prelude.{◌≡◌, true, filter};
ghost use Rattle.sqltables.specs.Link.{link_with_domain};
ghost use Rattle.states.specs.States.{FindsSome};
ghost use Rattle.sqldomains.specs.inner.Stages as spec;

use crate::links::{are_dated, number_of, registrant_alone, with_links};
use basis::list::Seq;
use objects::Links;
use sqlite::Alter;
use sqlobjects::are_same;
use sqltables::{DomainRow, LinkRow, RowStore};
use states::BookFault;
use std::alloc::Global;

/// The rows that lead from a domain, compared with what it is to name.
#[derive(Clone, Copy, Drop)]
pub(crate) enum LinkComparison {
    /// There are none.
    Absent,
    /// They lead to this, and say when the domain is due.
    Same,
    /// They lead to this, but do not all say when the domain is due.
    Misdated,
    /// They lead to something else.
    Different,
}

/// The rows that lead from the domain in this row, compared with what it is to name.
pub(crate) fn compare_links<S: Alter>(
    store: &mut RowStore<S>,
    alloc: Global,
    domain: &DomainRow,
    links: &Links,
) -> Result<LinkComparison, BookFault>
    ensures { FindsSome result (spec.AreCompared store.old.content domain.now.due links.now
        (filter (link_with_domain domain.now.id) store.old.content.links)) store.old store.new }
{
    let number = number_of(domain);
    let rows = store.links_by_domain(number)?;
    compare_rows(store, alloc, domain, links, rows)
}

/// The same of these rows of its links.
fn compare_rows<S: Alter>(
    store: &mut RowStore<S>,
    alloc: Global,
    domain: &DomainRow,
    links: &Links,
    rows: Seq<LinkRow>,
) -> Result<LinkComparison, BookFault>
    ensures { FindsSome result (spec.AreCompared store.old.content domain.now.due links.now rows)
        store.old store.new }
{
    if rows.is_empty() {
        return Ok(LinkComparison::Absent);
    }
    let is_dated = are_dated(domain, rows.as_slice());
    let is_same = lead_to(store, alloc, links, rows)?;
    if !is_same {
        return Ok(LinkComparison::Different);
    }
    if !is_dated {
        return Ok(LinkComparison::Misdated);
    }
    Ok(LinkComparison::Same)
}

/// Whether these rows lead to this.
fn lead_to<S: Alter>(
    store: &mut RowStore<S>,
    alloc: Global,
    links: &Links,
    rows: Seq<LinkRow>,
) -> Result<bool, BookFault>
    ensures { FindsSome result (λ it. it ≡ true → spec.LeadTo store.old.content links.now rows)
        store.old store.new }
{
    let registrant = links.registrant.clone()?;
    let there = with_links(store, registrant_alone(alloc, registrant), rows)?;
    let is_same = are_alike(&there, links);
    drop(there);
    Ok(is_same)
}

fn are_alike(links: &Links, others: &Links) -> bool
    ensures { result ≡ true → links.now ≡ others.now }
{
    links.registrant == others.registrant
        && are_same(links.admin.as_slice(), others.admin.as_slice())
        && are_same(links.tech.as_slice(), others.tech.as_slice())
        && are_same(links.hosts.as_slice(), others.hosts.as_slice())
}
