//! What a zone has of the domains.
ghost use Rattle.std.specs.{Prelude.{◌≡◌, Some, IfOk, filter}, FinMap.{insert, values}};
ghost use Rattle.objects.specs.Delegations.{delegation_of};
ghost use Rattle.sqltables.specs.{Link.link_with_domain, Transfer.transfer_with_domain};
ghost use Rattle.states.specs.States.{Finds, FindsSome};
ghost use Rattle.sqldomains.specs.inner.Delegations as spec;

use crate::domains::domain_by;
use crate::links::number_of;
use basis::list::Seq;
use basis::maps::NameMap;
use objects::{Delegation, Domain};
use sqlite::Alter;
use sqlrows::Number;
use sqltables::{DomainRow, LinkRow, RowStore, TransferRow};
use states::BookFault;
use std::alloc::{AllocError, Global};

/// How many rows of domains are in memory at once.
const AT_ONCE: u32 = 64;

/// What a zone has of each domain, in the order of their names. Each is read for it, a page of rows at a
/// time, so this is for a zone and not for a command.
pub fn delegations<S: Alter>(
    store: &mut RowStore<S>,
    alloc: Global,
) -> Result<Seq<Delegation>, BookFault>
    ensures { Finds result (spec.delegations_of_rows store.old.content) store.old store.new }
{
    store.show_consistent();
    let all = page_by_page(store, alloc)?;
    Ok(listed(alloc, &all)?)
}

/// What a zone has of each domain, by name.
fn page_by_page<S: Alter>(
    store: &mut RowStore<S>,
    alloc: Global,
) -> Result<NameMap<Delegation>, BookFault>
    ensures { FindsSome result (spec.IsAllOfRows store.old.content) store.old store.new }
{
    store.show_consistent();
    let mut all = NameMap::new(alloc);
    let mut page = store.first_domains(AT_ONCE)?;
    'pages: for _ in 0..u64::MAX {
        let Some(ends) = ends_of(page.as_slice()) else {
            return Ok(all);
        };
        let last = ends.1;
        all = with_page(store, alloc, all, ends, page)?;
        page = store.domains_after(last, AT_ONCE)?;
    }
    Err(BookFault::Store)
}

/// The numbers of the first and the last of these rows, if there are any.
fn ends_of(rows: &[DomainRow]) -> Option<(Number, Number)>
    ensures { result ≡ spec.ends_of rows.now }
{
    let first = rows.first()?;
    let last = rows.last()?;
    Some((number_of(first), number_of(last)))
}

/// With that of the domains of these rows, whose first and last numbers these are.
fn with_page<S: Alter>(
    store: &mut RowStore<S>,
    alloc: Global,
    all: NameMap<Delegation>,
    ends: (Number, Number),
    page: Seq<DomainRow>,
) -> Result<NameMap<Delegation>, BookFault>
    ensures { FindsSome result (λ more. spec.with_page store.old.content ends all page ≡ Some more)
        store.old store.new }
{
    let links = store.links_of_domains(ends.0, ends.1)?;
    let transfers = store.transfers_of_domains(ends.0, ends.1)?;
    with_rows(
        store,
        alloc,
        all,
        page,
        links.as_slice(),
        transfers.as_slice(),
    )
}

/// With that of the domains of these rows, whose links and transfers are among these.
fn with_rows<S: Alter>(
    store: &mut RowStore<S>,
    alloc: Global,
    all: NameMap<Delegation>,
    rows: Seq<DomainRow>,
    links: &[LinkRow],
    transfers: &[TransferRow],
) -> Result<NameMap<Delegation>, BookFault>
    ensures { FindsSome result (λ more.
        spec.with_rows store.old.content links.now transfers.now all rows ≡ Some more) store.old
        store.new }
{
    let mut all = all;
    for row in rows.into_vec() {
        all = with_row(store, alloc, all, row, links, transfers)?;
    }
    Ok(all)
}

fn with_row<S: Alter>(
    store: &mut RowStore<S>,
    alloc: Global,
    all: NameMap<Delegation>,
    row: DomainRow,
    links: &[LinkRow],
    transfers: &[TransferRow],
) -> Result<NameMap<Delegation>, BookFault>
    ensures { FindsSome result (λ more.
        spec.with_row store.old.content links.now transfers.now all row ≡ Some more) store.old
        store.new }
{
    let links = links_with(alloc, &row, links)?;
    let transfers = transfers_with(alloc, &row, transfers)?;
    let domain = domain_by(store, alloc, row, links, transfers)?;
    Ok(with_domain(alloc, all, &domain)?)
}

/// Those of these links that belong to a domain.
fn links_with(
    alloc: Global,
    domain: &DomainRow,
    links: &[LinkRow],
) -> Result<Seq<LinkRow>, AllocError>
    ensures { IfOk result (λ own. own ≡ filter (link_with_domain domain.now.id) links.now) }
{
    let mut own = Seq::new(alloc);
    for link in links {
        if link.domain == domain.id {
            own.push(copy_of_link(link))?;
        }
    }
    Ok(own)
}

fn copy_of_link(link: &LinkRow) -> LinkRow
    ensures { result ≡ link.now }
{
    LinkRow {
        id: link.id,
        domain: link.domain,
        contact: link.contact,
        host: link.host,
        role: link.role,
        due: link.due,
    }
}

/// Those of these transfers that belong to a domain.
fn transfers_with(
    alloc: Global,
    domain: &DomainRow,
    transfers: &[TransferRow],
) -> Result<Seq<TransferRow>, AllocError>
    ensures { IfOk result (λ own. own ≡ filter (transfer_with_domain domain.now.id) transfers.now) }
{
    let mut own = Seq::new(alloc);
    for transfer in transfers {
        if transfer.domain == Some(domain.id) {
            own.push(copy_of_transfer(transfer))?;
        }
    }
    Ok(own)
}

fn copy_of_transfer(transfer: &TransferRow) -> TransferRow
    ensures { result ≡ transfer.now }
{
    TransferRow {
        id: transfer.id,
        contact: transfer.contact,
        domain: transfer.domain,
        requester: transfer.requester,
        losing: transfer.losing,
        requested: transfer.requested,
        ac_date: transfer.ac_date,
        due: transfer.due,
        state: transfer.state,
    }
}

fn with_domain(
    alloc: Global,
    all: NameMap<Delegation>,
    domain: &Domain,
) -> Result<NameMap<Delegation>, AllocError>
    ensures { IfOk result (λ more. more ≡ insert all domain.now.name (delegation_of domain.now)) }
{
    let mut all = all;
    all.insert(domain.name.clone()?, domain.delegation(alloc)?)?;
    Ok(all)
}

/// What a zone has, in the order of the names.
fn listed(alloc: Global, all: &NameMap<Delegation>) -> Result<Seq<Delegation>, AllocError>
    ensures { IfOk result (λ list. list ≡ values all.now) }
{
    let mut list = Seq::new(alloc);
    for delegation in all.values() {
        list.push(copied(delegation)?)?;
    }
    Ok(list)
}

fn copied(delegation: &Delegation) -> Result<Delegation, AllocError>
    ensures { IfOk result (λ it. it ≡ delegation.now) }
{
    Ok(Delegation {
        name: delegation.name.clone()?,
        hosts: delegation.hosts.clone()?,
    })
}
