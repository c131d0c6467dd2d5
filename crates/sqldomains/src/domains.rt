//! Domains, by name.
ghost use Rattle.std.specs.{Prelude.{◌≡◌, true, IfOk, Some, filter}, FinMap.get};
ghost use Rattle.sqlrows.specs.Read.{IsRead};
ghost use Rattle.sqldomains.specs.Domains as spec;
ghost use Rattle.sqltables.specs.Domain.{domain_with_name};
ghost use Rattle.states.specs.States.{Finds, FindsSome};

use crate::links::{links_by, number_of};
use basis::list::Seq;
use basis::text::Text;
use objects::Domain;
use sqlcolumns::domain_of_row;
use sqlite::Alter;
use sqlobjects::{last_transfer, row_named};
use sqlrows::or_fault;
use sqltables::{DomainRow, LinkRow, RowStore, TransferRow};
use states::BookFault;
use std::alloc::Global;

/// The domain of this name.
pub fn domain<S: Alter>(
    store: &mut RowStore<S>,
    alloc: Global,
    name: &Text,
) -> Result<Option<Domain>, BookFault>
    ensures found { Finds result (get (spec.domains_of store.old.content) name.now) store.old
        store.new }
    ensures read { IfOk result (λ domain. store.new.is_clean ≡ true
        → IsRead (filter (domain_with_name name.now) store.old.content.domains) domain) }
{
    let Some(row) = row_named::<DomainRow, S>(store, name)? else {
        return Ok(None);
    };
    Ok(Some(domain_of(store, alloc, row)?))
}

/// The domain of a row.
pub fn domain_of<S: Alter>(
    store: &mut RowStore<S>,
    alloc: Global,
    row: DomainRow,
) -> Result<Domain, BookFault>
    ensures { FindsSome result (λ domain. spec.domain_read store.old.content row ≡ Some domain)
        store.old store.new }
{
    let links = store.links_by_domain(number_of(&row))?;
    let transfers = store.transfers_by_domain(number_of(&row))?;
    domain_by(store, alloc, row, links, transfers)
}

/// The domain of a row, by the rows of its links and those of its transfers.
pub(crate) fn domain_by<S: Alter>(
    store: &mut RowStore<S>,
    alloc: Global,
    row: DomainRow,
    links: Seq<LinkRow>,
    transfers: Seq<TransferRow>,
) -> Result<Domain, BookFault>
    ensures { FindsSome result
        (λ domain. spec.domain_by store.old.content row links transfers ≡ Some domain) store.old
        store.new }
{
    let links = links_by(store, alloc, &row, links)?;
    let transfer = last_transfer(transfers)?;
    or_fault(domain_of_row(alloc, row, links, transfer)?)
}
