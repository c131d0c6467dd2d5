//! Who sponsors a host, as its row has it.
ghost use Rattle.std.specs.Prelude.{◌≡◌, IfSome};
ghost use Rattle.sqlrows.specs.Read.{rows_of};
ghost use Rattle.sqlobjects.specs.Sponsors as spec;
ghost use Rattle.sqlobjects.specs.inner.Stages.{HasRightSponsor};
ghost use Rattle.states.specs.States.{FindsSome};

use sqlcolumns::is_same;
use sqlite::Alter;
use sqlrows::only;
use sqltables::{DomainRow, HostRow, RowStore};
use states::BookFault;

/// The account that sponsors the domain of this name, if there is one.
pub(crate) fn domain_sponsor<S: Alter>(
    store: &mut RowStore<S>,
    name: &str,
) -> Result<Option<i64>, BookFault>
    ensures { FindsSome result (λ sponsor. sponsor ≡ spec.sponsor_by_name store.old.content name.now)
        store.old store.new }
{
    let rows = store.domains_by_name(name)?;
    let domain = only(rows)?;
    Ok(first_sponsor(domain))
}

fn first_sponsor(domain: Option<DomainRow>) -> Option<i64>
    ensures { result ≡ spec.first_sponsor (rows_of domain) }
{
    match domain {
        None => None,
        Some(domain) => Some(domain.sponsor),
    }
}

/// The account that sponsors the host of a row: outside the zone its own sponsor, or else that of the
/// domain that it lies below, if there is one.
fn sponsor_of<S: Alter>(store: &mut RowStore<S>, row: &HostRow) -> Result<Option<i64>, BookFault>
    ensures { FindsSome result (λ sponsor. sponsor ≡ spec.sponsor_of store.old.content row.now)
        store.old store.new }
{
    if let Some(sponsor) = row.external_sponsor {
        return Ok(Some(sponsor));
    }
    domain_sponsor(store, row.above.as_str())
}

/// The row with who sponsors its host.
pub(crate) fn with_sponsor<S: Alter>(
    store: &mut RowStore<S>,
    row: HostRow,
) -> Result<HostRow, BookFault>
    ensures { FindsSome result (λ right. right
        ≡ record row { sponsor = spec.sponsor_of store.old.content row }) store.old store.new }
{
    let sponsor = sponsor_of(store, &row)?;
    let mut row = row;
    row.sponsor = sponsor;
    Ok(row)
}

/// Refuses a row, if there is one, which has another sponsor.
pub(crate) fn check_sponsor<S: Alter>(
    store: &mut RowStore<S>,
    row: &Option<HostRow>,
) -> Result<(), BookFault>
    ensures { FindsSome result (λ done. IfSome row.now (HasRightSponsor store.old.content)) store.old
        store.new }
{
    match row {
        None => Ok(()),
        Some(row) => check_row(store, row),
    }
}

fn check_row<S: Alter>(store: &mut RowStore<S>, row: &HostRow) -> Result<(), BookFault>
    ensures { FindsSome result (λ done. HasRightSponsor store.old.content row.now) store.old store.new }
{
    let sponsor = sponsor_of(store, row)?;
    if !is_same(row.sponsor, sponsor) {
        return Err(BookFault::Store);
    }
    Ok(())
}
