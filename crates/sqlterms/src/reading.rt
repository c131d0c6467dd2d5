//! The clock and the terms.
ghost use Rattle.std.specs.Prelude.{◌≡◌, true, is_some, Some, IfOk};
ghost use Rattle.sqlterms.specs.Clock.{clock_of};
ghost use Rattle.sqlterms.specs.Terms as spec;
ghost use Rattle.states.specs.States.{Finds, FindsSome};

use crate::counts::{days_of, prices_of};
use crate::dated::all_dated;
use crate::ids::ids_of;
use crate::labels::reserved_of_column;
use crate::meta::maybe_meta;
use basis::list::Seq;
use basis::sets::NameSet;
use basis::text::Text;
use calendar::Moment;
use policy::{DatedDays, Days, Prices, Schedule, Terms};
use sqlcolumns::moment_of_column;
use sqlite::Alter;
use sqlrows::or_fault;
use sqltables::{MetaRow, RowStore};
use states::BookFault;
use std::alloc::Global;

/// The latest moment that was seen; the first moment in a registry that was never opened.
pub fn clock<S: Alter>(store: &mut RowStore<S>) -> Result<Moment, BookFault>
    ensures { Finds result (clock_of store.old.content) store.old store.new }
{
    match maybe_meta(store)? {
        None => Ok(Moment::first()),
        Some(row) => or_fault(moment_of_column(row.clock)),
    }
}

/// The lengths of periods over time, if the registry was opened. Columns that are none are refused.
pub fn days<S: Alter>(store: &mut RowStore<S>, alloc: Global) -> Result<Option<Schedule>, BookFault>
    ensures found { Finds result (spec.days_of_rows store.old.content) store.old store.new }
    ensures all { IfOk result (λ days. store.new.is_clean ≡ true
        → is_some days ≡ spec.has_terms store.old.content) }
{
    let Some(row) = maybe_meta(store)? else {
        return Ok(None);
    };
    if row.zone.as_str().is_empty() {
        return Ok(None);
    }
    let days = or_fault(schedule_at(store, alloc, &row)?)?;
    Ok(Some(days))
}

/// The lengths of periods over time of a row and the rows of `days`, if each reads.
fn schedule_at<S: Alter>(
    store: &mut RowStore<S>,
    alloc: Global,
    row: &MetaRow,
) -> Result<Option<Schedule>, BookFault>
    ensures { Finds result (spec.schedule_in row.now store.old.content.days) store.old store.new }
{
    let tables = store.all_days()?;
    let later = all_dated(alloc, tables.as_slice())?;
    Ok(schedule_made(days_of(row), later))
}

/// The lengths of periods over time, of these parts, if both are there.
fn schedule_made(first: Option<Days>, later: Option<Seq<DatedDays>>) -> Option<Schedule>
    ensures { result ≡ spec.schedule_made first later }
{
    let first = first?;
    let later = later?;
    Some(Schedule { first, later })
}

/// The terms that the registry is used under, if it was opened. What doesn't read as terms is refused.
pub fn terms<S: Alter>(store: &mut RowStore<S>, alloc: Global) -> Result<Option<Terms>, BookFault>
    ensures found { Finds result (spec.terms_of_rows store.old.content) store.old store.new }
    ensures all { IfOk result (λ terms. store.new.is_clean ≡ true
        → is_some terms ≡ spec.has_terms store.old.content) }
{
    let Some(row) = maybe_meta(store)? else {
        return Ok(None);
    };
    if row.zone.as_str().is_empty() {
        return Ok(None);
    }
    let terms = terms_at(store, alloc, &row)?;
    Ok(Some(terms))
}

/// The terms of a row with a zone, and of the rows of `days` and of accounts. What doesn't read as terms is
/// refused.
fn terms_at<S: Alter>(
    store: &mut RowStore<S>,
    alloc: Global,
    row: &MetaRow,
) -> Result<Terms, BookFault>
    ensures { FindsSome result (λ terms. spec.terms_made row.now.zone
        (spec.reserved_in row.now.reserved) (spec.schedule_in row.now store.old.content.days)
        (spec.prices_in row.now) (spec.ids_in store.old.content.accounts) ≡ Some terms) store.old
        store.new }
{
    let days = schedule_at(store, alloc, row)?;
    let accounts = store.all_accounts()?;
    let ids = ids_of(alloc, accounts.as_slice())?;
    terms_of_row(alloc, row, days, ids)
}

/// The terms of a row, with these days and ids; a row that doesn't read is refused.
fn terms_of_row(
    alloc: Global,
    row: &MetaRow,
    days: Option<Schedule>,
    ids: Seq<Text>,
) -> Result<Terms, BookFault>
    ensures { IfOk result (λ terms. spec.terms_made row.now.zone (spec.reserved_in row.now.reserved)
        days (spec.prices_in row.now) (Some ids) ≡ Some terms) }
{
    let zone = row.zone.clone()?;
    let reserved = reserved_of_column(alloc, row.reserved.as_str())?;
    or_fault(terms_made(zone, reserved, days, prices_of(row), Some(ids)))
}

/// The terms of these parts, if all are there.
fn terms_made(
    zone: Text,
    reserved: NameSet,
    days: Option<Schedule>,
    prices: Option<Prices>,
    ids: Option<Seq<Text>>,
) -> Option<Terms>
    ensures { result ≡ spec.terms_made zone reserved days prices ids }
{
    let days = days?;
    let prices = prices?;
    let ids = ids?;
    Some(Terms {
        zone,
        reserved,
        days,
        prices,
        ids,
    })
}
