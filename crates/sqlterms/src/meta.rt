//! The one row of `meta`.
ghost use Rattle.std.specs.Prelude.{◌≡◌, true, IfOk};
ghost use Rattle.calendar.specs.Moment.{IsMoment};
ghost use Rattle.sqlrows.specs.Read.{rows_of};
ghost use Rattle.sqlterms.specs.Meta as spec;
ghost use Rattle.sqlterms.specs.inner.Meta as inner_spec;
ghost use Rattle.states.specs.States.{FindsSome};

use basis::text::Text;
use calendar::Moment;
use policy::Terms;
use sqlite::Alter;
use sqlrows::only;
use sqltables::{MetaRow, RowStore};
use states::BookFault;
use std::alloc::{AllocError, Global};

/// The row, if there is one; more are refused.
pub(crate) fn maybe_meta<S: Alter>(store: &mut RowStore<S>) -> Result<Option<MetaRow>, BookFault>
    ensures { FindsSome result (λ row. store.old.content.metas ≡ rows_of row) store.old store.new }
{
    let rows = store.all_metas()?;
    only(rows)
}

/// The row of a registry without terms, at the first moment.
fn new_meta(alloc: Global) -> MetaRow
    ensures { result ≡ inner_spec.new_meta }
{
    MetaRow {
        id: 1,
        version: 2,
        clock: 946_684_800,
        zone: Text::from_string(String::new(alloc)),
        reserved: Text::from_string(String::new(alloc)),
        days_add: 0,
        days_auto_renew: 0,
        days_renew: 0,
        days_transfer: 0,
        days_redemption: 0,
        days_restore: 0,
        days_pending_delete: 0,
        days_answer: 0,
        days_lock: 0,
        price_create: 0,
        price_renew: 0,
        price_transfer: 0,
    }
}

pub(crate) fn meta_or_new(alloc: Global, meta: Option<MetaRow>) -> MetaRow
    ensures { result ≡ inner_spec.meta_or_new meta }
{
    match meta {
        None => new_meta(alloc),
        Some(row) => row,
    }
}

/// Whether the row says that it is this moment.
pub(crate) fn is_at(meta: &Option<MetaRow>, moment: Moment) -> bool
    ensures { result ≡ true → inner_spec.IsAt moment meta.now }
{
    let secs = moment.secs();
    match meta {
        None => false,
        Some(row) => row.clock == secs,
    }
}

pub(crate) fn with_clock(row: MetaRow, moment: Moment) -> MetaRow
    ensures value { result ≡ inner_spec.with_clock moment row }
    ensures range { IsMoment moment }
{
    let mut row = row;
    // Shows the prover that it is a moment.
    row.clock = moment.secs();
    row
}

/// The row with what it says of terms, and the reserved labels as one text.
pub(crate) fn with_terms(row: MetaRow, terms: &Terms, labels: Text) -> Result<MetaRow, AllocError>
    ensures { IfOk result (λ changed. changed ≡ inner_spec.with_terms_columns terms.now labels row) }
{
    let days = &terms.days.first;
    let prices = &terms.prices;
    Ok(MetaRow {
        id: row.id,
        version: row.version,
        clock: row.clock,
        zone: terms.zone.clone()?,
        reserved: labels,
        days_add: i64::from(days.add),
        days_auto_renew: i64::from(days.auto_renew),
        days_renew: i64::from(days.renew),
        days_transfer: i64::from(days.transfer),
        days_redemption: i64::from(days.redemption),
        days_restore: i64::from(days.restore),
        days_pending_delete: i64::from(days.pending_delete),
        days_answer: i64::from(days.answer),
        days_lock: i64::from(days.lock),
        price_create: i64::from(prices.create),
        price_renew: i64::from(prices.renew),
        price_transfer: i64::from(prices.transfer),
    })
}
