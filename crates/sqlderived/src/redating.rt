//! When deleted domains are due: when they are purged. PendingDelete may begin after the clock, and so
//! under lengths that the book is opened under only later.
ghost use Rattle.std.specs.{Prelude.{◌≡◌, true, false, IfOk, Ok, Err}, List.list_all};
ghost use Rattle.calendar.specs.Moment.{capped};
ghost use Rattle.lifecycle.specs.Periods.{rules_with};
ghost use Rattle.lifecycle.specs.Phases as phases;
ghost use Rattle.sqlderived.specs.Redates as spec;
ghost use Rattle.states.specs.States.{Finds, FindsSome};

use basis::list::Seq;
use basis::text::Text;
use calendar::Moment;
use lifecycle::purged_under;
use objects::Deletion;
use policy::Schedule;
use sqlcolumns::{deletion_of_row, moment_of_column};
use sqlite::Alter;
use sqltables::{DomainRow, RowStore};
use states::BookFault;
use std::alloc::{AllocError, Global};

/// When a deleted domain is purged, by these lengths, or the last moment where that lies past it.
pub fn end_of_deletion(deletion: &Deletion, days: &Schedule) -> Moment
    ensures { result ≡ capped (phases.purge_at (rules_with days.now) deletion.now) }
{
    let last = Moment::last();
    match purged_under(deletion, last, days) {
        None => last,
        Some(moment) => moment,
    }
}

// ---- all columns of deleted domains

/// Refuses a column that isn't the moment when its domain's deletion ends by these lengths.
pub fn ends_are<S: Alter>(store: &mut RowStore<S>, days: &Schedule) -> Result<(), BookFault>
    ensures { FindsSome result (λ done. spec.ends_are days.now store.old.content ≡ true) store.old
        store.new }
{
    let rows = store.all_domains()?;
    if all_timed(rows.as_slice(), days) {
        Ok(())
    } else {
        Err(BookFault::Store)
    }
}

fn all_timed(rows: &[DomainRow], days: &Schedule) -> bool
    ensures { result ≡ list_all (spec.is_timed days.now) rows.now }
{
    rows.iter().all(|row| is_timed(row, days))
}

fn is_timed(row: &DomainRow, days: &Schedule) -> bool
    ensures { result ≡ spec.is_timed days.now row.now }
{
    let Some(due) = moment_of_column(row.due) else {
        return false;
    };
    let Some(Some(deletion)) = deletion_of_row(row) else {
        return true;
    };
    due == end_of_deletion(&deletion, days)
}

// ---- deleted domains

/// The names of deleted domains, by their rows.
pub fn deleted_names<S: Alter>(
    store: &mut RowStore<S>,
    alloc: Global,
) -> Result<Seq<Text>, BookFault>
    ensures { Finds result (spec.deleted_names store.old.content.domains) store.old store.new }
{
    let rows = store.all_domains()?;
    Ok(names_of_deleted(alloc, rows)?)
}

fn names_of_deleted(alloc: Global, rows: Seq<DomainRow>) -> Result<Seq<Text>, AllocError>
    ensures { IfOk result (λ names. names ≡ spec.deleted_names rows) }
{
    let mut names = Seq::new(alloc);
    for row in rows.into_vec() {
        if row.deleted.is_some() {
            names.push(row.name)?;
        }
    }
    Ok(names)
}
