//! Tables of lengths that are in force from a moment on.
ghost use Rattle.std.specs.{Prelude.{◌≡◌, true, map, IfOk}, List.{AllByRecursion, list_all}};
ghost use Rattle.toml.specs.View.{view, table_view};
ghost use Rattle.policy.specs.Reading as spec;
ghost use Rattle.policy.specs.{Reading.Gives, Rules.{AreDays, BeginAfter, IsSchedule}};

use crate::days::{LengthTable, days_at, days_in, has_count};
use crate::document::{any_lacks, as_values, get};
use crate::{DatedDays, Key, Period, PolicyFault, Schedule};
use basis::list::Seq;
use calendar::Moment;
use std::alloc::Global;
use toml::{Table, Value};

/// From when on a table is in force, if it says so by a moment's text.
fn from_of(table: &Value) -> Option<Moment>
    ensures { result ≡ spec.from_of (view table.now) }
{
    let text = get(table.as_table()?, Key::DatedFrom.name())?.as_str()?;
    Moment::read(text)
}

/// Whether each table begins after the one before it, and the first after the first moment.
fn begin_in_turn(tables: &[Value]) -> bool
    ensures { result ≡ spec.begin_after 946_684_800 (map view tables.now) }
{
    let mut before = Moment::first();
    for table in tables {
        match from_of(table) {
            Some(from) if from.is_after(before) => before = from,
            _ => return false,
        }
    }
    true
}

/// The fault of when the tables begin, if there is one.
#[tactic(auto, using(crate::proofs::TextLemmas::list_any_of_map), unfolding(crate::specs::Reading::check_begins))]
fn check_begins(tables: &[Value]) -> Result<(), PolicyFault>
    ensures read { Gives (λ done. done) result (spec.check_begins (map view tables.now)) }
    ensures rise { IfOk result (λ done. spec.begin_after 946_684_800 (map view tables.now) ≡ true) }
{
    if any_lacks(tables, Key::DatedFrom) {
        return Err(PolicyFault::Missing(Key::DatedFrom));
    }
    if !begin_in_turn(tables) {
        return Err(PolicyFault::Range(Key::DatedFrom));
    }
    Ok(())
}

fn all_have(tables: &[Value], key: Key) -> bool
    ensures { result ≡ list_all (λ table. spec.has_count key (view table)) tables.now }
{
    tables.iter().all(|table| has_count(table, key))
}

/// The fault of a period's length in all tables, if there is one.
#[tactic(auto, using(crate::proofs::TextLemmas::list_any_of_map, crate::proofs::TextLemmas::list_all_of_map), unfolding(crate::specs::Reading::check_lengths))]
fn check_lengths(tables: &[Value], period: Period) -> Result<(), PolicyFault>
    ensures { Gives (λ done. done) result (spec.check_lengths period (map view tables.now)) }
{
    let key = Key::DatedDays(period);
    if any_lacks(tables, key) {
        return Err(PolicyFault::Missing(key));
    }
    if !all_have(tables, key) {
        return Err(PolicyFault::Range(key));
    }
    Ok(())
}

/// The first fault of the tables, if there is one: each key in turn in all of them.
#[tactic(auto, unfolding(crate::specs::Reading::check_tables))]
fn check_tables(tables: &[Value]) -> Result<(), PolicyFault>
    ensures read { Gives (λ done. done) result (spec.check_tables (map view tables.now)) }
    ensures rise { IfOk result (λ done. spec.begin_after 946_684_800 (map view tables.now) ≡ true) }
{
    check_begins(tables)?;
    check_lengths(tables, Period::Add)?;
    check_lengths(tables, Period::AutoRenew)?;
    check_lengths(tables, Period::Renew)?;
    check_lengths(tables, Period::Transfer)?;
    check_lengths(tables, Period::Redemption)?;
    check_lengths(tables, Period::Restore)?;
    check_lengths(tables, Period::PendingDelete)?;
    check_lengths(tables, Period::Answer)?;
    check_lengths(tables, Period::Lock)
}

/// One table.
#[tactic(auto, unfolding(crate::specs::Reading::dated_in))]
fn dated_in(table: &Value) -> Result<DatedDays, PolicyFault>
    ensures read { Gives (λ dated. dated) result (spec.dated_in (view table.now)) }
    ensures range { IfOk result (λ dated. AreDays dated.days) }
{
    let from = from_of(table).ok_or(PolicyFault::Range(Key::DatedFrom))?;
    let days = days_in(LengthTable::Dated, table)?;
    Ok(DatedDays { from, days })
}

/// The tables one by one.
fn each_dated(alloc: Global, tables: &[Value]) -> Result<Vec<DatedDays>, PolicyFault>
    ensures read { Gives (λ dated. dated.items) result (spec.each_dated (map view tables.now)) }
    ensures range { IfOk result (λ dated. AllByRecursion (λ (table : DatedDays). AreDays table.days)
        dated.items) }
{
    let mut dated = Vec::new(alloc);
    for table in tables {
        dated.push(dated_in(table)?)?;
    }
    Ok(dated)
}

/// The array `days_from`.
fn tables_at(document: &Table) -> Result<&[Value], PolicyFault>
    ensures { Gives (λ tables. map view tables.now) result
        (spec.tables_at (table_view document.now)) }
{
    match get(document, "days_from") {
        Some(value) => as_values(value, Key::DatedFrom),
        None => Ok(&[]),
    }
}

/// The tables of `days_from`; none, where the file has none.
#[tactic(auto, unfolding(crate::specs::Reading::dated_at))]
fn dated_at(alloc: Global, document: &Table) -> Result<Vec<DatedDays>, PolicyFault>
    ensures read { Gives (λ dated. dated.items) result (spec.dated_at (table_view document.now)) }
    ensures range { IfOk result (λ dated. AllByRecursion (λ (table : DatedDays). AreDays table.days)
        dated.items) }
    ensures rise { IfOk result (λ dated. BeginAfter 946_684_800 dated.items) }
{
    let tables = tables_at(document)?;
    check_tables(tables)?;
    each_dated(alloc, tables)
}

/// The table `days`, and the tables of `days_from`.
#[tactic(auto, unfolding(crate::specs::Reading::schedule_at))]
pub(crate) fn schedule_at(alloc: Global, document: &Table) -> Result<Schedule, PolicyFault>
    ensures read { Gives (λ schedule. schedule) result
        (spec.schedule_at (table_view document.now)) }
    ensures range { IfOk result IsSchedule }
{
    let first = days_at(document)?;
    let later = dated_at(alloc, document)?;
    Ok(Schedule {
        first,
        later: Seq::from_vec(later),
    })
}
