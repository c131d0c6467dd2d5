//! Rows of lines that are looked for.
ghost use Rattle.std.specs.Prelude.{◌≡◌, ◌↔◌, IsTrue, true, None, find, filter, option_map, IfOk, IfSome};
ghost use Rattle.std.specs.Option.{option_copied};
ghost use Rattle.sqlcolumns.specs.Numbers.{is_place};
ghost use Rattle.sqlaccounts.specs.inner.Finding.{IsDomainRoid, is_row_about, is_row_on, reads_as};
ghost use Rattle.sqltables.specs.declared.line.LineRow.{LineRow as Row};
ghost use Rattle.states.specs.States.{Finds};

use crate::account::number_of;
use accounts::Line;
use basis::list::Seq;
use basis::registrar::RegistrarNo;
use objects::{ObjectKind, Roid};
use sqlcolumns::{counter_column, is_roid, line_of_row};
use sqlite::Alter;
use sqlrows::Number;
use sqltables::{LineRow, RowStore};
use states::BookFault;

/// The rows of a registrar's lines on a domain. Another object than a domain is refused.
pub(crate) fn rows_on<S: Alter>(
    store: &mut RowStore<S>,
    registrar: RegistrarNo,
    roid: &Roid,
) -> Result<Seq<LineRow>, BookFault>
    ensures rows { Finds result (filter (is_row_on registrar roid.now) store.old.content.lines)
        store.old store.new }
    ensures place { IfOk result (λ rows. is_place registrar ≡ true) }
    ensures domain { IfOk result (λ rows. IsDomainRoid roid.now) }
{
    if !is_domain_roid(roid) {
        return Err(BookFault::Store);
    }
    let account = number_of(registrar)?;
    let creator = number_of(roid.creator)?;
    let serial = Number::new(counter_column(roid.serial));
    store.lines_by_object(account, creator, serial)
}

/// The rows among which those are that read as a line: of the registrar's lines those on its domain,
/// and all where it has none.
pub(crate) fn rows_about<S: Alter>(
    store: &mut RowStore<S>,
    registrar: RegistrarNo,
    line: &Line,
) -> Result<Seq<LineRow>, BookFault>
    ensures rows { Finds result (filter (is_row_about registrar line.now.roid)
        store.old.content.lines) store.old store.new }
    ensures place { IfOk result (λ rows. is_place registrar ≡ true) }
    ensures domain { IfOk result (λ rows. IfSome line.now.roid IsDomainRoid) }
{
    match &line.roid {
        Some(roid) => rows_on(store, registrar, roid),
        None => rows_of(store, registrar),
    }
}

/// The rows of a registrar's lines.
pub(crate) fn rows_of<S: Alter>(
    store: &mut RowStore<S>,
    registrar: RegistrarNo,
) -> Result<Seq<LineRow>, BookFault>
    ensures rows { Finds result (filter (is_row_about registrar None) store.old.content.lines)
        store.old store.new }
    ensures place { IfOk result (λ rows. is_place registrar ≡ true) }
{
    let account = number_of(registrar)?;
    store.lines_by_account(account)
}

/// Whether an identifier is a domain's, and its creator has a place.
fn is_domain_roid(roid: &Roid) -> bool
    ensures { IsTrue result ↔ IsDomainRoid roid.now }
{
    if roid.kind != ObjectKind::Domain {
        return false;
    }
    is_roid(roid)
}

/// The number of the first of these rows that reads as a line.
pub(crate) fn number_of_line(rows: &[LineRow], line: &Line) -> Option<Number>
    ensures { result ≡ option_map (λ (row : Row). row.id) (find (reads_as line.now) rows.now) }
{
    match first_line(rows, line) {
        Some(row) => Some(Number::new(row.id)),
        None => None,
    }
}

fn first_line<'a>(rows: &'a [LineRow], line: &Line) -> Option<&'a LineRow>
    ensures { option_copied result ≡ find (reads_as line.now) rows.now }
{
    rows.iter().find(|row| reads_as(row, line))
}

/// Whether a row reads as this line.
fn reads_as(row: &LineRow, line: &Line) -> bool
    ensures { result ≡ reads_as line.now row.now }
{
    match line_of_row(row) {
        Some(other) => line.is(&other),
        None => false,
    }
}
