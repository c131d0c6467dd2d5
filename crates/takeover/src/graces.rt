//! The rows of lines, with the ends of their graces (RFC 3915, 3.1).
ghost use Rattle.std.specs.Prelude.{◌≡◌, map, option_and_then, IfOk};
ghost use Rattle.sqlcolumns.specs.Lines.{line_of_columns};
ghost use Rattle.sqlaccounts.specs.Graces.{grace_end};
ghost use Rattle.takeover.specs.Graces as spec;

use accounts::Line;
use basis::list::Seq;
use calendar::Moment;
use policy::Schedule;
use sqlaccounts::grace_end;
use sqlcolumns::{line_of_row, maybe_moment_column};
use sqltables::LineRow;
use std::alloc::{AllocError, Global};

/// When the grace of a line ends, if there is the line and it begins one.
fn end_if_there(line: Option<Line>, days: &Schedule) -> Option<Moment>
    ensures { result ≡ option_and_then (grace_end days.now) line }
{
    match line {
        None => None,
        Some(line) => grace_end(&line, days),
    }
}

/// The end of the grace of a row's line; none of a row that doesn't read.
fn row_grace_end(row: &LineRow, days: &Schedule) -> Option<Moment>
    ensures { result ≡ option_and_then (grace_end days.now) (line_of_columns row.now) }
{
    end_if_there(line_of_row(row), days)
}

/// The row with the end of its line's grace.
fn with_grace_end(row: LineRow, days: &Schedule) -> LineRow
    ensures { result ≡ spec.with_grace_end days.now row }
{
    let ends = maybe_moment_column(row_grace_end(&row, days));
    let mut row = row;
    row.grace.ends = ends;
    row
}

/// Rows with the ends of their lines' graces.
pub(crate) fn with_grace_ends(
    alloc: Global,
    rows: Seq<LineRow>,
    days: &Schedule,
) -> Result<Seq<LineRow>, AllocError>
    ensures { IfOk result (λ ended. ended ≡ map (spec.with_grace_end days.now) rows) }
{
    let mut ended = Seq::new(alloc);
    for row in rows.into_vec() {
        ended.push(with_grace_end(row, days))?;
    }
    Ok(ended)
}
