//! Lines of accounts as rows.
ghost use Rattle.std.specs.Prelude.{◌≡◌, ◌↔◌, Some, IfSome, IsTrue};
ghost use Rattle.accounts.specs.declared.line.Line.{Line};
ghost use Rattle.sqlcolumns.specs.Lines as spec;
ghost use Rattle.sqlcolumns.specs.inner.Lines as inner_spec;
ghost use Rattle.sqlcolumns.specs.Roids.{IsRoid};

use crate::code::Coded;
use crate::moment::{
    maybe_moment_column, maybe_moment_of_column, moment_column, moment_of_column,
    show_maybe_moment, show_moment,
};
use crate::number::{exact_column, exact_of_column, years_column, years_of_column};
use crate::roid::{is_roid, roid_columns, roid_of_columns};
use accounts::{Line, LineKind};
use objects::{ObjectKind, Roid};
use sqltables::{GraceRow, LineRow};

/// The columns for a domain's ROID, which are NULL of no domain.
#[derive(Clone, Copy, Drop)]
pub(crate) struct DomainColumns {
    pub creator: Option<i64>,
    pub serial: Option<i64>,
}

/// The row of a line, under its number and its account's, with the column for the end of its grace. There
/// is none if the line is on a contact or a host, or its cents are too many.
pub fn line_row(id: i64, account: i64, line: &Line, ends: Option<i64>) -> Option<LineRow>
    ensures { result ≡ inner_spec.row_of_line id account line.now ends }
{
    let domain = domain_columns(&line.roid)?;
    let cents = exact_column(line.cents)?;
    Some(LineRow {
        id,
        account,
        kind: line.kind.column(),
        creator: domain.creator,
        serial: domain.serial,
        recorded: moment_column(line.recorded),
        years: years_column(line.years),
        cents,
        refunded: maybe_moment_column(line.refunded),
        grace: GraceRow {
            started: maybe_moment_column(line.started),
            ends,
        },
    })
}

/// Whether a line's domain, if it has one, has a creator with a place: such a line is read back from its
/// row.
pub fn is_line(line: &Line) -> bool
    ensures { IsTrue result ↔ inner_spec.IsStorableLine line.now }
{
    let _years = line.years;
    show_moment(line.recorded);
    show_maybe_moment(line.started);
    show_maybe_moment(line.refunded);
    has_creator(&line.roid)
}

fn has_creator(roid: &Option<Roid>) -> bool
    ensures { IsTrue result ↔ IfSome roid.now IsRoid }
{
    match roid {
        None => true,
        Some(roid) => is_roid(roid),
    }
}

/// The line of a row, if each column but that of its grace's end reads.
#[tactic(auto, using(crate::proofs::LineLemmas::line_written, crate::proofs::LineLemmas::line_back))]
pub fn line_of_row(row: &LineRow) -> Option<Line>
    ensures value { result ≡ spec.line_of_columns row.now }
    ensures found { IfSome result (λ line. inner_spec.row_of_line row.now.id row.now.account line
        row.now.grace.ends ≡ Some row.now) }
    ensures only { (line : Line) → inner_spec.IsStorableLine line
        → inner_spec.row_of_line row.now.id row.now.account line row.now.grace.ends ≡ Some row.now
        → result ≡ Some line }
{
    Some(Line {
        kind: LineKind::of_column(row.kind)?,
        roid: domain_of_columns(row.creator, row.serial)?,
        recorded: moment_of_column(row.recorded)?,
        years: years_of_column(row.years)?,
        cents: exact_of_column(row.cents)?,
        started: maybe_moment_of_column(row.grace.started)?,
        refunded: maybe_moment_of_column(row.refunded)?,
    })
}

fn domain_columns(roid: &Option<Roid>) -> Option<DomainColumns>
    ensures { result ≡ inner_spec.domain_columns roid.now }
{
    let Some(roid) = roid else {
        return Some(DomainColumns {
            creator: None,
            serial: None,
        });
    };
    let columns = roid_columns(ObjectKind::Domain, roid)?;
    Some(DomainColumns {
        creator: Some(columns.creator),
        serial: Some(columns.serial),
    })
}

/// The domain of two columns, if both are NULL or neither.
fn domain_of_columns(creator: Option<i64>, serial: Option<i64>) -> Option<Option<Roid>>
    ensures { result ≡ spec.maybe_domain_in creator serial }
{
    match (creator, serial) {
        (None, None) => Some(None),
        (Some(creator), Some(serial)) => {
            Some(Some(roid_of_columns(ObjectKind::Domain, creator, serial)?))
        }
        _ => None,
    }
}
