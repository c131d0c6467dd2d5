//! When the graces that lines begin end (RFC 3915, 3.1).
ghost use Rattle.std.specs.Prelude.{◌≡◌};
ghost use Rattle.sqlaccounts.specs.Graces as spec;

use accounts::Line;
use calendar::Moment;
use lifecycle::{end_under, period_of};
use policy::Schedule;

/// When a line's grace ends, if it begins one, or the last moment where it ends later.
pub fn grace_end(line: &Line, days: &Schedule) -> Option<Moment>
    ensures { result ≡ spec.grace_end days.now line.now }
{
    let period = period_of(line.kind)?;
    let start = line.started?;
    Some(end_under(days, period, start))
}

/// The same where there are lengths of periods.
pub fn maybe_grace_end(line: &Line, days: &Option<Schedule>) -> Option<Moment>
    ensures { result ≡ spec.maybe_grace_end days.now line.now }
{
    match days {
        None => None,
        Some(days) => grace_end(line, days),
    }
}
