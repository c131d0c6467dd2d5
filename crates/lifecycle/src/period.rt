//! Ends of periods.
ghost use Rattle.std.specs.Prelude.{◌≡◌, nat_lt};
ghost use Rattle.calendar.specs.Moment.{capped};
ghost use Rattle.lifecycle.specs.Periods.{end, in_time, rules_with};

use calendar::Moment;
use policy::{Period, Policy, Schedule};

/// The end of a period that begins at a moment, by the length that a schedule has in force then, unless
/// it lies past the last moment.
pub(crate) fn end_in(schedule: &Schedule, period: Period, start: Moment) -> Option<Moment>
    ensures { result ≡ in_time (end period start (rules_with schedule.now)) }
{
    let days = schedule.in_force(start);
    start.plus_days(days.length(period)).ok()
}

/// The end of a period that begins at a moment, unless it lies past the last moment.
pub fn end_of(policy: &Policy, period: Period, start: Moment) -> Option<Moment>
    ensures { result ≡ in_time (end period start policy.now) }
{
    end_in(policy.schedule(), period, start)
}

/// The end of a period that begins at a moment, by the length that a schedule has in force then, or
/// the last moment where that is later.
pub fn end_under(schedule: &Schedule, period: Period, start: Moment) -> Moment
    ensures { result ≡ capped (end period start (rules_with schedule.now)) }
{
    let _ = start.secs();
    let Some(end) = end_in(schedule, period, start) else {
        return Moment::last();
    };
    end
}

/// The end of a period that begins at a moment, or the last moment where that is later.
pub(crate) fn capped_end(policy: &Policy, period: Period, start: Moment) -> Moment
    ensures { result ≡ capped (end period start policy.now) }
{
    end_under(policy.schedule(), period, start)
}

/// Whether a moment lies before the end of a period.
pub fn is_within(policy: &Policy, period: Period, start: Moment, moment: Moment) -> bool
    ensures { result ≡ nat_lt moment (end period start policy.now) }
{
    let _ = (start.secs(), moment.secs());
    match end_of(policy, period, start) {
        Some(end) => moment < end,
        None => true,
    }
}
