//! Phases of a deleted domain (RFC 3915, 3.1).
ghost use Rattle.std.specs.Prelude.{◌≡◌};
ghost use Rattle.lifecycle.specs.Phases as spec;
ghost use Rattle.lifecycle.specs.Periods.{in_time, passed, rules_with};

use crate::period::{end_in, is_within};
use calendar::Moment;
use objects::{Deletion, Domain, Phase};
use policy::{Period, Policy, Schedule};

/// When a deleted domain is purged, by the lengths of a schedule, unless that lies past the last
/// moment.
fn purge_under(deletion: &Deletion, schedule: &Schedule) -> Option<Moment>
    ensures { result ≡ in_time (spec.purge_at (rules_with schedule.now) deletion.now) }
{
    let _ = deletion.deleted.secs();
    let redeemed = end_in(schedule, Period::Redemption, deletion.deleted)?;
    let Some(requested) = deletion.restore_requested else {
        return end_in(schedule, Period::PendingDelete, redeemed);
    };
    let _ = requested.secs();
    let restored = end_in(schedule, Period::Restore, requested)?;
    end_in(schedule, Period::PendingDelete, redeemed.max(restored))
}

/// When a deleted domain is purged, unless that lies past the last moment.
pub(crate) fn purge_at(deletion: &Deletion, policy: &Policy) -> Option<Moment>
    ensures { result ≡ in_time (spec.purge_at policy.now deletion.now) }
{
    purge_under(deletion, policy.schedule())
}

/// When a deleted domain is purged, by the lengths of a schedule, if that is by the moment.
pub fn purged_under(deletion: &Deletion, moment: Moment, schedule: &Schedule) -> Option<Moment>
    ensures { result ≡ passed moment (spec.purge_at (rules_with schedule.now) deletion.now) }
{
    let _ = (moment.secs(), deletion.deleted.secs());
    let end = purge_under(deletion, schedule)?;
    if moment < end { None } else { Some(end) }
}

/// When a deleted domain is purged, if that is by the moment.
pub(crate) fn purged_by(deletion: &Deletion, moment: Moment, policy: &Policy) -> Option<Moment>
    ensures { result ≡ passed moment (spec.purge_at policy.now deletion.now) }
{
    purged_under(deletion, moment, policy.schedule())
}

/// Whether the report on a requested restoration is awaited.
fn is_restoring(deletion: &Deletion, moment: Moment, policy: &Policy) -> bool
    ensures { result ≡ spec.is_under moment (spec.restore_end policy.now deletion.now) }
{
    let Some(requested) = deletion.restore_requested else {
        return false;
    };
    is_within(policy, Period::Restore, requested, moment)
}

/// The phase of a domain at a moment.
pub fn phase(domain: &Domain, moment: Moment, policy: &Policy) -> Phase
    ensures { result ≡ spec.phase policy.now moment domain.now }
{
    let Some(deletion) = &domain.deletion else {
        return Phase::Live;
    };
    if is_restoring(deletion, moment, policy) {
        return Phase::Restoring;
    }
    if is_within(policy, Period::Redemption, deletion.deleted, moment) {
        return Phase::Redemption;
    }
    if purged_by(deletion, moment, policy).is_none() {
        Phase::Deleting
    } else {
        Phase::Gone
    }
}
