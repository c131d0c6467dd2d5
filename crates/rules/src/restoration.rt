//! The conditions on a restoration (RFC 3915, 3.1 and 4.2.5).
ghost use Rattle.std.specs.Prelude.{◌≡◌};
ghost use Rattle.objects.specs.Graces.{is_phase};
ghost use Rattle.rules.specs.Conditions as spec;
ghost use Rattle.rules.specs.inner.Cases as words;

use calendar::Moment;
use objects::{Domain, DomainFace, FullDomain, Phase, Seen};

fn phase_seen(seen: &Seen<FullDomain, DomainFace>) -> Phase
    ensures { result ≡ spec.phase_seen seen.now }
{
    match seen {
        Seen::Full(known) => known.standing.phase,
        Seen::TransferParty(face, _) | Seen::Public(face) => face.standing.phase,
    }
}

/// Whether the deletion of the domain has come to the phase.
pub(crate) fn is_in(phase: Phase, seen: Option<&Seen<FullDomain, DomainFace>>) -> bool
    ensures { result ≡ words.is_met (λ it. is_phase (spec.phase_seen it) phase) seen.entry }
{
    seen.is_some_and(|seen| phase_seen(seen).is(phase))
}

/// Whether a moment is reported that isn't the one that is kept.
fn is_another_moment(kept: Option<Moment>, reported: Option<Moment>) -> bool
    ensures { result ≡ spec.is_another_moment kept reported }
{
    match (kept, reported) {
        (_, None) => false,
        (None, Some(_)) => true,
        (Some(kept), Some(reported)) => kept != reported,
    }
}

fn deleted_at(domain: &Domain) -> Option<Moment>
    ensures { result ≡ spec.deleted_at domain.now }
{
    Some(domain.deletion?.deleted)
}

fn restore_requested_at(domain: &Domain) -> Option<Moment>
    ensures { result ≡ spec.restore_requested_at domain.now }
{
    domain.deletion?.restore_requested
}

/// Whether there is a domain, and the report isn't on its deletion, or not on the last request to
/// restore it.
pub(crate) fn report_differs(
    del_time: Option<Moment>,
    res_time: Option<Moment>,
    domain: Option<&Domain>,
) -> bool
    ensures { result ≡ words.is_met (spec.is_another_report del_time res_time) domain.entry }
{
    let Some(domain) = domain else {
        return false;
    };
    is_another_moment(deleted_at(domain), del_time)
        || is_another_moment(restore_requested_at(domain), res_time)
}
