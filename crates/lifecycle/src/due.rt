//! When an object is due: the earliest moment at which its lapse changes or removes it.
ghost use Rattle.std.specs.Prelude.{◌≡◌, option_and_then};
ghost use Rattle.lifecycle.specs.Lapse as spec;
ghost use Rattle.lifecycle.specs.{Lapse.earlier, Periods.{in_time, passed}};
ghost use Rattle.objects.specs.Domains.{expiry};

use crate::deletion::{purge_at, purged_by};
use calendar::Moment;
use objects::{Contact, Domain, Transfer};
use policy::Policy;

/// The domain's expiry, unless it lies past the last moment.
fn expiry_of(domain: &Domain) -> Option<Moment>
    ensures { result ≡ in_time (expiry domain.now) }
{
    domain.created.plus_years(domain.years).ok()
}

/// When a pending transfer is completed.
fn completes_at(transfer: &Option<Transfer>) -> Option<Moment>
    ensures { result ≡ spec.completes_at transfer.now }
{
    match transfer {
        Some(transfer) if transfer.is_pending() => Some(transfer.ac_date),
        _ => None,
    }
}

/// The earlier of an end that lies past the last moment where there is none, and another.
fn earlier(end: Option<Moment>, other: Moment) -> Moment
    ensures { result ≡ spec.earlier_end end other }
{
    match end {
        None => other,
        Some(end) => end.min(other),
    }
}

/// When a domain is due, unless that lies past the last moment.
pub fn due_at(domain: &Domain, policy: &Policy) -> Option<Moment>
    ensures { result ≡ in_time (spec.due_at policy.now domain.now) }
{
    if let Some(deletion) = &domain.deletion {
        return purge_at(deletion, policy);
    }
    let end = expiry_of(domain);
    let Some(other) = completes_at(&domain.transfer) else {
        return end;
    };
    let _ = (domain.created.secs(), other.secs());
    Some(earlier(end, other))
}

/// When a domain is due, if that is by the moment.
pub fn due_by(domain: &Domain, moment: Moment, policy: &Policy) -> Option<Moment>
    ensures { result ≡ passed moment (spec.due_at policy.now domain.now) }
{
    if let Some(deletion) = &domain.deletion {
        return purged_by(deletion, moment, policy);
    }
    earliest_by(domain, moment)
}

/// The same for a domain that isn't deleted.
fn earliest_by(domain: &Domain, moment: Moment) -> Option<Moment>
    ensures { result
        ≡ passed moment (earlier (expiry domain.now) (spec.completes_at domain.now.transfer)) }
{
    let end = expired_by(domain, moment);
    let Some(other) = completes_at(&domain.transfer) else {
        return end;
    };
    match end {
        None => come(moment, other),
        Some(end) => Some(end.min(other)),
    }
}

/// The moment, if it has come.
fn come(moment: Moment, other: Moment) -> Option<Moment>
    ensures { result ≡ passed moment other }
{
    if moment < other { None } else { Some(other) }
}

/// The domain's expiry, if that is by the moment.
fn expired_by(domain: &Domain, moment: Moment) -> Option<Moment>
    ensures { result ≡ passed moment (expiry domain.now) }
{
    let _ = (domain.created.secs(), moment.secs());
    let end = expiry_of(domain)?;
    come(moment, end)
}

/// When a contact is due, if that is by the moment.
pub fn contact_due_by(contact: &Contact, moment: Moment) -> Option<Moment>
    ensures { result ≡ option_and_then (passed moment) (spec.completes_at contact.now.transfer) }
{
    match completes_at(&contact.transfer) {
        None => None,
        Some(due) => come(moment, due),
    }
}
