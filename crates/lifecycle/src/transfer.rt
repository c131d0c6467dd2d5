//! Transfers of objects between registrars (RFC 5730, 2.9.3.4; RFC 5731, 3.2.4; RFC 5733, 3.2.4).
ghost use Rattle.std.specs.Prelude.{◌≡◌, ◌+◌, ◌<◌};
ghost use Rattle.lifecycle.specs.Lapse.{contact_handed_over, handed_over};
ghost use Rattle.lifecycle.specs.Lapse as lapses;
ghost use Rattle.lifecycle.specs.Transfers as spec;

use crate::period::{capped_end, is_within};
use basis::registrar::RegistrarNo;
use calendar::Moment;
use objects::{Contact, Domain, Transfer, TransferState};
use policy::{Period, Policy};

/// A transfer that a registrar asks for at the moment. It is due once the time to answer is over.
pub fn requested(
    requester: RegistrarNo,
    sponsor: RegistrarNo,
    moment: Moment,
    policy: &Policy,
) -> Transfer
    ensures { result ≡ spec.requested policy.now requester sponsor moment }
{
    Transfer {
        requester,
        losing_registrar: sponsor,
        requested: moment,
        ac_date: capped_end(policy, Period::Answer, moment),
        state: TransferState::Pending,
    }
}

/// The transfer, ended so at the moment.
pub fn ended(state: TransferState, moment: Moment, transfer: &Transfer) -> Transfer
    ensures { result ≡ spec.ended state moment transfer.now }
{
    Transfer {
        requester: transfer.requester,
        losing_registrar: transfer.losing_registrar,
        requested: transfer.requested,
        ac_date: moment,
        state,
    }
}

/// The transfer, approved by the server.
pub(crate) fn approved(transfer: Transfer) -> Transfer
    ensures { result ≡ lapses.approved transfer }
{
    let mut transfer = transfer;
    transfer.state = TransferState::ServerApproved;
    transfer
}

/// Since when a domain is locked.
fn locked_since(transferred: Option<Moment>, created: Moment) -> Moment
    ensures { result ≡ spec.locked_since transferred created }
{
    match transferred {
        None => created,
        Some(transferred) => created.later(transferred),
    }
}

/// Whether the domain can't be transferred yet: it is locked from its creation, and again from the
/// transfer that was completed last.
pub fn is_locked(domain: &Domain, moment: Moment, policy: &Policy) -> bool
    ensures { result ≡ spec.is_locked policy.now moment domain.now }
{
    let since = locked_since(domain.transferred, domain.created);
    is_within(policy, Period::Lock, since, moment)
}

/// The year that a transfer completed at the moment brings (0 or 1), unless the expiry would pass ten
/// years (RFC 5731, 3.2.4).
pub fn gained(domain: &Domain, moment: Moment) -> u32
    ensures value { result ≡ lapses.gained domain.now moment }
    ensures small { domain.now.years + result < 4_294_967_296 }
{
    let _ = moment.secs();
    let Some(years) = domain.years.checked_add(1) else {
        return 0;
    };
    if domain.created.is_later_by(u64::from(years), &moment, 10) {
        0
    } else {
        1
    }
}

/// Makes the requester of an approved transfer the sponsor.
pub(crate) fn take_over(domain: &mut Domain, transfer: Transfer)
    ensures { domain.new ≡ handed_over transfer (lapses.gained domain.old transfer.ac_date)
        domain.old }
{
    let years = gained(domain, transfer.ac_date);
    domain.years += years;
    domain.sponsor = transfer.requester;
    domain.transferred = Some(transfer.ac_date);
    domain.transfer = Some(transfer);
}

/// The same for a contact.
pub(crate) fn take_over_contact(contact: &mut Contact, transfer: Transfer)
    ensures { contact.new ≡ contact_handed_over transfer contact.old }
{
    contact.sponsor = transfer.requester;
    contact.transferred = Some(transfer.ac_date);
    contact.transfer = Some(transfer);
}

/// The domain in the hands of the requester of a transfer that was approved, by whomever.
pub fn hand_over(domain: Domain, transfer: Transfer) -> Domain
    ensures { result ≡ handed_over transfer (lapses.gained domain transfer.ac_date) domain }
{
    let mut domain = domain;
    take_over(&mut domain, transfer);
    domain
}

/// The contact in the hands of the requester of a transfer that was approved, by whomever.
pub fn hand_over_contact(contact: Contact, transfer: Transfer) -> Contact
    ensures { result ≡ contact_handed_over transfer contact }
{
    let mut contact = contact;
    take_over_contact(&mut contact, transfer);
    contact
}
