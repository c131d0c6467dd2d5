//! What transfers change (RFC 5730, 2.9.3.4; RFC 5731 and 5733, 3.2.4).
ghost use Rattle.std.specs.{Prelude.{◌≡◌, ◌∷◌, [], IfOk}, Option.option_copied};
ghost use Rattle.lifecycle.specs.Lapse as lapses;
ghost use Rattle.decisions.specs.Changes.{posting_change};
ghost use Rattle.decisions.specs.Transfers as spec;

use crate::case::Case;
use crate::change::{Change, three, two};
use accounts::{CommandNotice, LapseEntry, Line, LineKind, Subject, TransferRefund, TransferStart};
use basis::registrar::RegistrarNo;
use basis::text::Text;
use lifecycle::{AccountChange, Notification, gained, hand_over, hand_over_contact};
use objects::{Contact, ContactFace, Domain, DomainFace, FullDomain, Roid, Seen, Transfer};
use protocol::TransferOp;
use rules::transfer_after;
use std::alloc::{AllocError, Global};

impl<'a> Case<'a> {
    /// A message to the other side.
    fn tell(
        &self,
        registrar: RegistrarNo,
        notice: CommandNotice,
        name: Text,
        subject: Subject,
    ) -> Change
        ensures { result ≡ spec.tell registrar self.now.moment notice name subject }
    {
        let notification = Notification {
            moment: self.moment,
            notice,
            name,
            subject,
        };
        Change::Post(registrar, AccountChange::Notify(notification))
    }

    /// The contact's transfer is carried on.
    pub(crate) fn transfer_contact(
        &self,
        op: TransferOp,
        seen: Option<&Seen<Contact, ContactFace>>,
    ) -> Result<Vec<Change>, AllocError>
        ensures { IfOk result (λ changes. changes.items ≡ spec.contact_transfer_changes
            self.now.policy.now self.now.caller self.now.moment op (option_copied seen.entry)) }
    {
        let Some(Seen::Full(contact)) = seen else {
            return Ok(Vec::new(self.alloc));
        };
        let (sponsor, last) = (contact.sponsor, contact.transfer);
        let after = transfer_after(op, self.caller, sponsor, last, self.moment, self.policy);
        match after {
            Some(after) => self.contact_transferred(op, after, contact),
            None => Ok(Vec::new(self.alloc)),
        }
    }

    /// A contact whose transfer has this state after the operation.
    fn contact_transferred(
        &self,
        op: TransferOp,
        after: Transfer,
        contact: &Contact,
    ) -> Result<Vec<Change>, AllocError>
        ensures { IfOk result (λ changes. changes.items ≡ spec.contact_transferred self.now.moment
            op after contact.now) }
    {
        let (registrar, notice) = match op {
            TransferOp::Request => (after.losing_registrar, CommandNotice::TransferRequested),
            TransferOp::Query => return Ok(Vec::new(self.alloc)),
            TransferOp::Approve => (after.requester, CommandNotice::TransferApproved),
            TransferOp::Reject => (after.requester, CommandNotice::TransferRejected),
            TransferOp::Cancel => (after.losing_registrar, CommandNotice::TransferCancelled),
        };
        let name = contact.name.clone()?;
        let contact = contact_after(op, after, contact)?;
        let post = self.tell(registrar, notice, name, Subject::Contact);
        two(self.alloc, Change::PutContact(contact), post)
    }

    /// The domain's transfer is carried on.
    pub(crate) fn transfer_domain(
        &self,
        op: TransferOp,
        seen: Option<&Seen<FullDomain, DomainFace>>,
    ) -> Result<Vec<Change>, AllocError>
        ensures { IfOk result (λ changes. changes.items ≡ spec.domain_transfer_changes
            self.now.policy.now self.now.caller self.now.moment op self.now.request.now
            self.now.facts.now (option_copied seen.entry)) }
    {
        let Some(Seen::Full(known)) = seen else {
            return Ok(Vec::new(self.alloc));
        };
        let domain = &known.domain;
        let (sponsor, last) = (domain.sponsor, domain.transfer);
        let after = transfer_after(op, self.caller, sponsor, last, self.moment, self.policy);
        match after {
            Some(after) => self.domain_transferred(op, after, domain),
            None => Ok(Vec::new(self.alloc)),
        }
    }

    /// A domain whose transfer has this state after the operation.
    fn domain_transferred(
        &self,
        op: TransferOp,
        after: Transfer,
        domain: &Domain,
    ) -> Result<Vec<Change>, AllocError>
        ensures { IfOk result (λ changes. changes.items ≡ spec.domain_transferred
            self.now.policy.now self.now.caller self.now.moment op self.now.request.now
            self.now.facts.now after domain.now) }
    {
        let (roid, requester, loser) = (domain.roid, after.requester, after.losing_registrar);
        match op {
            TransferOp::Request => {
                let line = self.line(LineKind::Transfer, roid, None);
                self.domain_requested(line, after, domain)
            }
            TransferOp::Query => Ok(Vec::new(self.alloc)),
            TransferOp::Approve => self.domain_approved(after, domain),
            TransferOp::Reject => {
                let notice = CommandNotice::TransferRejected;
                self.domain_kept(requester, notice, after, domain)
            }
            TransferOp::Cancel => {
                let notice = CommandNotice::TransferCancelled;
                self.domain_kept(loser, notice, after, domain)
            }
        }
    }

    /// A transfer is asked for and charged, and the sponsor gets a message.
    fn domain_requested(
        &self,
        line: Line,
        after: Transfer,
        domain: &Domain,
    ) -> Result<Vec<Change>, AllocError>
        ensures { IfOk result (λ changes. changes.items ≡ Change.PutDomain
            (spec.domain_with_transfer after domain.now) ∷ Change.Post self.now.caller
            (AccountChange.Charge line) ∷ spec.tell after.losing_registrar self.now.moment
            CommandNotice.TransferRequested domain.now.name Subject.Domain ∷ []) }
    {
        let (sponsor, notice) = (after.losing_registrar, CommandNotice::TransferRequested);
        let name = domain.name.clone()?;
        let put = with_transfer(after, domain.clone()?);
        let charge = Change::Post(self.caller, AccountChange::Charge(line));
        let post = self.tell(sponsor, notice, name, Subject::Domain);
        three(self.alloc, put, charge, post)
    }

    /// The sponsor lets the domain go. Its subordinate hosts have its sponsor.
    fn domain_approved(&self, after: Transfer, domain: &Domain) -> Result<Vec<Change>, AllocError>
        ensures { IfOk result (λ changes. changes.items ≡ posting_change (lapses.transfer_start
            after (lapses.gained domain.now after.ac_date) domain.now) ∷ Change.PutDomain
            (lapses.handed_over after (lapses.gained domain.now after.ac_date) domain.now) ∷
            spec.tell after.requester self.now.moment CommandNotice.TransferApproved domain.now.name
            Subject.Domain ∷ []) }
    {
        let requester = after.requester;
        let completed = after.ac_date;
        let start = TransferStart {
            roid: domain.roid,
            moment: completed,
            years: gained(domain, completed),
        };
        let name = domain.name.clone()?;
        let domain = domain.clone()?;
        let begun = Change::Post(requester, AccountChange::Lapse(LapseEntry::Start(start)));
        let put = Change::PutDomain(hand_over(domain, after));
        let notice = CommandNotice::TransferApproved;
        let post = self.tell(requester, notice, name, Subject::Domain);
        three(self.alloc, begun, put, post)
    }

    /// The domain stays, its requester gets its charge back, and a registrar gets a message.
    fn domain_kept(
        &self,
        registrar: RegistrarNo,
        notice: CommandNotice,
        after: Transfer,
        domain: &Domain,
    ) -> Result<Vec<Change>, AllocError>
        ensures { IfOk result (λ changes. changes.items ≡ Change.PutDomain
            (spec.domain_with_transfer after domain.now) ∷ spec.give_back after.requester
            self.now.moment domain.now.roid ∷ spec.tell registrar self.now.moment notice
            domain.now.name Subject.Domain ∷ []) }
    {
        let requester = after.requester;
        let roid = domain.roid;
        let name = domain.name.clone()?;
        let put = with_transfer(after, domain.clone()?);
        let back = self.give_back(requester, roid);
        let post = self.tell(registrar, notice, name, Subject::Domain);
        three(self.alloc, put, back, post)
    }

    /// A registrar gets the charge of a transfer back.
    fn give_back(&self, registrar: RegistrarNo, roid: Roid) -> Change
        ensures { result ≡ spec.give_back registrar self.now.moment roid }
    {
        let refund = TransferRefund {
            roid,
            moment: self.moment,
        };
        Change::Post(registrar, AccountChange::RefundTransfer(refund))
    }
}

fn contact_after(op: TransferOp, after: Transfer, contact: &Contact) -> Result<Contact, AllocError>
    ensures { IfOk result (λ put. put ≡ spec.contact_after op after contact.now) }
{
    let mut contact = contact.copy()?;
    if matches!(op, TransferOp::Approve) {
        return Ok(hand_over_contact(contact, after));
    }
    contact.transfer = Some(after);
    Ok(contact)
}

/// The domain, with this as its last transfer.
fn with_transfer(after: Transfer, domain: Domain) -> Change
    ensures { result ≡ Change.PutDomain (spec.domain_with_transfer after domain) }
{
    let mut domain = domain;
    domain.transfer = Some(after);
    Change::PutDomain(domain)
}
