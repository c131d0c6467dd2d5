//! What a command is answered, and what it changes.
ghost use Rattle.std.specs.{Prelude.{◌≡◌, ◌∷◌, [], IfOk, IsOk, OnOk}, Option.option_copied};
ghost use Rattle.decisions.specs.Decisions as spec;
ghost use Rattle.rules.specs.Deletion.{goes_at_once};

use crate::case::Case;
use crate::change::{Change, only, two};
use crate::updated::{deleted_domain, renewed_domain, restored_domain, restoring_domain};
use accounts::LineKind;
use basis::list::Seq;
use basis::registrar::RegistrarNo;
use basis::text::Text;
use calendar::Moment;
use facts::{DomainFacts, Facts};
use lifecycle::{AccountChange, RunningRefund};
use names::RequestedName;
use objects::{Contact, ContactFace, Domain, DomainFace, FullDomain, Host, ObjectKind, Seen};
use policy::Policy;
use protocol::{
    Code, Command, ContactUpdate, DomainUpdate, HostUpdate, NewContact, NewDomain, NewHost, Request,
};
use rules::{Verdict, goes_at_once, judge};
use std::alloc::{AllocError, Global};

/// What a command is answered, and the changes that it makes, in order.
#[derive(Drop)]
pub struct Decision {
    pub verdict: Verdict,
    pub changes: Seq<Change>,
}

/// Decides on a registrar's command at a moment, by the facts that bear on it.
pub fn decide(
    alloc: Global,
    facts: &Facts,
    caller: RegistrarNo,
    command: &Command,
    moment: Moment,
    policy: &Policy,
) -> Result<Decision, AllocError>
    ensures { IfOk result (λ decision. decision ≡ spec.decided policy.now caller moment command.now
        facts.now) }
{
    let verdict = judge(alloc, facts, caller, command, moment, policy)?;
    let code = verdict.code;
    let rest = changes_after(alloc, facts, caller, command, moment, code, policy);
    finish(verdict, with_count(alloc, caller, rest))
}

fn finish(
    verdict: Verdict,
    changes: Result<Vec<Change>, AllocError>,
) -> Result<Decision, AllocError>
    ensures verdict { IfOk result (λ decision. decision.verdict ≡ verdict) }
    ensures changes { IfOk result (λ decision. IfOk changes (λ made. decision.changes
        ≡ made.items)) }
    ensures made { OnOk result (IsOk changes) }
{
    match changes {
        Ok(changes) => Ok(Decision {
            verdict,
            changes: Seq::from_vec(changes),
        }),
        Err(error) => {
            drop(verdict);
            Err(error)
        }
    }
}

/// The changes, after the one that counts the caller's command.
fn with_count(
    alloc: Global,
    caller: RegistrarNo,
    rest: Result<Vec<Change>, AllocError>,
) -> Result<Vec<Change>, AllocError>
    ensures changes { IfOk result (λ changes. IfOk rest (λ rest. changes.items
        ≡ Change.Post caller AccountChange.CountCommand ∷ rest.items)) }
    ensures made { OnOk result (IsOk rest) }
{
    let mut rest = rest?;
    let mut changes = vec![in alloc; Change::Post(caller, AccountChange::CountCommand)]?;
    changes.append(&mut rest)?;
    Ok(changes)
}

/// What a command changes that was answered this code, besides its caller's counter.
#[tactic(auto, unfolding(crate::specs::Decisions::changes_after))]
fn changes_after(
    alloc: Global,
    facts: &Facts,
    caller: RegistrarNo,
    command: &Command,
    moment: Moment,
    answered: Code,
    policy: &Policy,
) -> Result<Vec<Change>, AllocError>
    ensures { IfOk result (λ changes. changes.items ≡ spec.changes_after policy.now caller moment
        command.now facts.now answered) }
{
    match command {
        Command::Asked { request, .. } if answered.is_accepted() => {
            accept(alloc, facts, caller, request, moment, policy)
        }
        _ => Ok(Vec::new(alloc)),
    }
}

/// What an accepted command changes.
#[tactic(auto, unfolding(crate::specs::Decisions::changes_of))]
fn accept(
    alloc: Global,
    facts: &Facts,
    caller: RegistrarNo,
    request: &Request,
    moment: Moment,
    policy: &Policy,
) -> Result<Vec<Change>, AllocError>
    ensures { IfOk result (λ changes. changes.items ≡ spec.changes_of policy.now caller moment
        request.now facts.now) }
{
    let case = Case {
        alloc,
        facts,
        caller,
        moment,
        request,
        policy,
    };
    match request {
        Request::CreateContact(new) => case.create_contact(new),
        Request::CreateDomain(new) => case.create_domain(new),
        Request::CreateHost(new) => case.create_host(new),
        Request::DeleteContact { name } => only(alloc, Change::DropContact(name.clone()?)),
        Request::DeleteDomain { name } => case.delete_domain(facts.domain(name.text())),
        Request::DeleteHost { name } => only(alloc, Change::DropHost(name.text().clone()?)),
        Request::UpdateContact(update) => {
            case.update_contact(update, facts.contact_seen(&update.name))
        }
        Request::UpdateDomain(update) => {
            case.update_domain(update, facts.domain_seen(update.name.text()))
        }
        Request::UpdateHost(update) => {
            case.update_host(update, facts.host_seen(update.name.text()))
        }
        Request::RenewDomain { name, .. } => case.renew_domain(facts.domain_seen(name.text())),
        Request::RequestRestore { name } => case.request_restore(facts.domain_seen(name.text())),
        Request::ReportRestore { name, .. } => case.report_restore(facts.domain_seen(name.text())),
        Request::TransferContact { name, op, .. } => {
            case.transfer_contact(*op, facts.contact_seen(name))
        }
        Request::TransferDomain { name, op, .. } => {
            case.transfer_domain(*op, facts.domain_seen(name.text()))
        }
        Request::PollAck { id } => {
            only(alloc, Change::Post(caller, AccountChange::Ack(id.clone()?)))
        }
        _ => Ok(Vec::new(alloc)),
    }
}

impl<'a> Case<'a> {
    fn create_contact(&self, new: &NewContact) -> Result<Vec<Change>, AllocError>
        ensures { IfOk result (λ changes. changes.items ≡ Change.PutContact (spec.new_contact
            self.now.caller self.now.moment self.now.facts.now new.now) ∷ Change.Post
            self.now.caller AccountChange.TakeSerial ∷ []) }
    {
        let contact = self.new_contact(new)?;
        self.created(Change::PutContact(contact))
    }

    fn create_host(&self, new: &NewHost) -> Result<Vec<Change>, AllocError>
        ensures { IfOk result (λ changes. changes.items ≡ Change.PutHost (spec.new_host
            self.now.policy.now.zone self.now.caller self.now.moment self.now.facts.now new.now) ∷
            Change.Post self.now.caller AccountChange.TakeSerial ∷ []) }
    {
        let host = self.new_host(new)?;
        self.created(Change::PutHost(host))
    }

    /// A new object takes its creator's next number.
    fn created(&self, put: Change) -> Result<Vec<Change>, AllocError>
        ensures { IfOk result (λ changes. changes.items ≡ put
            ∷ Change.Post self.now.caller AccountChange.TakeSerial ∷ []) }
    {
        let serial = Change::Post(self.caller, AccountChange::TakeSerial);
        two(self.alloc, put, serial)
    }

    /// A new domain is charged for.
    fn create_domain(&self, new: &NewDomain) -> Result<Vec<Change>, AllocError>
        ensures { IfOk result (λ changes. changes.items ≡ Change.PutDomain (spec.new_domain
            self.now.caller self.now.moment self.now.facts.now new.now) ∷ Change.Post
            self.now.caller AccountChange.TakeSerial ∷ spec.charge LineKind.Create
            self.now.policy.now self.now.caller self.now.moment (spec.new_roid ObjectKind.Domain
            self.now.caller self.now.facts.now) self.now.request.now self.now.facts.now ∷ []) }
    {
        let roid = self.new_roid(ObjectKind::Domain);
        let domain = self.new_domain(new)?;
        Ok(vec![in self.alloc;
            Change::PutDomain(domain),
            Change::Post(self.caller, AccountChange::TakeSerial),
            self.charge(LineKind::Create, roid),
        ]?)
    }

    /// A domain is deleted, and its sponsor gets back what it was charged in a grace that runs.
    fn delete_domain(&self, known: Option<&DomainFacts>) -> Result<Vec<Change>, AllocError>
        ensures { IfOk result (λ changes. changes.items ≡ spec.deletion_at self.now.caller
            self.now.moment (option_copied known.entry)) }
    {
        let Some(known) = known else {
            return Ok(Vec::new(self.alloc));
        };
        let Some(Seen::Full(full)) = &known.seen else {
            return Ok(Vec::new(self.alloc));
        };
        let ending = ending(known, &full.domain, self.moment)?;
        let refund = RunningRefund::of(&full.domain, self.moment);
        let given = Change::Post(self.caller, AccountChange::RefundRunning(refund));
        two(self.alloc, ending, given)
    }

    /// A domain is registered for longer, and that is charged for.
    fn renew_domain(
        &self,
        seen: Option<&Seen<FullDomain, DomainFace>>,
    ) -> Result<Vec<Change>, AllocError>
        ensures { IfOk result (λ changes. changes.items ≡ spec.renewal_changes self.now.policy.now
            self.now.caller self.now.moment self.now.request.now self.now.facts.now (option_copied
            seen.entry)) }
    {
        let Some(Seen::Full(known)) = seen else {
            return Ok(Vec::new(self.alloc));
        };
        let renewed = renewed_domain(&known.domain, self.request.years(), self.moment)?;
        let line = self.charge(LineKind::Renew, known.domain.roid);
        two(self.alloc, Change::PutDomain(renewed), line)
    }

    /// The restoration of a deleted domain is asked for.
    fn request_restore(
        &self,
        seen: Option<&Seen<FullDomain, DomainFace>>,
    ) -> Result<Vec<Change>, AllocError>
        ensures { IfOk result (λ changes. changes.items
            ≡ spec.restore_changes self.now.moment (option_copied seen.entry)) }
    {
        let Some(Seen::Full(known)) = seen else {
            return Ok(Vec::new(self.alloc));
        };
        let restoring = restoring_domain(&known.domain, self.moment)?;
        only(self.alloc, Change::PutDomain(restoring))
    }

    /// A deleted domain is restored, and charged for the years that it needs.
    fn report_restore(
        &self,
        seen: Option<&Seen<FullDomain, DomainFace>>,
    ) -> Result<Vec<Change>, AllocError>
        ensures { IfOk result (λ changes. changes.items ≡ spec.report_changes self.now.policy.now
            self.now.caller self.now.moment self.now.request.now self.now.facts.now (option_copied
            seen.entry)) }
    {
        let Some(Seen::Full(known)) = seen else {
            return Ok(Vec::new(self.alloc));
        };
        let restored = restored_domain(&known.domain, self.moment)?;
        let line = self.charge(LineKind::Restore, known.domain.roid);
        two(self.alloc, Change::PutDomain(restored), line)
    }

    fn update_contact(
        &self,
        update: &ContactUpdate,
        seen: Option<&Seen<Contact, ContactFace>>,
    ) -> Result<Vec<Change>, AllocError>
        ensures { IfOk result (λ changes. changes.items ≡ spec.contact_changes self.now.moment
            update.now (option_copied seen.entry)) }
    {
        let Some(Seen::Full(contact)) = seen else {
            return Ok(Vec::new(self.alloc));
        };
        let contact = self.updated_contact(update, contact)?;
        only(self.alloc, Change::PutContact(contact))
    }

    fn update_domain(
        &self,
        update: &DomainUpdate,
        seen: Option<&Seen<FullDomain, DomainFace>>,
    ) -> Result<Vec<Change>, AllocError>
        ensures { IfOk result (λ changes. changes.items ≡ spec.domain_changes self.now.moment
            update.now (option_copied seen.entry)) }
    {
        let Some(Seen::Full(known)) = seen else {
            return Ok(Vec::new(self.alloc));
        };
        let domain = self.updated_domain(update, &known.domain)?;
        only(self.alloc, Change::PutDomain(domain))
    }

    fn update_host(
        &self,
        update: &HostUpdate,
        host: Option<&Host>,
    ) -> Result<Vec<Change>, AllocError>
        ensures { IfOk result (λ changes. changes.items ≡ spec.host_changes self.now.policy.now.zone
            self.now.caller self.now.moment update.now (option_copied host.entry)) }
    {
        let Some(host) = host else {
            return Ok(Vec::new(self.alloc));
        };
        let updated = self.updated_host(update, host)?;
        put_host(
            self.alloc,
            update.name.text(),
            updated,
            update.new_name.as_ref(),
        )
    }
}

/// A domain that can be restored first stays.
fn ending(known: &DomainFacts, domain: &Domain, moment: Moment) -> Result<Change, AllocError>
    ensures { IfOk result (λ change. change ≡ spec.ending (goes_at_once known.now.seen) moment
        known.now domain.now) }
{
    if goes_at_once(known.seen.as_ref()) {
        return Ok(Change::DropDomain(known.name.clone()?));
    }
    let deleted = deleted_domain(domain, known.given_back.years, moment)?;
    Ok(Change::PutDomain(deleted))
}

/// A host is put under its name, or goes to it from the one that it had.
fn put_host(
    alloc: Global,
    old: &Text,
    host: Host,
    new_name: Option<&RequestedName>,
) -> Result<Vec<Change>, AllocError>
    ensures { IfOk result (λ changes. changes.items
        ≡ spec.renaming old.now host (option_copied new_name.entry)) }
{
    if new_name.is_none() {
        return only(alloc, Change::PutHost(host));
    }
    let from = old.clone()?;
    only(alloc, Change::RenameHost { from, host })
}
