//! Transfers of contacts and domains: the conditions on them, and the state of the last one after an
//! operation on it (RFC 5730, 2.9.2.4 and 2.9.3.4).
ghost use Rattle.std.specs.Prelude.{◌≡◌, IfOk, is_none, option_and_then, option_map};
ghost use Rattle.std.specs.Option.{option_copied};
ghost use Rattle.lifecycle.specs.Transfers.{ended};
ghost use Rattle.objects.specs.Transfers as transfers;
ghost use Rattle.protocol.specs.Requests.{holds_of};
ghost use Rattle.rules.specs.Conditions as conditions;
ghost use Rattle.rules.specs.ResponseData.{transferred_data};
ghost use Rattle.rules.specs.inner.Cases.{in_case, of_caller};
ghost use Rattle.rules.specs.Transfers as spec;

use crate::case::{Case, full_domain};
use crate::conditions::{Faced, Sponsored, is_authorized, is_sponsored};
use crate::response::transfer_info_of;
use basis::registrar::RegistrarNo;
use basis::text::Text;
use calendar::Moment;
use lifecycle::{ended, is_locked, requested};
use objects::{Seen, Transfer, TransferState};
use policy::Policy;
use protocol::{Code, Data, TransferOp, Transferred};
use std::alloc::{AllocError, Global};

// ---- how the last transfer stands afterwards

fn ended_of(state: TransferState, moment: Moment, last: Option<Transfer>) -> Option<Transfer>
    ensures { result ≡ option_map (ended state moment) last }
{
    Some(ended(state, moment, &last?))
}

/// The last transfer of an object after a registrar's operation on it at the moment. The
/// object has the sponsor.
pub fn transfer_after(
    op: TransferOp,
    caller: RegistrarNo,
    sponsor: RegistrarNo,
    last: Option<Transfer>,
    moment: Moment,
    policy: &Policy,
) -> Option<Transfer>
    ensures { result ≡ spec.transfer_after policy.now caller moment op sponsor last }
{
    match op {
        TransferOp::Request => Some(requested(caller, sponsor, moment, policy)),
        TransferOp::Query => last,
        TransferOp::Approve => ended_of(TransferState::ClientApproved, moment, last),
        TransferOp::Reject => ended_of(TransferState::ClientRejected, moment, last),
        TransferOp::Cancel => ended_of(TransferState::ClientCancelled, moment, last),
    }
}

/// The last transfer of what is seen.
fn last_seen<O: Sponsored, F>(seen: Option<&Seen<O, F>>) -> Option<Transfer>
    ensures { result ≡ option_and_then (conditions.last_seen O.transfer)
        (option_copied seen.entry) }
{
    match seen {
        Some(Seen::Full(object)) => object.last_transfer(),
        Some(Seen::TransferParty(_, transfer)) => Some(*transfer),
        _ => None,
    }
}

fn sponsor_seen<O: Sponsored, F: Faced>(seen: &Seen<O, F>) -> RegistrarNo
    ensures { result ≡ spec.sponsor_seen O.sponsor F.sponsor seen.now }
{
    match seen {
        Seen::Full(object) => object.sponsored_by(),
        Seen::TransferParty(face, _) | Seen::Public(face) => face.sponsored_by(),
    }
}

/// The last transfer of what is seen after the caller's operation.
pub(crate) fn seen_after<O: Sponsored, F: Faced>(
    op: TransferOp,
    caller: RegistrarNo,
    seen: Option<&Seen<O, F>>,
    moment: Moment,
    policy: &Policy,
) -> Option<Transfer>
    ensures { result ≡ option_and_then (spec.seen_after O.sponsor F.sponsor O.transfer policy.now
        caller moment op) (option_copied seen.entry) }
{
    let it = seen?;
    let (sponsor, last) = (sponsor_seen(it), last_seen(seen));
    transfer_after(op, caller, sponsor, last, moment, policy)
}

// ---- what is answered

/// The code of an operation that isn't refused.
pub(crate) fn code_of_transfer(op: TransferOp) -> Code
    ensures { result ≡ spec.code_of_transfer op }
{
    if op.is_request() {
        Code::CompletedActionPending
    } else {
        Code::Completed
    }
}

/// The charge, in whole cents, where it is made.
pub(crate) fn charge_shown(op: TransferOp, charge: u64) -> Option<u64>
    ensures { result ≡ spec.charge_shown op charge }
{
    if op.is_request() { Some(charge) } else { None }
}

/// The state of the transfer, if there is one.
pub(crate) fn transferred_data(
    alloc: Global,
    policy: &Policy,
    name: &Text,
    charge: Option<u64>,
    after: Option<Transfer>,
) -> Result<Option<Data>, AllocError>
    ensures { IfOk result (λ it. it ≡ transferred_data policy.now name.now charge after) }
{
    let Some(transfer) = after else {
        return Ok(None);
    };
    let name = name.clone()?;
    Ok(Some(Data::Transferred(Transferred {
        name,
        transfer: transfer_info_of(alloc, policy, transfer)?,
        charge,
    })))
}

// ---- the conditions

impl Case<'_> {
    fn transfer(&self) -> Option<Transfer>
        ensures { result ≡ in_case conditions.the_transfer self.now }
    {
        match last_seen(self.contact()) {
            Some(transfer) => Some(transfer),
            None => last_seen(self.domain()),
        }
    }

    /// Whether the caller sponsors the object.
    pub(crate) fn sponsors(&self) -> bool
        ensures { result ≡ of_caller conditions.sponsors self.now }
    {
        is_sponsored(self.caller, self.contact()) || is_sponsored(self.caller, self.domain())
    }

    fn is_named(&self) -> bool
        ensures { result ≡ of_caller (λ r q f. holds_of (transfers.names r)
            (conditions.the_transfer q f)) self.now }
    {
        match self.transfer() {
            None => false,
            Some(transfer) => transfer.names(self.caller),
        }
    }

    fn is_involved(&self) -> bool
        ensures { result ≡ of_caller conditions.is_involved self.now }
    {
        self.sponsors() || self.is_named()
    }

    pub(crate) fn presents_secret(&self) -> bool
        ensures { result ≡ in_case conditions.presents_secret self.now }
    {
        is_authorized(self.request.secret(), self.contact())
            || is_authorized(self.request.secret(), self.domain())
    }

    pub(crate) fn is_stranger(&self) -> bool
        ensures { result ≡ of_caller conditions.is_stranger self.now }
    {
        !self.is_involved() && self.request.secret().is_none()
    }

    pub(crate) fn strangers_secret_is_wrong(&self) -> bool
        ensures { result ≡ of_caller conditions.strangers_secret_is_wrong self.now }
    {
        !self.is_involved() && self.request.secret().is_some() && !self.presents_secret()
    }

    /// Whether the caller asked for the last transfer.
    pub(crate) fn is_requester(&self) -> bool
        ensures { result ≡ of_caller conditions.is_requester self.now }
    {
        match self.transfer() {
            None => false,
            Some(transfer) => transfer.requester == self.caller,
        }
    }

    pub(crate) fn has_no_transfer(&self) -> bool
        ensures { result ≡ is_none (in_case conditions.the_transfer self.now) }
    {
        self.transfer().is_none()
    }

    pub(crate) fn transfer_is_pending(&self) -> bool
        ensures { result ≡ in_case conditions.transfer_is_pending self.now }
    {
        self.transfer()
            .is_some_and(|transfer| transfer.is_pending())
    }

    pub(crate) fn domain_is_locked(&self) -> bool
        ensures { result
            ≡ in_case (conditions.domain_is_locked self.now.policy.now self.now.moment) self.now }
    {
        match full_domain(self.domain()) {
            None => false,
            Some(domain) => is_locked(domain, self.moment, self.policy),
        }
    }
}
