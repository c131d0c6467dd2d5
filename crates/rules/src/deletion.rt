//! How the deletion of a domain is answered (RFC 5731, 3.2.2; RFC 3915, 3.1).
ghost use Rattle.std.specs.{Prelude.{◌≡◌, IfOk}, Option.option_copied};
ghost use Rattle.rules.specs.Deletion as spec;
ghost use Rattle.rules.specs.Verdicts.{code_granted};
ghost use Rattle.rules.specs.inner.KnownData as known_data;

use crate::poll::code_of_poll;
use crate::transfer::code_of_transfer;
use facts::{DomainFacts, Facts};
use objects::{DomainFace, FullDomain, Seen};
use protocol::{Code, Data, Deleted, Request};
use std::alloc::AllocError;

/// Whether the domain that is seen is gone once it is deleted, and not restored any more: the grace
/// of its create runs.
pub fn goes_at_once(seen: Option<&Seen<FullDomain, DomainFace>>) -> bool
    ensures { result ≡ spec.goes_at_once (option_copied seen.entry) }
{
    match seen {
        Some(Seen::Full(known)) => known.standing.graces.add,
        _ => false,
    }
}

fn code_of_deletion(seen: Option<&Seen<FullDomain, DomainFace>>) -> Code
    ensures { result ≡ spec.code_of_deletion (option_copied seen.entry) }
{
    if goes_at_once(seen) {
        Code::Completed
    } else {
        Code::CompletedActionPending
    }
}

/// The code of a request that isn't refused.
pub(crate) fn code_granted(request: &Request, facts: &Facts) -> Code
    ensures { result ≡ code_granted request.now facts.now }
{
    match request {
        Request::DeleteDomain { name } => code_of_deletion(facts.domain_seen(name.text())),
        Request::RequestRestore { .. } => Code::CompletedActionPending,
        Request::TransferContact { op, .. } => code_of_transfer(*op),
        Request::TransferDomain { op, .. } => code_of_transfer(*op),
        Request::PollRequest => code_of_poll(&facts.queue.oldest),
        Request::Logout => Code::CompletedEndingSession,
        _ => Code::Completed,
    }
}

/// The data for the sponsor of the domain.
pub(crate) fn deleted_data(known: Option<&DomainFacts>) -> Result<Option<Data>, AllocError>
    ensures { IfOk result (λ content. content ≡ known_data.deleted_data known.entry) }
{
    match known {
        None => Ok(None),
        Some(known) => Ok(Some(Data::Deleted(Deleted {
            name: known.name.clone()?,
            refund: known.given_back.cents,
        }))),
    }
}
