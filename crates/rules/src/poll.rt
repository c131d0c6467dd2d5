//! How a poll is answered (RFC 5730, 2.9.2.3).
ghost use Rattle.std.specs.Prelude.{◌≡◌, IfOk};
ghost use Rattle.rules.specs.Poll as spec;
ghost use Rattle.rules.specs.inner.KnownData as known_data;

use accounts::{CommandNotice, LapseNotice, Origin, Subject};
use facts::{OldestMessage, QueueFacts};
use objects::ObjectKind;
use protocol::{Code, Data, Notice, Polled};
use std::alloc::AllocError;

/// What a message says.
fn notice_of(origin: Origin) -> Notice
    ensures { result ≡ spec.notice_of origin }
{
    match origin {
        Origin::Lapse(LapseNotice::RenewedAutomatically) => Notice::DomainRenewed,
        Origin::Lapse(LapseNotice::Purged) => Notice::DomainPurged,
        Origin::Lapse(LapseNotice::TransferApproved) => Notice::TransferApprovedByServer,
        Origin::Command(_, CommandNotice::TransferRequested) => Notice::TransferRequested,
        Origin::Command(_, CommandNotice::TransferApproved) => Notice::TransferApproved,
        Origin::Command(_, CommandNotice::TransferRejected) => Notice::TransferRejected,
        Origin::Command(_, CommandNotice::TransferCancelled) => Notice::TransferCancelled,
    }
}

fn kind_of(subject: Subject) -> ObjectKind
    ensures { result ≡ spec.kind_of subject }
{
    match subject {
        Subject::Contact => ObjectKind::Contact,
        Subject::Domain => ObjectKind::Domain,
    }
}

/// The code of a poll that shows the oldest message.
pub(crate) fn code_of_poll(oldest: &Option<OldestMessage>) -> Code
    ensures { result ≡ spec.code_of_poll oldest.now }
{
    match oldest {
        None => Code::CompletedNoMessages,
        Some(_) => Code::CompletedAckToDequeue,
    }
}

/// The oldest message, and how many wait.
pub(crate) fn polled_data(queue: &QueueFacts) -> Result<Option<Data>, AllocError>
    ensures { IfOk result (λ content. content ≡ known_data.polled_data queue.now) }
{
    let Some(oldest) = &queue.oldest else {
        return Ok(None);
    };
    let message = &oldest.message;
    let id = oldest.id.clone()?;
    Ok(Some(Data::Polled(Polled {
        id,
        notice: notice_of(message.origin),
        kind: kind_of(message.subject),
        name: message.name.clone()?,
        queued: message.moment,
        count: queue.waiting,
    })))
}

/// How many messages wait once the oldest is taken out.
pub(crate) fn left(queue: &QueueFacts) -> u64
    ensures { result ≡ spec.left queue.now }
{
    queue.waiting.saturating_sub(1)
}
