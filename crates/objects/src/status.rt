//! Statuses of objects (RFC 5731, 2.3; RFC 5732, 2.3; RFC 5733, 2.2) and the states of grace
//! (RFC 3915, 3.1), each in the order of its text's bytes.

ghost use Rattle.std.specs.Prelude.{◌≡◌, ◌&&◌, ◌||◌, not, filter, IfOk};
ghost use Rattle.objects.specs.StatusTexts.{status_named, status_text, rgp_text};
ghost use Rattle.objects.specs.Statuses.{rank_of, is_status, has_status};
ghost use Rattle.objects.specs.Statuses as spec;

use crate::roid::ObjectKind;
use basis::list::Seq;
use std::alloc::{AllocError, Global};

/// A status of an object. Those that begin with `Client` are set by the sponsor, those with `Server`
/// by the operator; the others follow from the object.
#[derive(Clone, Copy, Debug, PartialEq, Eq, Drop)]
pub enum Status {
    ClientDeleteProhibited,
    ClientHold,
    ClientRenewProhibited,
    ClientTransferProhibited,
    ClientUpdateProhibited,
    Inactive,
    Linked,
    Fine,
    PendingDelete,
    PendingTransfer,
    ServerDeleteProhibited,
    ServerHold,
    ServerRenewProhibited,
    ServerTransferProhibited,
    ServerUpdateProhibited,
}

/// The statuses in the order of their texts' bytes.
pub(crate) const ALL: [Status; 15] = [
    Status::ClientDeleteProhibited,
    Status::ClientHold,
    Status::ClientRenewProhibited,
    Status::ClientTransferProhibited,
    Status::ClientUpdateProhibited,
    Status::Inactive,
    Status::Linked,
    Status::Fine,
    Status::PendingDelete,
    Status::PendingTransfer,
    Status::ServerDeleteProhibited,
    Status::ServerHold,
    Status::ServerRenewProhibited,
    Status::ServerTransferProhibited,
    Status::ServerUpdateProhibited,
];

impl Status {
    /// The place of the status in that order.
    pub(crate) fn rank(self) -> u8
        ensures { result ≡ rank_of self }
    {
        match self {
            Status::ClientDeleteProhibited => 0,
            Status::ClientHold => 1,
            Status::ClientRenewProhibited => 2,
            Status::ClientTransferProhibited => 3,
            Status::ClientUpdateProhibited => 4,
            Status::Inactive => 5,
            Status::Linked => 6,
            Status::Fine => 7,
            Status::PendingDelete => 8,
            Status::PendingTransfer => 9,
            Status::ServerDeleteProhibited => 10,
            Status::ServerHold => 11,
            Status::ServerRenewProhibited => 12,
            Status::ServerTransferProhibited => 13,
            Status::ServerUpdateProhibited => 14,
        }
    }

    /// The status as replies show it.
    pub fn text(self) -> &'static str
        ensures { result.now ≡ status_text self }
    {
        match self {
            Status::ClientDeleteProhibited => "clientDeleteProhibited",
            Status::ClientHold => "clientHold",
            Status::ClientRenewProhibited => "clientRenewProhibited",
            Status::ClientTransferProhibited => "clientTransferProhibited",
            Status::ClientUpdateProhibited => "clientUpdateProhibited",
            Status::Inactive => "inactive",
            Status::Linked => "linked",
            Status::Fine => "ok",
            Status::PendingDelete => "pendingDelete",
            Status::PendingTransfer => "pendingTransfer",
            Status::ServerDeleteProhibited => "serverDeleteProhibited",
            Status::ServerHold => "serverHold",
            Status::ServerRenewProhibited => "serverRenewProhibited",
            Status::ServerTransferProhibited => "serverTransferProhibited",
            Status::ServerUpdateProhibited => "serverUpdateProhibited",
        }
    }

    /// The status that a text names.
    pub fn named(text: &str) -> Option<Status>
        ensures { result ≡ status_named text.now }
    {
        ALL.iter().copied().find(|status| status.text() == text)
    }

    /// Whether a sponsor may set it on an object of this kind.
    pub fn is_client_of(self, kind: ObjectKind) -> bool
        ensures { result ≡ has_status (spec.client_statuses kind) self }
    {
        has_status(client_statuses(kind), self)
    }

    /// Whether the operator may set it on an object of this kind.
    pub fn is_server_of(self, kind: ObjectKind) -> bool
        ensures { result ≡ has_status (spec.server_statuses kind) self }
    {
        has_status(server_statuses(kind), self)
    }

    pub fn is(self, other: Status) -> bool
        ensures { result ≡ is_status self other }
    {
        self.rank() == other.rank()
    }
}

/// Whether the status is one of these.
pub fn has_status(statuses: &[Status], status: Status) -> bool
    ensures { result ≡ has_status statuses.now status }
{
    statuses.iter().any(|other| other.is(status))
}

/// The statuses that a sponsor sets.
fn client_statuses(kind: ObjectKind) -> &'static [Status]
    ensures { result.now ≡ spec.client_statuses kind }
{
    match kind {
        ObjectKind::Contact => &[
            Status::ClientDeleteProhibited,
            Status::ClientTransferProhibited,
            Status::ClientUpdateProhibited,
        ],
        ObjectKind::Domain => &[
            Status::ClientDeleteProhibited,
            Status::ClientHold,
            Status::ClientRenewProhibited,
            Status::ClientTransferProhibited,
            Status::ClientUpdateProhibited,
        ],
        ObjectKind::Host => &[
            Status::ClientDeleteProhibited,
            Status::ClientUpdateProhibited,
        ],
    }
}

/// The statuses that the operator sets.
fn server_statuses(kind: ObjectKind) -> &'static [Status]
    ensures { result.now ≡ spec.server_statuses kind }
{
    match kind {
        ObjectKind::Contact => &[
            Status::ServerDeleteProhibited,
            Status::ServerTransferProhibited,
            Status::ServerUpdateProhibited,
        ],
        ObjectKind::Domain => &[
            Status::ServerDeleteProhibited,
            Status::ServerHold,
            Status::ServerRenewProhibited,
            Status::ServerTransferProhibited,
            Status::ServerUpdateProhibited,
        ],
        ObjectKind::Host => &[
            Status::ServerDeleteProhibited,
            Status::ServerUpdateProhibited,
        ],
    }
}

/// The statuses that are shown of an object that shows these of itself, and is linked or not.
#[tactic(auto, unfolding(crate::specs::Statuses::with_linked))]
pub fn with_linked(
    alloc: Global,
    linked: bool,
    statuses: &[Status],
) -> Result<Seq<Status>, AllocError>
    ensures { IfOk result (λ shown. shown ≡ spec.with_linked linked statuses.now) }
{
    Ok(Seq::from_vec(among_linked(alloc, linked, statuses, &ALL)?))
}

fn among_linked(
    alloc: Global,
    linked: bool,
    shown: &[Status],
    statuses: &[Status],
) -> Result<Vec<Status>, AllocError>
    ensures { IfOk result (λ found. found.items ≡ filter (λ status. (linked
        && is_status status Status.Linked) || has_status shown.now status) statuses.now) }
{
    statuses
        .iter()
        .copied()
        .filter(|status| linked && status.is(Status::Linked) || has_status(shown, *status))
        .collect(alloc)
}

/// The statuses that are set after some are taken away and others added.
#[tactic(auto, unfolding(crate::specs::Statuses::amended_statuses))]
pub fn amended_statuses(
    alloc: Global,
    old: &[Status],
    removed: &[Status],
    added: &[Status],
) -> Result<Seq<Status>, AllocError>
    ensures { IfOk result (λ statuses. statuses ≡ spec.amended_statuses old.now removed.now
        added.now) }
{
    Ok(Seq::from_vec(among_amended(alloc, old, removed, added, &ALL)?))
}

fn among_amended(
    alloc: Global,
    old: &[Status],
    removed: &[Status],
    added: &[Status],
    statuses: &[Status],
) -> Result<Vec<Status>, AllocError>
    ensures { IfOk result (λ found. found.items ≡ filter (λ status. has_status added.now status
        || (has_status old.now status && not (has_status removed.now status))) statuses.now) }
{
    statuses
        .iter()
        .copied()
        .filter(|status| {
            has_status(added, *status) || has_status(old, *status) && !has_status(removed, *status)
        })
        .collect(alloc)
}

/// A state of grace of a domain.
#[derive(Clone, Copy, Debug, PartialEq, Eq, Drop)]
pub enum Rgp {
    AddPeriod,
    AutoRenewPeriod,
    PendingDelete,
    PendingRestore,
    RedemptionPeriod,
    RenewPeriod,
    TransferPeriod,
}

impl Rgp {
    /// The state as replies show it.
    pub fn text(self) -> &'static str
        ensures { result.now ≡ rgp_text self }
    {
        match self {
            Rgp::AddPeriod => "addPeriod",
            Rgp::AutoRenewPeriod => "autoRenewPeriod",
            Rgp::PendingDelete => "pendingDelete",
            Rgp::PendingRestore => "pendingRestore",
            Rgp::RedemptionPeriod => "redemptionPeriod",
            Rgp::RenewPeriod => "renewPeriod",
            Rgp::TransferPeriod => "transferPeriod",
        }
    }
}
