//! What messages to registrars say.
ghost use Rattle.std.specs.Prelude.{◌≡◌};
ghost use Rattle.protocol.specs.Texts as spec;

use objects::ObjectKind;

/// What a message says (RFC 5730, 2.9.2.3).
#[derive(Clone, Copy, Debug, PartialEq, Eq, Drop)]
pub enum Notice {
    /// To the registrar that is to lose the object, as is the fourth.
    TransferRequested,
    /// To the registrar that asked for the object, as is the third.
    TransferApproved,
    TransferRejected,
    TransferCancelled,
    /// To both.
    TransferApprovedByServer,
    /// To the sponsor, as is the last.
    DomainRenewed,
    DomainPurged,
}

impl Notice {
    /// The text of the message.
    pub fn text(self) -> &'static str
        ensures { result.now ≡ spec.notice_text self }
    {
        match self {
            Notice::TransferRequested => "Transfer requested.",
            Notice::TransferApproved => "Transfer approved.",
            Notice::TransferRejected => "Transfer rejected.",
            Notice::TransferCancelled => "Transfer cancelled.",
            Notice::TransferApprovedByServer => "Transfer approved by the server.",
            Notice::DomainRenewed => "Domain renewed automatically.",
            Notice::DomainPurged => "Domain purged.",
        }
    }
}

/// The text of a kind of objects, as commands and replies have it under `obj`.
pub fn object_text(object: ObjectKind) -> &'static str
    ensures { result.now ≡ spec.object_text object }
{
    match object {
        ObjectKind::Contact => "contact",
        ObjectKind::Domain => "domain",
        ObjectKind::Host => "host",
    }
}
