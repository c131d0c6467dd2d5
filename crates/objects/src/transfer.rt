//! Transfers of objects between registrars (RFC 5730, 2.9.3.4).
ghost use Rattle.std.specs.Prelude.{◌≡◌, Some};
ghost use Rattle.objects.specs.Transfers as spec;

use basis::registrar::RegistrarNo;
use calendar::Moment;

/// The state of a transfer.
#[derive(Clone, Copy, Debug, PartialEq, Eq, Drop)]
pub enum TransferState {
    Pending,
    ClientApproved,
    ClientRejected,
    ClientCancelled,
    ServerApproved,
}

/// The last transfer of an object.
#[derive(Clone, Copy, Drop)]
pub struct Transfer {
    /// Who asked for the object.
    pub requester: RegistrarNo,
    /// The sponsor that loses it.
    pub losing_registrar: RegistrarNo,
    pub requested: Moment,
    /// When it is due while it is pending, and when it was acted on otherwise.
    pub ac_date: Moment,
    pub state: TransferState,
}

impl TransferState {
    fn is_pending(self) -> bool
        ensures { result ≡ spec.is_pending_state self }
    {
        matches!(self, TransferState::Pending)
    }
}

impl Transfer {
    pub fn is_pending(&self) -> bool
        ensures { result ≡ spec.is_pending_state self.now.state }
    {
        self.state.is_pending()
    }

    /// Whether it is pending and brings the object to the registrar.
    pub fn is_incoming(&self, registrar: RegistrarNo) -> bool
        ensures { result ≡ spec.is_incoming registrar (Some self.now) }
    {
        self.is_pending() && self.requester == registrar
    }

    /// Whether the registrar asked for it or loses the object by it.
    pub fn names(&self, registrar: RegistrarNo) -> bool
        ensures { result ≡ spec.names registrar self.now }
    {
        self.requester == registrar || self.losing_registrar == registrar
    }
}
