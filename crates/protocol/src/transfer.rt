//! What becomes of a transfer.
ghost use Rattle.std.specs.Prelude.{◌≡◌};
ghost use Rattle.protocol.specs.Requests as spec;

use crate::command::Action;

/// What a command does with a transfer (RFC 5730, 2.9.3.4).
#[derive(Clone, Copy, Debug, PartialEq, Eq, Drop)]
pub enum TransferOp {
    /// The object is to come to the caller.
    Request,
    /// The state of the last transfer.
    Query,
    /// The sponsor lets the object go.
    Approve,
    /// The sponsor keeps the object.
    Reject,
    /// The caller doesn't want the object any longer.
    Cancel,
}

impl TransferOp {
    pub fn is_request(self) -> bool
        ensures { result ≡ spec.is_request self }
    {
        matches!(self, TransferOp::Request)
    }

    /// The years that it is charged for, of a domain.
    pub fn years(self) -> u32
        ensures { result ≡ spec.transfer_years self }
    {
        match self {
            TransferOp::Request => 1,
            TransferOp::Query | TransferOp::Approve | TransferOp::Reject | TransferOp::Cancel => 0,
        }
    }

    pub fn action(self) -> Action
        ensures { result ≡ spec.transfer_action self }
    {
        match self {
            TransferOp::Request => Action::RequestTransfer,
            TransferOp::Query => Action::QueryTransfer,
            TransferOp::Approve => Action::ApproveTransfer,
            TransferOp::Reject => Action::RejectTransfer,
            TransferOp::Cancel => Action::CancelTransfer,
        }
    }
}
