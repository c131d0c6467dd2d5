//! The causes on which a command is refused, and their order.
ghost use Rattle.std.specs.Prelude.{◌≡◌};
ghost use Rattle.rules.specs.Refusals as spec;

use protocol::Code;

/// A cause of refusal, with its code and its place: an earlier cause answers before a later one.
/// What comes before them all, the session and the form of the command, is checked before a
/// command reaches the rules.
#[derive(Clone, Copy, Drop)]
pub enum Cause {
    /// 2306: the zone refuses a name, or a list names one thing twice.
    NamesRefused,
    /// 2302
    Exists,
    /// 2303
    Missing,
    /// 2201
    NotSponsor,
    /// 2202
    WrongSecret,
    /// 2300
    TransferPends,
    /// 2301
    NoTransferPends,
    /// 2304
    StatusProhibits,
    /// 2305
    AssociationProhibits,
    /// 2105
    NotRenewable,
    /// 2106
    NotTransferable,
    /// 2306: what is asked doesn't fit what is there.
    ParametersRefused,
    /// 2308
    LimitReached,
    /// 2104
    BillingFailure,
}

impl Cause {
    /// The code that answers.
    pub fn code(self) -> Code
        ensures { result ≡ spec.code_of self }
    {
        match self {
            Cause::NamesRefused | Cause::ParametersRefused => Code::ParameterPolicy,
            Cause::Exists => Code::ObjectExists,
            Cause::Missing => Code::ObjectMissing,
            Cause::NotSponsor => Code::AuthorizationError,
            Cause::WrongSecret => Code::InvalidAuthorization,
            Cause::TransferPends => Code::PendingTransfer,
            Cause::NoTransferPends => Code::NotPendingTransfer,
            Cause::StatusProhibits => Code::StatusProhibits,
            Cause::AssociationProhibits => Code::AssociationProhibits,
            Cause::NotRenewable => Code::NotEligibleForRenewal,
            Cause::NotTransferable => Code::NotEligibleForTransfer,
            Cause::LimitReached => Code::DataManagementPolicy,
            Cause::BillingFailure => Code::BillingFailure,
        }
    }
}
