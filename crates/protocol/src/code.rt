//! Result codes (RFC 5730, 3).
ghost use Rattle.std.specs.Prelude.{◌≡◌};
ghost use Rattle.protocol.specs.Codes.{number_of, message_of, is_accepted};

/// A result code.
#[derive(Clone, Copy, Debug, PartialEq, Eq, Drop)]
pub enum Code {
    Completed,
    CompletedActionPending,
    CompletedNoMessages,
    CompletedAckToDequeue,
    CompletedEndingSession,
    UnknownCommand,
    SyntaxError,
    UseError,
    ParameterMissing,
    ParameterRange,
    ParameterSyntax,
    UnimplementedVersion,
    BillingFailure,
    NotEligibleForRenewal,
    NotEligibleForTransfer,
    AuthenticationError,
    AuthorizationError,
    InvalidAuthorization,
    PendingTransfer,
    NotPendingTransfer,
    ObjectExists,
    ObjectMissing,
    StatusProhibits,
    AssociationProhibits,
    ParameterPolicy,
    DataManagementPolicy,
    CommandFailed,
    CommandFailedClosing,
}

impl Code {
    /// The four digits of the code.
    pub fn number(self) -> u32
        ensures { result ≡ number_of self }
    {
        match self {
            Code::Completed => 1000,
            Code::CompletedActionPending => 1001,
            Code::CompletedNoMessages => 1300,
            Code::CompletedAckToDequeue => 1301,
            Code::CompletedEndingSession => 1500,
            Code::UnknownCommand => 2000,
            Code::SyntaxError => 2001,
            Code::UseError => 2002,
            Code::ParameterMissing => 2003,
            Code::ParameterRange => 2004,
            Code::ParameterSyntax => 2005,
            Code::UnimplementedVersion => 2100,
            Code::BillingFailure => 2104,
            Code::NotEligibleForRenewal => 2105,
            Code::NotEligibleForTransfer => 2106,
            Code::AuthenticationError => 2200,
            Code::AuthorizationError => 2201,
            Code::InvalidAuthorization => 2202,
            Code::PendingTransfer => 2300,
            Code::NotPendingTransfer => 2301,
            Code::ObjectExists => 2302,
            Code::ObjectMissing => 2303,
            Code::StatusProhibits => 2304,
            Code::AssociationProhibits => 2305,
            Code::ParameterPolicy => 2306,
            Code::DataManagementPolicy => 2308,
            Code::CommandFailed => 2400,
            Code::CommandFailedClosing => 2500,
        }
    }

    /// Whether the command was carried out.
    pub fn is_accepted(self) -> bool
        ensures { result ≡ is_accepted self }
    {
        self.number() < 2000
    }

    /// The text of the code.
    pub fn message(self) -> &'static str
        ensures { result.now ≡ message_of self }
    {
        match self {
            Code::Completed => "Command completed successfully",
            Code::CompletedActionPending => "Command completed successfully; action pending",
            Code::CompletedNoMessages => "Command completed successfully; no messages",
            Code::CompletedAckToDequeue => "Command completed successfully; ack to dequeue",
            Code::CompletedEndingSession => "Command completed successfully; ending session",
            Code::UnknownCommand => "Unknown command",
            Code::SyntaxError => "Command syntax error",
            Code::UseError => "Command use error",
            Code::ParameterMissing => "Required parameter missing",
            Code::ParameterRange => "Parameter value range error",
            Code::ParameterSyntax => "Parameter value syntax error",
            Code::UnimplementedVersion => "Unimplemented protocol version",
            Code::BillingFailure => "Billing failure",
            Code::NotEligibleForRenewal => "Object is not eligible for renewal",
            Code::NotEligibleForTransfer => "Object is not eligible for transfer",
            Code::AuthenticationError => "Authentication error",
            Code::AuthorizationError => "Authorization error",
            Code::InvalidAuthorization => "Invalid authorization information",
            Code::PendingTransfer => "Object pending transfer",
            Code::NotPendingTransfer => "Object not pending transfer",
            Code::ObjectExists => "Object exists",
            Code::ObjectMissing => "Object does not exist",
            Code::StatusProhibits => "Object status prohibits operation",
            Code::AssociationProhibits => "Object association prohibits operation",
            Code::ParameterPolicy => "Parameter value policy error",
            Code::DataManagementPolicy => "Data management policy violation",
            Code::CommandFailed => "Command failed",
            Code::CommandFailedClosing => "Command failed; server closing connection",
        }
    }
}
