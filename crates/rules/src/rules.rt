//! The rules: the conditions on which each command is refused. A condition has one cause, wherever
//! it is (RFC 5730, 3), and the conditions of a table are in the order of their causes: the
//! first that holds answers.
ghost use Rattle.std.specs.Prelude.{◌≡◌, IsTrue};
ghost use Rattle.rules.specs.{Causes.cause_of, Refusals.in_order};
ghost use Rattle.rules.specs.Rules as spec;

use crate::refusal::Cause;
use Condition::{
    AddsWhatIsThere, ExpiresOtherwise, HasNoTransfer, HasSubordinates, IsAnothers,
    IsAtHoldingLimit, IsLinked, IsLocked, IsMissing, IsNotIn, IsNotOldest, IsNotPending,
    IsNotRequester, IsOwn, IsPending, IsStranger, IsThere, LacksMoney, LeavesAddressesOutside,
    LeavesTooMany, ListRepeats, NameIsRefused, NewNameIsTaken, PassesTenYears, ReferenceIsMissing,
    RemovesWhatIsNot, ReportDiffers, SecretIsNotRight, SecretIsWrong, Shows, StillShows,
    StrangersSecretIsWrong, SuperordinateIsAnothers, SuperordinateIsDeleted,
    SuperordinateIsMissing,
};
use objects::Phase::{self, Redemption, Restoring};
use objects::Status::{
    self, ClientDeleteProhibited, ClientRenewProhibited, ClientTransferProhibited,
    ClientUpdateProhibited, PendingDelete, PendingTransfer, ServerDeleteProhibited,
    ServerRenewProhibited, ServerTransferProhibited, ServerUpdateProhibited,
};
use protocol::{Request, TransferOp};

/// What a command can be refused on.
#[derive(Clone, Copy, Drop)]
pub enum Condition {
    /// The zone refuses a name that is given.
    NameIsRefused,
    /// A list names one thing twice.
    ListRepeats,
    /// There is an object of the name.
    IsThere,
    /// There is no object of the name.
    IsMissing,
    /// A contact or host isn't there that a domain is to name from now on.
    ReferenceIsMissing,
    /// A host has the new name already.
    NewNameIsTaken,
    /// The superordinate domain of a host that is to have a name isn't there.
    SuperordinateIsMissing,
    /// Another sponsors the object.
    IsAnothers,
    /// Another sponsors the superordinate domain of a host that is to have a name.
    SuperordinateIsAnothers,
    /// Another than the sponsor presents a secret that isn't right.
    SecretIsWrong,
    /// The object shows the status.
    Shows(Status),
    /// The object shows the status, and the update doesn't take it away.
    StillShows(Status),
    /// The superordinate domain of a host that is to have a name is deleted.
    SuperordinateIsDeleted,
    /// A domain names the object.
    IsLinked,
    /// There are hosts below the domain.
    HasSubordinates,
    /// Something is added that is there.
    AddsWhatIsThere,
    /// Something is removed that isn't there.
    RemovesWhatIsNot,
    /// A list has more than its limit afterwards.
    LeavesTooMany,
    /// A host outside the zone has addresses afterwards.
    LeavesAddressesOutside,
    /// The registrar holds as many domains as it may.
    IsAtHoldingLimit,
    /// The domain would be registered for more than ten years from now on.
    PassesTenYears,
    /// The domain is shown to expire on another date than the renewal names.
    ExpiresOtherwise,
    /// The deletion of the domain hasn't come to the phase, or has left it.
    IsNotIn(Phase),
    /// The report is on another deletion than the domain's, or on another request to restore it
    /// than the last.
    ReportDiffers,
    /// The oldest message to the registrar isn't the one that was read.
    IsNotOldest,
    /// The command is charged more than the registrar's account has.
    LacksMoney,
    /// The secret that is presented isn't the object's, whoever presents it.
    SecretIsNotRight,
    /// The registrar neither sponsors the object nor is named in its last transfer, and presents no
    /// secret.
    IsStranger,
    /// The registrar neither sponsors the object nor is named in its last transfer, and presents a
    /// secret that isn't right.
    StrangersSecretIsWrong,
    /// The registrar isn't who asked for the last transfer of the object, or there was none.
    IsNotRequester,
    /// No transfer of the object was ever asked for.
    HasNoTransfer,
    /// A transfer of the object is pending.
    IsPending,
    /// No transfer of the object is pending.
    IsNotPending,
    /// The registrar sponsors the object.
    IsOwn,
    /// The domain was created or transferred too short a time ago to be transferred.
    IsLocked,
}

impl Condition {
    /// The cause that it is of a refusal (RFC 5730, 3).
    pub fn cause(self) -> Cause
        ensures { result ≡ cause_of self }
    {
        match self {
            NameIsRefused | ListRepeats => Cause::NamesRefused,
            IsThere | NewNameIsTaken => Cause::Exists,
            IsMissing | ReferenceIsMissing | SuperordinateIsMissing | IsNotOldest => Cause::Missing,
            IsAnothers | SuperordinateIsAnothers | IsStranger | IsNotRequester => Cause::NotSponsor,
            SecretIsWrong | SecretIsNotRight | StrangersSecretIsWrong => Cause::WrongSecret,
            IsPending => Cause::TransferPends,
            HasNoTransfer | IsNotPending => Cause::NoTransferPends,
            Shows(_) | StillShows(_) | SuperordinateIsDeleted | IsNotIn(_) =>
                Cause::StatusProhibits,
            IsLinked | HasSubordinates => Cause::AssociationProhibits,
            PassesTenYears => Cause::NotRenewable,
            IsOwn | IsLocked => Cause::NotTransferable,
            AddsWhatIsThere
            | RemovesWhatIsNot
            | LeavesTooMany
            | LeavesAddressesOutside
            | ExpiresOtherwise
            | ReportDiffers => Cause::ParametersRefused,
            IsAtHoldingLimit => Cause::LimitReached,
            LacksMoney => Cause::BillingFailure,
        }
    }
}

/// RFC 5733, 3.1.2.
pub const CONTACT_INFO: &[Condition] = &[
    IsMissing,
    SecretIsWrong, // RFC 5733, 2.8
];

/// RFC 5731, 3.1.2.
pub const DOMAIN_INFO: &[Condition] = &[
    NameIsRefused,
    IsMissing,
    SecretIsWrong, // RFC 5731, 2.6
];

/// RFC 5732, 3.1.2.
pub const HOST_INFO: &[Condition] = &[NameIsRefused, IsMissing];

/// RFC 5733, 3.2.1.
pub const CONTACT_CREATION: &[Condition] = &[IsThere];

/// RFC 5731, 3.2.1.
pub const DOMAIN_CREATION: &[Condition] = &[
    NameIsRefused,
    ListRepeats,
    IsThere,
    ReferenceIsMissing, // RFC 5731, 3.2.1
    LeavesTooMany, // RFC 5731, 3.2.1
    IsAtHoldingLimit,
    LacksMoney,
];

/// RFC 5732, 3.2.1.
pub const HOST_CREATION: &[Condition] = &[
    NameIsRefused,
    ListRepeats,
    IsThere,
    SuperordinateIsMissing, // RFC 5732, 3.2.1
    SuperordinateIsAnothers, // RFC 5732, 3.2.1
    SuperordinateIsDeleted, // RFC 5731, 2.3
    LeavesTooMany, // RFC 5732, 3.2.1
    LeavesAddressesOutside, // RFC 5732, 2.5
];

/// RFC 5733, 3.2.2.
pub const CONTACT_DELETION: &[Condition] = &[
    IsMissing,
    IsAnothers, // RFC 5733, 3.2.2
    Shows(PendingTransfer), // RFC 5733, 2.2
    Shows(ClientDeleteProhibited), // RFC 5733, 2.2
    Shows(ServerDeleteProhibited), // RFC 5733, 2.2
    IsLinked, // RFC 5733, 3.2.2
];

/// RFC 5731, 3.2.2.
pub const DOMAIN_DELETION: &[Condition] = &[
    NameIsRefused,
    IsMissing,
    IsAnothers, // RFC 5731, 3.2.2
    Shows(PendingDelete), // RFC 5731, 2.3
    Shows(PendingTransfer), // RFC 5731, 2.3
    Shows(ClientDeleteProhibited), // RFC 5731, 2.3
    Shows(ServerDeleteProhibited), // RFC 5731, 2.3
    HasSubordinates, // RFC 5731, 3.2.2
];

/// RFC 5732, 3.2.2.
pub const HOST_DELETION: &[Condition] = &[
    NameIsRefused,
    IsMissing,
    IsAnothers, // RFC 5732, 3.2.2
    Shows(PendingTransfer), // RFC 5732, 2.3
    Shows(ClientDeleteProhibited), // RFC 5732, 2.3
    Shows(ServerDeleteProhibited), // RFC 5732, 2.3
    IsLinked, // RFC 5732, 3.2.2
];

/// RFC 5733, 3.2.5. The sponsor may take its own prohibition away with the update.
pub const CONTACT_UPDATE: &[Condition] = &[
    ListRepeats,
    IsMissing,
    IsAnothers, // RFC 5733, 3.2.5
    Shows(PendingDelete), // RFC 5733, 2.2
    Shows(PendingTransfer), // RFC 5733, 3.2.5
    Shows(ServerUpdateProhibited), // RFC 5733, 2.2
    StillShows(ClientUpdateProhibited), // RFC 5733, 3.2.5
    AddsWhatIsThere, // RFC 5733, 3.2.5
    RemovesWhatIsNot, // RFC 5733, 3.2.5
];

/// RFC 5731, 3.2.5. As for a contact.
pub const DOMAIN_UPDATE: &[Condition] = &[
    NameIsRefused,
    ListRepeats,
    IsMissing,
    ReferenceIsMissing, // RFC 5731, 3.2.5
    IsAnothers, // RFC 5731, 3.2.5
    Shows(PendingDelete), // RFC 5731, 2.3
    Shows(PendingTransfer), // RFC 5731, 3.2.5
    Shows(ServerUpdateProhibited), // RFC 5731, 2.3
    StillShows(ClientUpdateProhibited), // RFC 5731, 3.2.5
    AddsWhatIsThere, // RFC 5731, 3.2.5
    RemovesWhatIsNot, // RFC 5731, 3.2.5
    LeavesTooMany, // RFC 5731, 3.2.5
];

/// RFC 5732, 3.2.5. As for a contact; a new name is one of a new host.
pub const HOST_UPDATE: &[Condition] = &[
    NameIsRefused,
    ListRepeats,
    NewNameIsTaken,
    IsMissing,
    SuperordinateIsMissing, // RFC 5732, 3.2.5
    IsAnothers, // RFC 5732, 3.2.5
    SuperordinateIsAnothers, // RFC 5732, 3.2.5
    Shows(ServerUpdateProhibited), // RFC 5732, 2.3
    StillShows(ClientUpdateProhibited), // RFC 5732, 3.2.5
    SuperordinateIsDeleted, // RFC 5731, 2.3
    AddsWhatIsThere, // RFC 5732, 3.2.5
    RemovesWhatIsNot, // RFC 5732, 3.2.5
    LeavesTooMany, // RFC 5732, 3.2.5
    LeavesAddressesOutside, // RFC 5732, 2.5
];

/// RFC 5731, 3.2.3.
pub const DOMAIN_RENEWAL: &[Condition] = &[
    NameIsRefused,
    IsMissing,
    IsAnothers, // RFC 5731, 3.2.3
    Shows(PendingDelete), // RFC 5731, 3.2.3
    Shows(PendingTransfer), // RFC 5731, 2.3
    Shows(ClientRenewProhibited), // RFC 5731, 2.3
    Shows(ServerRenewProhibited), // RFC 5731, 2.3
    PassesTenYears,
    ExpiresOtherwise, // RFC 5731, 3.2.3
    LacksMoney,
];

/// RFC 3915, 4.2.5.
pub const RESTORE_REQUEST: &[Condition] = &[
    NameIsRefused,
    IsMissing,
    IsAnothers, // RFC 5731, 3.2.5
    IsNotIn(Redemption), // RFC 3915, 3.1
];

/// RFC 3915, 4.2.5.
pub const RESTORE_REPORT: &[Condition] = &[
    NameIsRefused,
    IsMissing,
    IsAnothers, // RFC 5731, 3.2.5
    IsNotIn(Restoring), // RFC 3915, 3.1
    ReportDiffers, // RFC 3915, 4.2.5
    LacksMoney,
];

/// RFC 5733, 3.2.4, `request`.
pub const CONTACT_TRANSFER_REQUEST: &[Condition] = &[
    IsMissing,
    SecretIsNotRight, // RFC 5733, 3.2.4
    IsPending,
    Shows(ClientTransferProhibited), // RFC 5733, 2.2
    Shows(ServerTransferProhibited), // RFC 5733, 2.2
    IsOwn,
];

/// RFC 5731, 3.2.4, `request`.
pub const DOMAIN_TRANSFER_REQUEST: &[Condition] = &[
    NameIsRefused,
    IsMissing,
    SecretIsNotRight, // RFC 5731, 3.2.4
    IsPending,
    Shows(PendingDelete), // RFC 5731, 2.3
    Shows(ClientTransferProhibited), // RFC 5731, 2.3
    Shows(ServerTransferProhibited), // RFC 5731, 2.3
    IsOwn,
    IsLocked,
    IsAtHoldingLimit,
    LacksMoney,
];

/// RFC 5733, 3.1.3.
pub const CONTACT_TRANSFER_QUERY: &[Condition] = &[
    IsMissing,
    IsStranger, // RFC 5730, 2.9.2.4
    StrangersSecretIsWrong, // RFC 5733, 2.8
    HasNoTransfer,
];

/// RFC 5731, 3.1.3.
pub const DOMAIN_TRANSFER_QUERY: &[Condition] = &[
    NameIsRefused,
    IsMissing,
    IsStranger, // RFC 5730, 2.9.2.4
    StrangersSecretIsWrong, // RFC 5731, 2.6
    HasNoTransfer,
];

/// RFC 5733, 3.2.4, `approve` and `reject`.
pub const CONTACT_TRANSFER_ANSWER: &[Condition] = &[
    IsMissing,
    IsAnothers, // RFC 5730, 2.9.3.4
    IsNotPending, // RFC 5733, 3.2.4
];

/// RFC 5731, 3.2.4, `approve` and `reject`.
pub const DOMAIN_TRANSFER_ANSWER: &[Condition] = &[
    NameIsRefused,
    IsMissing,
    IsAnothers, // RFC 5730, 2.9.3.4
    IsNotPending, // RFC 5731, 3.2.4
];

/// RFC 5733, 3.2.4, `cancel`.
pub const CONTACT_TRANSFER_CANCEL: &[Condition] = &[
    IsMissing,
    IsNotRequester, // RFC 5730, 2.9.3.4
    IsNotPending,
];

/// RFC 5731, 3.2.4, `cancel`.
pub const DOMAIN_TRANSFER_CANCEL: &[Condition] = &[
    NameIsRefused,
    IsMissing,
    IsNotRequester, // RFC 5730, 2.9.3.4
    IsNotPending,
];

/// RFC 5730, 2.9.2.3.
pub const MESSAGE_ACKNOWLEDGEMENT: &[Condition] = &[IsNotOldest];

/// The table of the command.
pub fn table(request: &Request) -> &'static [Condition]
    ensures table { result.now ≡ spec.table_of request.now }
    ensures ordered { IsTrue (in_order cause_of result.now) }
{
    match request {
        Request::InfoContact { .. } => CONTACT_INFO,
        Request::InfoDomain { .. } => DOMAIN_INFO,
        Request::InfoHost { .. } => HOST_INFO,
        Request::CreateContact(_) => CONTACT_CREATION,
        Request::CreateDomain(_) => DOMAIN_CREATION,
        Request::CreateHost(_) => HOST_CREATION,
        Request::DeleteContact { .. } => CONTACT_DELETION,
        Request::DeleteDomain { .. } => DOMAIN_DELETION,
        Request::DeleteHost { .. } => HOST_DELETION,
        Request::UpdateContact(_) => CONTACT_UPDATE,
        Request::UpdateDomain(_) => DOMAIN_UPDATE,
        Request::UpdateHost(_) => HOST_UPDATE,
        Request::RenewDomain { .. } => DOMAIN_RENEWAL,
        Request::RequestRestore { .. } => RESTORE_REQUEST,
        Request::ReportRestore { .. } => RESTORE_REPORT,
        Request::TransferContact { op, .. } => match op {
            TransferOp::Request => CONTACT_TRANSFER_REQUEST,
            TransferOp::Query => CONTACT_TRANSFER_QUERY,
            TransferOp::Approve | TransferOp::Reject => CONTACT_TRANSFER_ANSWER,
            TransferOp::Cancel => CONTACT_TRANSFER_CANCEL,
        },
        Request::TransferDomain { op, .. } => match op {
            TransferOp::Request => DOMAIN_TRANSFER_REQUEST,
            TransferOp::Query => DOMAIN_TRANSFER_QUERY,
            TransferOp::Approve | TransferOp::Reject => DOMAIN_TRANSFER_ANSWER,
            TransferOp::Cancel => DOMAIN_TRANSFER_CANCEL,
        },
        Request::PollAck { .. } => MESSAGE_ACKNOWLEDGEMENT,
        _ => &[],
    }
}
