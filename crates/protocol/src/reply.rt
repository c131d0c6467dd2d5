//! What a reply says, as plain records.

use crate::code::Code;
use crate::notice::Notice;
use basis::list::Seq;
use basis::text::Text;
use calendar::Moment;
use objects::{ContactFace, Deletion, DomainFace, HostFace, ObjectKind, Postal, Transfer};

/// A reply to a command.
#[derive(Drop)]
pub struct Reply {
    /// The command's own identifier (`clTRID`), where it was sent well formed.
    pub cl_trid: Option<Text>,
    pub code: Code,
    pub content: Option<Data>,
    pub sv_trid: SvTrid,
}

/// The registry's identifier of a command (`svTRID`): the caller's id and the number of its command.
#[derive(Drop)]
pub struct SvTrid {
    pub id: Text,
    pub number: u64,
}

/// The data of a reply, besides its code.
#[derive(Drop)]
pub enum Data {
    /// In the order in which the names were sent.
    Checked(Seq<CheckResult>),
    Created(Created),
    /// What an account has, in whole cents.
    Balance(i128),
    /// Also of a domain that came back.
    Renewed(Renewed),
    /// A domain.
    Deleted(Deleted),
    /// The state of a transfer.
    Transferred(Transferred),
    /// The oldest message.
    Polled(Polled),
    /// How many messages are left.
    Acked(u64),
    Contact(ContactInfo),
    Domain(DomainInfo),
    Host(HostInfo),
}

/// Whether a name could be created: it could where there is no reason against it.
#[derive(Drop)]
pub struct CheckResult {
    pub name: Text,
    pub reason: Option<Reason>,
}

/// Why a name can't be created.
#[derive(Clone, Copy, Debug, PartialEq, Eq, Drop)]
pub enum Reason {
    /// The zone refuses such names.
    Policy,
    /// There is such an object.
    InUse,
}

/// A new object. Expiry and charge are a domain's alone.
#[derive(Drop)]
pub struct Created {
    pub name: Text,
    pub created: Moment,
    pub expires: Option<Moment>,
    /// In whole cents.
    pub charge: Option<u64>,
}

/// A domain that is registered for longer.
#[derive(Drop)]
pub struct Renewed {
    pub name: Text,
    pub expires: Moment,
    /// In whole cents.
    pub charge: u64,
}

/// A domain that was deleted.
#[derive(Drop)]
pub struct Deleted {
    pub name: Text,
    /// What was given back, in whole cents.
    pub refund: u128,
}

/// The last transfer of an object.
#[derive(Drop)]
pub struct Transferred {
    pub name: Text,
    pub transfer: TransferInfo,
    /// In whole cents: of a domain that was asked for.
    pub charge: Option<u64>,
}

/// A message to a registrar, the oldest that waits.
#[derive(Drop)]
pub struct Polled {
    pub id: Text,
    pub notice: Notice,
    /// The object that it is about.
    pub kind: ObjectKind,
    pub name: Text,
    /// When it was put down.
    pub queued: Moment,
    /// How many messages wait, this one too.
    pub count: u64,
}

/// The answer to an info of a contact.
#[derive(Drop)]
pub struct ContactInfo {
    /// With `linked` among its statuses while a domain names it.
    pub face: ContactFace,
    /// The sponsor's id.
    pub sponsor: Text,
    pub hidden: Option<ContactHidden>,
}

/// What the face of a contact leaves out.
#[derive(Drop)]
pub struct ContactHidden {
    /// Only the sponsor gets it.
    pub secret: Option<Text>,
    pub postal: Postal,
    pub voice: Option<Text>,
    pub mail: Text,
    pub transfer: Option<TransferInfo>,
}

/// The answer to an info of a host.
#[derive(Drop)]
pub struct HostInfo {
    pub face: HostFace,
    /// The sponsor's id.
    pub sponsor: Text,
}

/// The answer to an info of a domain.
#[derive(Drop)]
pub struct DomainInfo {
    pub face: DomainFace,
    /// The sponsor's id.
    pub sponsor: Text,
    /// The hosts below the domain.
    pub subordinate: Seq<Text>,
    pub hidden: Option<DomainHidden>,
}

/// What the face of a domain leaves out.
#[derive(Drop)]
pub struct DomainHidden {
    /// Only the sponsor gets it.
    pub secret: Option<Text>,
    pub transfer: Option<TransferInfo>,
    pub deletion: Option<Deletion>,
}

/// The last transfer of an object, with the ids of both sides.
#[derive(Drop)]
pub struct TransferInfo {
    pub transfer: Transfer,
    pub requester: Text,
    pub losing_registrar: Text,
}
