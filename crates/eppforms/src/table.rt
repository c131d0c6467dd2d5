//! The table of the commands: the members that each has, and what each member has to be. A member
//! that `must` be there is required where its section is, and one that `may` be there isn't. The
//! definitions read this table too: nothing else says which members a command has.
ghost use Rattle.std.specs.Prelude.{◌≡◌};
ghost use Rattle.eppforms.specs.Table as spec;

use crate::kind::Kind::{self, Parts, Whole};
use crate::kind::{Limits, Shape};
use crate::member::{Member, Section};
use objects::ObjectKind;
use protocol::{TransferOp, object_text};

/// What `cmd` may say.
#[derive(Clone, Copy)]
pub enum Verb {
    Hello,
    Login,
    Logout,
    Balance,
    Check,
    Info,
    Create,
    Delete,
    Update,
    Renew,
    Restore,
    Transfer,
    Poll,
}

impl Verb {
    /// The text of `cmd`.
    pub fn text(self) -> &'static str
        ensures { result.now ≡ spec.verb_text self }
    {
        match self {
            Verb::Hello => "hello",
            Verb::Login => "login",
            Verb::Logout => "logout",
            Verb::Balance => "balance",
            Verb::Check => "check",
            Verb::Info => "info",
            Verb::Create => "create",
            Verb::Delete => "delete",
            Verb::Update => "update",
            Verb::Renew => "renew",
            Verb::Restore => "restore",
            Verb::Transfer => "transfer",
            Verb::Poll => "poll",
        }
    }

    /// Whether it has to change something.
    pub fn is_update(self) -> bool
        ensures { result ≡ spec.is_update self }
    {
        matches!(self, Verb::Update)
    }
}

/// The kinds of object in the table.
const OBJECTS: [ObjectKind; 3] = [ObjectKind::Contact, ObjectKind::Domain, ObjectKind::Host];

/// The kind of object that a text names.
pub fn object_named(text: &str) -> Option<ObjectKind>
    ensures { result ≡ spec.object_named text.now }
{
    OBJECTS
        .iter()
        .copied()
        .find(|object| object_text(*object) == text)
}

/// What `op` may say.
#[derive(Clone, Copy)]
pub enum Op {
    Request,
    Report,
    Query,
    Approve,
    Reject,
    Cancel,
    Req,
    Ack,
}

impl Op {
    /// The text of `op`.
    pub fn text(self) -> &'static str
        ensures { result.now ≡ spec.op_text self }
    {
        match self {
            Op::Request => "request",
            Op::Report => "report",
            Op::Query => "query",
            Op::Approve => "approve",
            Op::Reject => "reject",
            Op::Cancel => "cancel",
            Op::Req => "req",
            Op::Ack => "ack",
        }
    }
}

/// The commands.
#[derive(Clone, Copy)]
pub enum CommandKind {
    Hello,
    Login,
    Logout,
    Balance,
    CheckContact,
    CheckDomain,
    CheckHost,
    InfoContact,
    InfoDomain,
    InfoHost,
    CreateContact,
    CreateDomain,
    CreateHost,
    DeleteContact,
    DeleteDomain,
    DeleteHost,
    UpdateContact,
    UpdateDomain,
    UpdateHost,
    RenewDomain,
    RequestRestore,
    ReportRestore,
    TransferContact(TransferOp),
    TransferDomain(TransferOp),
    PollRequest,
    PollAck,
}

/// What chooses a form: `cmd`, `obj` where the command is on an object, and `op` where that says
/// which of several commands it is.
#[derive(Clone, Copy)]
pub struct Choice {
    pub cmd: Verb,
    pub object: Option<ObjectKind>,
    pub op: Option<Op>,
    /// Which command it is. It is none where `op` is missing or unknown: such a form has the members
    /// of every `op`, and requires none of them.
    pub command: Option<CommandKind>,
}

/// A member of a form.
#[derive(Clone, Copy)]
pub struct Field {
    pub section: Section,
    pub member: Member,
    /// It has to be there where its section is.
    pub required: bool,
    pub kind: Kind,
}

/// The form of a command: what chooses it, and its members.
pub type CommandForm = (Choice, &'static [Field]);

macro_rules! on {
    ($cmd:ident, $object:ident, $command:ident) => {
        Choice {
            cmd: Verb::$cmd,
            object: Some(ObjectKind::$object),
            op: None,
            command: Some(CommandKind::$command),
        }
    };
}

/// A command by its `cmd` alone.
macro_rules! plain {
    ($cmd:ident, $command:ident) => {
        Choice {
            cmd: Verb::$cmd,
            object: None,
            op: None,
            command: Some(CommandKind::$command),
        }
    };
}

/// A command by its `cmd` and its `op`.
macro_rules! by_op {
    ($cmd:ident, $op:ident, $command:ident) => {
        Choice {
            cmd: Verb::$cmd,
            object: None,
            op: Some(Op::$op),
            command: Some(CommandKind::$command),
        }
    };
}

/// A transfer, by its `obj` and its `op`.
macro_rules! transfer {
    ($object:ident, $op:ident, $command:ident) => {
        Choice {
            cmd: Verb::Transfer,
            object: Some(ObjectKind::$object),
            op: Some(Op::$op),
            command: Some(CommandKind::$command(TransferOp::$op)),
        }
    };
}

/// What has a `cmd` with an `op`, and no `op` that is known. It comes after those that are.
macro_rules! no_op {
    ($cmd:ident) => {
        Choice {
            cmd: Verb::$cmd,
            object: None,
            op: None,
            command: None,
        }
    };
    ($cmd:ident, $object:ident) => {
        Choice {
            cmd: Verb::$cmd,
            object: Some(ObjectKind::$object),
            op: None,
            command: None,
        }
    };
}

macro_rules! limits {
    ($least:expr, $most:expr) => {
        Limits {
            least: $least,
            most: $most,
        }
    };
}

macro_rules! text {
    ($len:expr, $shape:ident) => {
        Kind::Text {
            len: $len,
            shape: Shape::$shape,
        }
    };
}

macro_rules! texts {
    ($count:expr, $len:expr, $shape:ident) => {
        Kind::Texts {
            count: $count,
            len: $len,
            shape: Shape::$shape,
        }
    };
}

macro_rules! must {
    ($section:ident, $member:ident, $kind:expr) => {
        Field {
            section: Section::$section,
            member: Member::$member,
            required: true,
            kind: $kind,
        }
    };
}

macro_rules! may {
    ($section:ident, $member:ident, $kind:expr) => {
        Field {
            section: Section::$section,
            member: Member::$member,
            required: false,
            kind: $kind,
        }
    };
}

// ---- what the members have to be: lengths in bytes, counts, and shapes

const ANY: Limits = limits!(0, u64::MAX);

const WORD: Kind = text!(ANY, Free);

const NAME_LENGTH: Limits = limits!(1, 1000);

/// A name of a domain or host, before its own rule.
const NAME: Kind = text!(NAME_LENGTH, Free);

const HANDLE_LENGTH: Limits = limits!(3, 16);

/// A name of a contact.
const HANDLE: Kind = text!(HANDLE_LENGTH, Handle);

/// How many names a check asks about.
const CHECKED: Limits = limits!(1, 20);

const CHECKED_NAMES: Kind = texts!(CHECKED, NAME_LENGTH, Free);

const CHECKED_HANDLES: Kind = texts!(CHECKED, HANDLE_LENGTH, Handle);

const YEARS: Kind = Whole(limits!(1, 10));

/// The most name servers of a domain.
const MOST_HOSTS: u64 = 13;

const HOSTS: Kind = texts!(limits!(0, MOST_HOSTS), NAME_LENGTH, Free);

/// The most contacts of a domain in one role.
const MOST_CONTACTS: u64 = 4;

const CONTACTS: Kind = texts!(limits!(0, MOST_CONTACTS), HANDLE_LENGTH, Handle);

/// The most addresses of a host.
const MOST_ADDRESSES: u64 = 13;

const ADDRESSES: Kind = texts!(limits!(0, MOST_ADDRESSES), ANY, Free);

const STATUSES: Kind = texts!(ANY, ANY, Free);

const SECRET: Kind = text!(limits!(6, 64), Printable);

const VOICE: Kind = text!(ANY, Voice);

const MAIL: Kind = text!(limits!(3, 255), Printable);

const LINE_LENGTH: Limits = limits!(1, 255);

/// A line of a postal address (RFC 5733, 2.4).
const LINE: Kind = text!(LINE_LENGTH, Line);

const LINES: Kind = texts!(limits!(1, 3), LINE_LENGTH, Line);

const POSTAL_CODE: Kind = text!(limits!(1, 16), Line);

const COUNTRY: Kind = text!(LINE_LENGTH, Country);

/// A text of a report on a restoration (RFC 3915, 4.2.5).
const REPORT_LENGTH: Limits = limits!(1, 1000);

const REPORT_TEXT: Kind = text!(REPORT_LENGTH, Line);

/// One statement that the domain wasn't used, and one that the report is true (RFC 3915, 4.2.5).
const STATEMENTS: Kind = texts!(limits!(2, 2), REPORT_LENGTH, Line);

/// The identifier of a message (RFC 5730, 2.9.2.3).
const MESSAGE_ID: Kind = text!(limits!(1, 300), Free);

/// A whole number, of which its reader says which it may be.
const NUMBER: Kind = Whole(ANY);

// ---- the members of each command

const CMD: Field = must!(Top, Cmd, WORD);

const OBJ: Field = must!(Top, Obj, WORD);

const OP: Field = must!(Top, Op, WORD);

/// The client's identifier of a command (RFC 5730, 2.5).
pub const CL_TRID: Field = may!(Top, ClTrid, text!(limits!(3, 64), Printable));

/// The members of a command on an object: those of each, and its own.
macro_rules! members {
    ($($field:expr),* $(,)?) => {
        &[CMD, OBJ, CL_TRID, $($field),*]
    };
}

/// The members of a command without `obj`: those of each, and its own.
macro_rules! without_object {
    ($($field:expr),* $(,)?) => {
        &[CMD, CL_TRID, $($field),*]
    };
}

/// RFC 5730, 2.4.
const HELLO: &[Field] = without_object![];

/// RFC 5730, 2.9.1.1. Whose id and password they are is asked of the policy.
const LOGIN: &[Field] = without_object![
    must!(Top, Id, text!(HANDLE_LENGTH, Free)),
    must!(Top, Pw, text!(limits!(6, 16), Free)),
    must!(Top, Version, WORD),
];

/// RFC 5730, 2.9.1.2.
const LOGOUT: &[Field] = without_object![];

/// What the caller's account has. It is on no object.
const BALANCE: &[Field] = without_object![];

/// RFC 5733, 3.1.1.
const CHECK_CONTACT: &[Field] = members![must!(Top, Names, CHECKED_HANDLES)];

/// RFC 5731, 3.1.1.
const CHECK_DOMAIN: &[Field] = members![must!(Top, Names, CHECKED_NAMES)];

/// RFC 5732, 3.1.1.
const CHECK_HOST: &[Field] = members![must!(Top, Names, CHECKED_NAMES)];

/// RFC 5733, 3.1.2.
const INFO_CONTACT: &[Field] = members![must!(Top, Name, HANDLE), may!(Top, Secret, SECRET)];

/// RFC 5731, 3.1.2.
const INFO_DOMAIN: &[Field] = members![must!(Top, Name, NAME), may!(Top, Secret, SECRET)];

/// RFC 5732, 3.1.2.
const INFO_HOST: &[Field] = members![must!(Top, Name, NAME)];

/// RFC 5733, 3.2.1.
const CREATE_CONTACT: &[Field] = members![
    must!(Top, Name, HANDLE),
    must!(Top, Postal, Parts),
    must!(Postal, Name, LINE),
    may!(Postal, Org, LINE),
    must!(Postal, Street, LINES),
    must!(Postal, City, LINE),
    may!(Postal, Sp, LINE),
    may!(Postal, Pc, POSTAL_CODE),
    must!(Postal, Cc, COUNTRY),
    may!(Top, Voice, VOICE),
    must!(Top, Mail, MAIL),
    must!(Top, Secret, SECRET),
];

/// RFC 5731, 3.2.1.
const CREATE_DOMAIN: &[Field] = members![
    must!(Top, Name, NAME),
    may!(Top, Years, YEARS),
    must!(Top, Registrant, HANDLE),
    may!(Top, Admin, CONTACTS),
    may!(Top, Tech, CONTACTS),
    may!(Top, Hosts, HOSTS),
    must!(Top, Secret, SECRET),
];

/// RFC 5732, 3.2.1.
const CREATE_HOST: &[Field] = members![must!(Top, Name, NAME), may!(Top, Addrs, ADDRESSES)];

/// RFC 5733, 3.2.2.
const DELETE_CONTACT: &[Field] = members![must!(Top, Name, HANDLE)];

/// RFC 5731, 3.2.2.
const DELETE_DOMAIN: &[Field] = members![must!(Top, Name, NAME)];

/// RFC 5732, 3.2.2.
const DELETE_HOST: &[Field] = members![must!(Top, Name, NAME)];

/// RFC 5733, 3.2.5.
const UPDATE_CONTACT: &[Field] = members![
    must!(Top, Name, HANDLE),
    may!(Top, Add, Parts),
    may!(Add, Statuses, STATUSES),
    may!(Top, Rem, Parts),
    may!(Rem, Statuses, STATUSES),
    may!(Top, Chg, Parts),
    may!(Chg, Postal, Parts),
    must!(ChgPostal, Name, LINE),
    may!(ChgPostal, Org, LINE),
    must!(ChgPostal, Street, LINES),
    must!(ChgPostal, City, LINE),
    may!(ChgPostal, Sp, LINE),
    may!(ChgPostal, Pc, POSTAL_CODE),
    must!(ChgPostal, Cc, COUNTRY),
    may!(Chg, Voice, VOICE),
    may!(Chg, Mail, MAIL),
    may!(Chg, Secret, SECRET),
];

/// RFC 5731, 3.2.5.
const UPDATE_DOMAIN: &[Field] = members![
    must!(Top, Name, NAME),
    may!(Top, Add, Parts),
    may!(Add, Hosts, HOSTS),
    may!(Add, Admin, CONTACTS),
    may!(Add, Tech, CONTACTS),
    may!(Add, Statuses, STATUSES),
    may!(Top, Rem, Parts),
    may!(Rem, Hosts, HOSTS),
    may!(Rem, Admin, CONTACTS),
    may!(Rem, Tech, CONTACTS),
    may!(Rem, Statuses, STATUSES),
    may!(Top, Chg, Parts),
    may!(Chg, Registrant, HANDLE),
    may!(Chg, Secret, SECRET),
];

/// RFC 5732, 3.2.5.
const UPDATE_HOST: &[Field] = members![
    must!(Top, Name, NAME),
    may!(Top, Add, Parts),
    may!(Add, Addrs, ADDRESSES),
    may!(Add, Statuses, STATUSES),
    may!(Top, Rem, Parts),
    may!(Rem, Addrs, ADDRESSES),
    may!(Rem, Statuses, STATUSES),
    may!(Top, Chg, Parts),
    must!(Chg, Name, NAME),
];

/// RFC 5731, 3.2.3. A date has a rule of its own, as names have.
const RENEW_DOMAIN: &[Field] = members![
    must!(Top, Name, NAME),
    must!(Top, Expires, WORD),
    may!(Top, Years, YEARS),
];

/// RFC 3915, 4.2.5.
const REQUEST_RESTORE: &[Field] = without_object![must!(Top, Name, NAME), OP];

/// RFC 3915, 4.2.5. A moment has a rule of its own, as names have.
const REPORT_RESTORE: &[Field] = without_object![
    must!(Top, Name, NAME),
    OP,
    must!(Top, Pre, REPORT_TEXT),
    must!(Top, Post, REPORT_TEXT),
    must!(Top, DelTime, WORD),
    must!(Top, ResTime, WORD),
    must!(Top, Reason, REPORT_TEXT),
    must!(Top, Statements, STATEMENTS),
];

const RESTORE: &[Field] = without_object![
    must!(Top, Name, NAME),
    OP,
    may!(Top, Pre, REPORT_TEXT),
    may!(Top, Post, REPORT_TEXT),
    may!(Top, DelTime, WORD),
    may!(Top, ResTime, WORD),
    may!(Top, Reason, REPORT_TEXT),
    may!(Top, Statements, STATEMENTS),
];

/// RFC 5733, 3.2.4.
const REQUEST_CONTACT: &[Field] = members![
    must!(Top, Name, HANDLE),
    OP,
    must!(Top, Secret, SECRET),
];

/// RFC 5733, 3.1.3; and where `op` isn't known.
const QUERY_CONTACT: &[Field] = members![must!(Top, Name, HANDLE), OP, may!(Top, Secret, SECRET),];

/// RFC 5733, 3.2.4: to approve, to reject and to cancel.
const ANSWER_CONTACT: &[Field] = members![must!(Top, Name, HANDLE), OP];

/// RFC 5731, 3.2.4.
const REQUEST_DOMAIN: &[Field] = members![must!(Top, Name, NAME), OP, must!(Top, Secret, SECRET),];

/// RFC 5731, 3.1.3; and where `op` isn't known.
const QUERY_DOMAIN: &[Field] = members![must!(Top, Name, NAME), OP, may!(Top, Secret, SECRET),];

/// RFC 5731, 3.2.4: to approve, to reject and to cancel.
const ANSWER_DOMAIN: &[Field] = members![must!(Top, Name, NAME), OP];

/// RFC 5730, 2.9.2.3.
const POLL_REQUEST: &[Field] = without_object![OP];

/// RFC 5730, 2.9.2.3.
const POLL_ACK: &[Field] = without_object![OP, must!(Top, Id, MESSAGE_ID)];

const POLL: &[Field] = without_object![OP, may!(Top, Id, MESSAGE_ID)];

/// The forms of the commands. The first that fits is the one.
pub const FORMS: &[CommandForm] = &[
    (plain!(Hello, Hello), HELLO),
    (plain!(Login, Login), LOGIN),
    (plain!(Logout, Logout), LOGOUT),
    (plain!(Balance, Balance), BALANCE),
    (on!(Check, Contact, CheckContact), CHECK_CONTACT),
    (on!(Check, Domain, CheckDomain), CHECK_DOMAIN),
    (on!(Check, Host, CheckHost), CHECK_HOST),
    (on!(Info, Contact, InfoContact), INFO_CONTACT),
    (on!(Info, Domain, InfoDomain), INFO_DOMAIN),
    (on!(Info, Host, InfoHost), INFO_HOST),
    (on!(Create, Contact, CreateContact), CREATE_CONTACT),
    (on!(Create, Domain, CreateDomain), CREATE_DOMAIN),
    (on!(Create, Host, CreateHost), CREATE_HOST),
    (on!(Delete, Contact, DeleteContact), DELETE_CONTACT),
    (on!(Delete, Domain, DeleteDomain), DELETE_DOMAIN),
    (on!(Delete, Host, DeleteHost), DELETE_HOST),
    (on!(Update, Contact, UpdateContact), UPDATE_CONTACT),
    (on!(Update, Domain, UpdateDomain), UPDATE_DOMAIN),
    (on!(Update, Host, UpdateHost), UPDATE_HOST),
    (on!(Renew, Domain, RenewDomain), RENEW_DOMAIN),
    (by_op!(Restore, Request, RequestRestore), REQUEST_RESTORE),
    (by_op!(Restore, Report, ReportRestore), REPORT_RESTORE),
    (no_op!(Restore), RESTORE),
    (
        transfer!(Contact, Request, TransferContact),
        REQUEST_CONTACT,
    ),
    (transfer!(Contact, Query, TransferContact), QUERY_CONTACT),
    (transfer!(Contact, Approve, TransferContact), ANSWER_CONTACT),
    (transfer!(Contact, Reject, TransferContact), ANSWER_CONTACT),
    (transfer!(Contact, Cancel, TransferContact), ANSWER_CONTACT),
    (no_op!(Transfer, Contact), QUERY_CONTACT),
    (transfer!(Domain, Request, TransferDomain), REQUEST_DOMAIN),
    (transfer!(Domain, Query, TransferDomain), QUERY_DOMAIN),
    (transfer!(Domain, Approve, TransferDomain), ANSWER_DOMAIN),
    (transfer!(Domain, Reject, TransferDomain), ANSWER_DOMAIN),
    (transfer!(Domain, Cancel, TransferDomain), ANSWER_DOMAIN),
    (no_op!(Transfer, Domain), QUERY_DOMAIN),
    (by_op!(Poll, Req, PollRequest), POLL_REQUEST),
    (by_op!(Poll, Ack, PollAck), POLL_ACK),
    (no_op!(Poll), POLL),
];

const ORDER: Field = must!(Top, Order, WORD);

/// The members of the operator's order to set and take away statuses.
pub const STATUS_ORDER_FORM: &[Field] = &[
    ORDER,
    OBJ,
    must!(Top, Name, WORD),
    must!(Top, Add, STATUSES),
    must!(Top, Rem, STATUSES),
];

/// The members of the operator's order to enter what a registrar paid, in whole cents.
pub const DEPOSIT_ORDER_FORM: &[Field] = &[
    ORDER,
    must!(Top, Registrar, WORD),
    must!(Top, Cents, NUMBER),
];

/// The members of the operator's order to settle what fell due.
pub const SETTLE_ORDER_FORM: &[Field] = &[ORDER, must!(Top, AtMost, NUMBER)];
