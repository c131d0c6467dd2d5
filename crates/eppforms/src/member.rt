//! The members of commands and orders, and their sections.
ghost use Rattle.std.specs.Prelude.{◌≡◌};
ghost use Rattle.eppforms.specs.Member as spec;

/// A member of a command or an order.
#[derive(Clone, Copy)]
pub enum Member {
    Cmd,
    Obj,
    Op,
    Id,
    ClTrid,
    Pw,
    Version,
    Name,
    Names,
    Years,
    Registrant,
    Admin,
    Tech,
    Hosts,
    Secret,
    Postal,
    Add,
    Rem,
    Chg,
    Addrs,
    Statuses,
    Voice,
    Mail,
    Org,
    Street,
    City,
    Sp,
    Pc,
    Cc,
    Expires,
    Pre,
    Post,
    DelTime,
    ResTime,
    Reason,
    Statements,
    Order,
    Registrar,
    Cents,
    AtMost,
}

impl Member {
    /// The member's name in the object.
    pub fn text(self) -> &'static str
        ensures { result.now ≡ spec.member_text self }
    {
        match self {
            Member::Cmd => "cmd",
            Member::Obj => "obj",
            Member::Op => "op",
            Member::Id => "id",
            Member::ClTrid => "clTRID",
            Member::Pw => "pw",
            Member::Version => "version",
            Member::Name => "name",
            Member::Names => "names",
            Member::Years => "years",
            Member::Registrant => "registrant",
            Member::Admin => "admin",
            Member::Tech => "tech",
            Member::Hosts => "hosts",
            Member::Secret => "secret",
            Member::Postal => "postal",
            Member::Add => "add",
            Member::Rem => "rem",
            Member::Chg => "chg",
            Member::Addrs => "addrs",
            Member::Statuses => "statuses",
            Member::Voice => "voice",
            Member::Mail => "mail",
            Member::Org => "org",
            Member::Street => "street",
            Member::City => "city",
            Member::Sp => "sp",
            Member::Pc => "pc",
            Member::Cc => "cc",
            Member::Expires => "expires",
            Member::Pre => "pre",
            Member::Post => "post",
            Member::DelTime => "delTime",
            Member::ResTime => "resTime",
            Member::Reason => "reason",
            Member::Statements => "statements",
            Member::Order => "order",
            Member::Registrar => "registrar",
            Member::Cents => "cents",
            Member::AtMost => "at_most",
        }
    }
}

/// The section of a member: in the command, or in a part of it.
#[derive(Clone, Copy, PartialEq, Eq)]
pub enum Section {
    Top,
    Postal,
    Add,
    Rem,
    Chg,
    ChgPostal,
}

pub const SECTIONS: [Section; 6] = [
    Section::Top,
    Section::Postal,
    Section::Add,
    Section::Rem,
    Section::Chg,
    Section::ChgPostal,
];

/// The sections of an update that say what it changes.
pub const CHANGES: [Section; 3] = [Section::Add, Section::Rem, Section::Chg];
