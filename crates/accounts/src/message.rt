//! Messages to a registrar (RFC 5730, 2.9.2.3).
ghost use Rattle.std.specs.Prelude.{◌≡◌, IfOk};
ghost use Rattle.accounts.specs.Messages as spec;
ghost use Rattle.accounts.specs.declared.message.Origin.TheVariants.{Lapse};

use basis::text::Text;
use calendar::Moment;
use std::alloc::{AllocError, Global};
use std::cmp::Ordering;

/// What time alone brought, in the order of the letters that identifiers have for it.
#[derive(Clone, Copy, Debug, PartialEq, Eq, Drop)]
pub enum LapseNotice {
    RenewedAutomatically,
    Purged,
    TransferApproved,
}

/// What another registrar's command brought.
#[derive(Clone, Copy, Debug, PartialEq, Eq, Drop)]
pub enum CommandNotice {
    TransferRequested,
    TransferApproved,
    TransferRejected,
    TransferCancelled,
}

/// Where a message comes from.
#[derive(Clone, Copy, Debug, PartialEq, Eq, Drop)]
pub enum Origin {
    Lapse(LapseNotice),
    /// A command, with the recipient's own number of the message.
    Command(u64, CommandNotice),
}

/// The kinds of objects that messages are about.
#[derive(Clone, Copy, Debug, PartialEq, Eq, Drop)]
pub enum Subject {
    Contact,
    Domain,
}

/// A message in a registrar's queue. Messages are ordered by moment; at one moment those of a lapse
/// come first, by their letter and then the object's name, and then those of commands by number.
#[derive(Clone, Drop)]
pub struct Message {
    pub moment: Moment,
    pub origin: Origin,
    pub name: Text,
    pub subject: Subject,
}

impl LapseNotice {
    fn rank(self) -> u64
        ensures { result ≡ spec.letter_rank self }
    {
        match self {
            LapseNotice::RenewedAutomatically => 0,
            LapseNotice::Purged => 1,
            LapseNotice::TransferApproved => 2,
        }
    }

    /// The letter that an identifier has for it.
    fn letter(self) -> &'static str
        ensures { result.now ≡ spec.letter_of self }
    {
        match self {
            LapseNotice::RenewedAutomatically => "A",
            LapseNotice::Purged => "P",
            LapseNotice::TransferApproved => "T",
        }
    }
}

impl CommandNotice {
    fn rank(self) -> u8
        ensures { result ≡ spec.command_rank self }
    {
        match self {
            CommandNotice::TransferRequested => 0,
            CommandNotice::TransferApproved => 1,
            CommandNotice::TransferRejected => 2,
            CommandNotice::TransferCancelled => 3,
        }
    }
}

impl Origin {
    /// 0 for a lapse, and 1 for a command.
    fn class(self) -> u8
        ensures { result ≡ spec.class_of self }
    {
        match self {
            Origin::Lapse(_) => 0,
            Origin::Command(_, _) => 1,
        }
    }

    /// The place of the message among those of its class and moment.
    fn number(self) -> u64
        ensures { result ≡ spec.number_of self }
    {
        match self {
            Origin::Lapse(notice) => notice.rank(),
            Origin::Command(number, _) => number,
        }
    }

    fn tie(self) -> u8
        ensures { result ≡ spec.tie_of self }
    {
        match self {
            Origin::Lapse(_) => 0,
            Origin::Command(_, notice) => notice.rank(),
        }
    }
}

impl Subject {
    fn rank(self) -> u8
        ensures { result ≡ spec.subject_rank self }
    {
        match self {
            Subject::Contact => 0,
            Subject::Domain => 1,
        }
    }
}

impl Message {
    /// The identifier by which its recipient acknowledges it.
    pub fn id(&self, alloc: Global) -> Result<Text, AllocError>
        ensures { IfOk result (λ id. id ≡ spec.message_id self.now) }
    {
        match self.origin {
            Origin::Command(number, _) => Ok(Text::from_string(format!(in alloc; "C{number}")?)),
            Origin::Lapse(notice) => lapse_id(alloc, notice, self.moment, &self.name),
        }
    }
}

fn lapse_id(
    alloc: Global,
    notice: LapseNotice,
    moment: Moment,
    name: &Text,
) -> Result<Text, AllocError>
    ensures { IfOk result (λ id. id ≡ spec.id_of (Lapse notice) moment name.now) }
{
    let (secs, letter) = (moment.secs() as u64, notice.letter());
    let name = name.as_str();
    Ok(Text::from_string(format!(in alloc; "L{secs}-{letter}-{name}")?))
}

impl PartialEq for Message {
    ghost use Rattle.std.specs.Cmp as Cmp;
    ghost use Rattle.std.specs.Ordering.{eq_by_cmp};
    ghost use Rattle.accounts.specs.Messages.{message_cmp};
    ghost use Rattle.accounts.specs.MessageOrder.{message_eq_equiv};

    ghost eq = { eq_by_cmp message_cmp };

    ghost laws = { Cmp.partial_equiv_from_equiv message_eq_equiv };

    fn eq(&self, other: &Self) -> bool {
        self.cmp(other).is_eq()
    }
}

impl Eq for Message {
    ghost use Rattle.accounts.specs.MessageOrder.{message_eq_equiv};

    ghost laws = { message_eq_equiv };
}

impl PartialOrd for Message {
    ghost use Rattle.std.specs.{Prelude.{Some, refl}, Cmp.partial_order_from_agreeing_total};
    ghost use Rattle.accounts.specs.Messages.{message_cmp};
    ghost use Rattle.accounts.specs.MessageOrder.{message_cmp_total};

    ghost partial_cmp = { λ x y. Some (message_cmp x y) };

    ghost laws = { partial_order_from_agreeing_total message_cmp message_cmp_total (λ x y. refl) (λ x y. refl) };

    fn partial_cmp(&self, other: &Self) -> Option<Ordering> {
        Some(self.cmp(other))
    }
}

impl Ord for Message {
    ghost use Rattle.std.specs.Prelude.{refl};
    ghost use Rattle.accounts.specs.Messages.{message_cmp};
    ghost use Rattle.accounts.specs.MessageOrder.{message_cmp_total};

    ghost cmp = { message_cmp };

    ghost total = { message_cmp_total };

    ghost matches_partial_cmp = { λ x y. refl };

    ghost matches_eq = { λ x y. refl };

    fn cmp(&self, other: &Self) -> Ordering {
        self.moment
            .cmp(&other.moment)
            .then(self.origin.class().cmp(&other.origin.class()))
            .then(self.origin.number().cmp(&other.origin.number()))
            .then(self.name.cmp(&other.name))
            .then(self.subject.rank().cmp(&other.subject.rank()))
            .then(self.origin.tie().cmp(&other.origin.tie()))
    }
}
