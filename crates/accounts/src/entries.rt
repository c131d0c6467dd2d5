//! What time alone enters into accounts. Entries commute, so that the order in which objects are
//! looked at makes no difference.
ghost use Rattle.std.specs.Prelude.{◌≡◌};
ghost use Rattle.accounts.specs.Entries as spec;

use crate::line::{Line, LineKind, TransferStart};
use crate::message::Message;
use basis::registrar::RegistrarNo;
use calendar::Moment;
use objects::Roid;

/// The charge of an automatic year, whose grace begins at once.
#[derive(Clone, Copy, Drop)]
pub struct AutoRenewal {
    pub roid: Roid,
    pub moment: Moment,
    /// Whole cents.
    pub cents: u64,
}

/// An entry that time makes in an account.
#[derive(Drop)]
pub enum LapseEntry {
    Renewal(AutoRenewal),
    /// The grace of a completed transfer begins.
    Start(TransferStart),
    Notice(Message),
}

/// An entry, and whose account it is made in.
#[derive(Drop)]
pub struct Posting {
    pub registrar: RegistrarNo,
    pub what: LapseEntry,
}

impl AutoRenewal {
    /// What the year is charged by.
    pub fn line(self) -> Line
        ensures { result ≡ spec.renewal_line self }
    {
        Line {
            kind: LineKind::AutoRenew,
            roid: Some(self.roid),
            recorded: self.moment,
            years: 1,
            cents: self.cents,
            started: Some(self.moment),
            refunded: None,
        }
    }
}
