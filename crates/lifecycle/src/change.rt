//! What commands, orders and time do to an account: words, and the one change that reads the policy.
ghost use Rattle.std.specs.Prelude.{◌≡◌};
ghost use Rattle.lifecycle.specs.Changes as spec;

use crate::grace::runs;
use accounts::{
    CommandNotice, LapseEntry, Line, LineChange, Message, Origin, Subject, TransferRefund,
};
use basis::text::Text;
use calendar::Moment;
use objects::Roid;
use policy::Policy;

/// A domain that is deleted at a moment: each line whose grace runs is given back.
#[derive(Clone, Copy, Drop)]
pub struct RunningRefund {
    pub roid: Roid,
    /// When the domain was last transferred.
    pub transferred: Option<Moment>,
    pub moment: Moment,
}

/// A message that a command brings. Its recipient numbers it.
#[derive(Drop)]
pub struct Notification {
    pub moment: Moment,
    pub notice: CommandNotice,
    pub name: Text,
    pub subject: Subject,
}

/// A change of an account.
#[derive(Drop)]
pub enum AccountChange {
    /// A deposit or a charge.
    Charge(Line),
    RefundRunning(RunningRefund),
    RefundTransfer(TransferRefund),
    Lapse(LapseEntry),
    Notify(Notification),
    /// The oldest message is acknowledged, where this is its identifier.
    Ack(Text),
    CountCommand,
    TakeSerial,
}

impl Notification {
    /// The message, with the recipient's number for it.
    pub fn numbered(self, number: u64) -> Message
        ensures { result ≡ spec.numbered number self }
    {
        Message {
            moment: self.moment,
            origin: Origin::Command(number, self.notice),
            name: self.name,
            subject: self.subject,
        }
    }
}

/// A refund, under the policy that says which graces run.
#[derive(Drop)]
pub struct RefundUnder<'a> {
    pub refund: RunningRefund,
    pub policy: &'a Policy,
}

impl LineChange for RefundUnder<'_> {
    ghost use Rattle.lifecycle.specs.Changes.{refunded_under};
    ghost use Rattle.lifecycle.specs.Untouched.{refund-elsewhere, refund-stays};

    ghost domain = { λ r. r.refund.roid };

    ghost changed = { refunded_under };

    ghost elsewhere = { refund-elsewhere };

    ghost stays = { refund-stays };

    fn domain(&self) -> Roid {
        self.refund.roid
    }

    fn changed(&self, line: Line) -> Line {
        let refund = &self.refund;
        let mut line = line;
        if runs(
            &line,
            &refund.roid,
            refund.transferred,
            refund.moment,
            self.policy,
        ) {
            line.refunded = Some(refund.moment);
        }
        line
    }
}
