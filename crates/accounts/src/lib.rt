//! The accounts of registrars: lines of money in cents, a queue of messages, and counters.
//!
//! [`Lines`] have no order. They keep their sum, and find the lines of a domain by a look-up. A
//! [`Queue`] has the order of its messages. A [`LapseEntry`] is what time alone adds to an account; the
//! order of entries doesn't matter.
#![tactic(auto)]

mod account;
mod counters;
mod entries;
mod groups;
mod line;
mod lines;
mod message;
mod queue;

pub use account::{Account, saturating_next};
pub use counters::Counters;
pub use entries::{AutoRenewal, LapseEntry, Posting};
pub use line::{
    Line, LineChange, LineKind, LineSwap, TransferRefund, TransferStart, is_same_roid, object_rank,
};
pub use lines::Lines;
pub use message::{CommandNotice, LapseNotice, Message, Origin, Subject};
pub use queue::Queue;
