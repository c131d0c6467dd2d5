//! What time does to objects: the phases of a deletion, the grace periods of a domain (RFC 3915), and
//! the lapse, which is an object's state at a moment.
//!
//! A lapse is a closed form: a lapse to one moment, and then to a later one, equals the lapse to the
//! later one. Outside the object it is a list of postings to accounts, in any order.
#![tactic(auto)]

mod change;
mod contact;
mod deletion;
mod domain;
mod due;
mod due_object;
mod grace;
mod lapsed;
mod period;
mod refund;
mod renewal;
mod restoration;
mod transfer;

pub use change::{AccountChange, Notification, RefundUnder, RunningRefund};
pub use contact::lapse_contact;
pub use deletion::{phase, purged_under};
pub use domain::lapse;
pub use due::{contact_due_by, due_at, due_by};
pub use due_object::Due;
pub use grace::{graces, period_of, runs, standing};
pub use lapsed::Lapsed;
pub use period::{end_of, end_under, is_within};
pub use refund::{GivenBack, given_back};
pub use restoration::years_to_outlast;
pub use transfer::{ended, gained, hand_over, hand_over_contact, is_locked, requested};
