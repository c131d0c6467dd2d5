//! What a command concerns: the contacts and domains that must have lapsed before the command is
//! answered. Others may be behind the clock, and no reply shows it. `specs/Concerns` defines both what a
//! command names and what it concerns; `specs/ConcernLaws` has the laws.
#![tactic(auto)]

mod concern;
mod given;
mod laws;

pub use concern::{Meant, is_about};
pub use given::Names;
pub use laws::{
    commands_are_answered_as_now, orders_are_carried_out_as_now, what_is_concerned_settles,
};
