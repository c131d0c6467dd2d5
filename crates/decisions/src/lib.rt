//! What a command or an order changes: a list of changes to the registry.
#![tactic(auto)]

mod case;
mod change;
mod created;
mod decision;
mod order;
mod transfers;
mod updated;

pub use change::Change;
pub use decision::{Decision, decide};
pub use order::{MOST_DEPOSITED, OrderDecision, decide_deposit, decide_order};
