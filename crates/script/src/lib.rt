//! Scripts: lines of commands and orders, answered one by one over a registry.
#![tactic(auto)]

mod answer;
mod exit;
mod line;
mod order;
mod script;

pub use exit::Exit;
pub use line::{Line, Sender};
pub use order::{deposit_on, order_on};
pub use script::run_on;
