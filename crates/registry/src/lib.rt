//! The registry that registrars and the operator use: a command or an order is one transaction and
//! one step of the rules. A registrar's reply depends on nothing that the registrar may not see:
//! see the clause `isolation` of [`Registry::execute`].
#![tactic(auto)]

mod askable;
mod backlog;
mod command;
mod faces;
mod fault;
mod greeting;
mod lapse;
mod laws;
mod opening;
mod order;
mod passing;
mod registry;
mod settlement;
mod transaction;
mod work;

pub use backlog::Backlog;
pub use fault::{Fault, OpenFault};
pub use laws::look_ups_are_public;
pub use registry::Registry;
