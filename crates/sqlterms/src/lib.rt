//! The clock and the terms of a registry over the rows of a database. They are in the one row of `meta`,
//! the tables of periods, and the rows of accounts, which have the ids of registrars.
#![tactic(auto)]

mod counts;
mod dated;
mod ids;
mod labels;
mod meta;
mod naming;
mod reading;
mod writing;

pub use reading::{clock, days, terms};
pub use writing::{set_clock, set_terms};
