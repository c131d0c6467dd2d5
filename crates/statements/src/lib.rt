//! The statement of a registrar's account, as comma-separated values (RFC 4180).
//!
//! - `extract`: the lines and the account that a target asks for.
//! - `in_time`: the lines of an account in the order of their moments.
//! - `table`: the rows of lines, each with the balance after it.
#![tactic(auto)]

mod extract;
mod in_time;
mod table;

pub use extract::{Bounds, Extract, account_asked, after, bounds_asked};
pub use table::statement;
