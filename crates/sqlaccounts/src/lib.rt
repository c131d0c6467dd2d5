//! The accounts of registrars over the rows of a database: their counters, lines, balances and waiting
//! messages.
//!
//! An account's row has its balance and its number of waiting messages, so no call adds up lines. A
//! question is answered where these sums are right, and each change keeps them right. A registrar's
//! queue has the order of its rows' columns.
//!
//! `posted` makes any changes of an account. It takes the account's row and gives it as they leave it:
//! the caller reads that row once, and writes it once.
//!
//! Each call is a few statements by an index. The lines of a domain are found by its columns. Only two
//! calls go over all lines of an account: the removal of a deposit, and the question for all lines.
#![tactic(auto)]

mod account;
mod counting;
mod finding;
mod graces;
mod line;
mod posting;
mod queue;
mod reading_lines;
mod swapping;

pub use account::{found_row, maybe_row, number_of, open_account};
pub use counting::{counts, waiting};
pub use graces::{grace_end, maybe_grace_end};
pub use line::balance;
pub use posting::posted;
pub use queue::oldest;
pub use reading_lines::{lines, lines_on};
