//! A registry in ordered maps: the records of a book in memory, and what undoes the changes of the open
//! transaction.
//!
//! A call costs a look-up, and a copy of what it replaces or returns. What is due, the objects that name
//! another, and the hosts below a domain are found by a walk over a map.
#![tactic(auto)]

mod account_edit;
mod changing;
mod content;
mod edit;
mod lapsing;
mod ledgers;
mod plain;
mod posting;
mod records;
mod renamed;
mod renaming;
mod transaction;

pub use plain::{Plain, PlainBook, never_refuses};
pub use transaction::new_book;
