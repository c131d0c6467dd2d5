//! Typed rows of a SQL database. A record is a row of its table; a query returns the records that match,
//! an upsert puts one by its key, and a removal takes those that match. A statement's meaning is
//! computed from its text. Here are also the terms for what a call leaves in rows, said of the registry
//! that the rows mean, and a reader for lists of one row at most.
#![tactic(auto)]

mod definition;
mod likeness;
mod nullable;
mod number;
mod reading;
mod record;
mod transaction;

pub use definition::define;
pub use likeness::{is_schema, is_unused};
pub use nullable::{maybe_number, maybe_text, maybe_text_of};
pub use number::Number;
pub use reading::{only, or_fault};
pub use record::{Record, write};
pub use transaction::{begin, commit, rollback};
