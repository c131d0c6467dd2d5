//! The tables of the previous schema, which are only read, and copied into today's.
#![tactic(auto)]

mod copied;
mod copying;
mod reading;

pub use copied::Copied;
pub use copying::{TableName, copy_tables, put_all};
pub use reading::OldRows;
