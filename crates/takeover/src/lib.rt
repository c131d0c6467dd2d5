//! A registry of the previous schema is taken over into today's tables.
#![tactic(auto)]

mod files;
mod graces;
mod laws;
mod migrating;
mod program;

pub use files::{into_new_files, into_old_files};
pub use laws::takeovers_are_whole;
pub use migrating::{MigrateFault, migrate};
pub use program::{Tried, migrate_on};
