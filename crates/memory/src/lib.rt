//! The registry in memory: tables of a database without a file.
//!
//! [`run_script`] answers a script over a new registry. [`execute_in_memory`] has isolation with no
//! premise about the book, since memory never returns anything wrong.
#![tactic(auto)]

mod registry_in_memory;
mod scripts;

pub use registry_in_memory::execute_in_memory;
pub use scripts::run_script;
