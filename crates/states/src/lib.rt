//! The state of anything that keeps records in transactions, what each call leaves, and why a call gives
//! up. The words are the same for rows of a database and for the registry that the rows mean.
#![tactic(auto)]

mod fault;
mod readiness;

pub use fault::BookFault;
pub use readiness::Ready;
