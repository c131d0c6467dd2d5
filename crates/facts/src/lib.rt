//! What a command is judged by: the facts of a registry that matter to it, none of which its registrar
//! may not see, and the lists that it returns.
#![tactic(auto)]

mod facts;
mod lists;

pub use facts::{
    AccountFacts, ContactFacts, DomainFacts, Facts, HOLDING_LIMIT, HostFacts, OldestMessage,
    QueueFacts, Superordinate,
};
pub use lists::{
    Named, adds_what_is_there, amended_names, count_kept, has_status_twice, has_twice, is_over,
    removes_what_is_not,
};
