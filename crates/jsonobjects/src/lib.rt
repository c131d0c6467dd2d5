//! Objects of JSON, member by member in the order of their names. Replies to registrars and answers of
//! RDAP are made of them.
#![tactic(auto)]

mod item;

pub use item::{Item, Shown, object, states, texts};
