//! The small value types that all other crates use. Each has a `Model`. In contracts a text is the list
//! of its bytes, and a list is its items. A map is a finite map, and a set is a finite set. A registrar
//! is its place in the policy's list. Where a value lies in memory is never part of a contract.
#![tactic(auto)]

pub mod list;
pub mod maps;
pub mod registrar;
pub mod sets;
pub mod text;
