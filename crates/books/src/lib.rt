//! The trait `Book`, which keeps a registry, and the one implementation of it over [`Records`], wherever
//! those are kept.
#![tactic(auto)]

mod applying;
mod book;
mod concerning;
mod faces;
mod finding;
mod grouping;
mod kept;
mod records;
mod zone;

pub use book::Book;
pub use kept::Kept;
pub use records::{Posts, Records};
pub use states::{BookFault, Ready};
