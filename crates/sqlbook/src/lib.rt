//! A book over rows: what rows mean to it, and its changes, each of which keeps the stored sums right.
#![tactic(auto)]

mod book;
mod changed_accounts;
mod changed_domains;
mod changed_terms;
mod files;
mod provenance;
mod questions;
mod records;
mod redating;
mod renaming;

pub use book::{MemoryBook, SqlBook, adopt, in_memory, into_connection, show_clean, taken};
pub use changed_terms::set_terms;
pub use files::into_files;
pub use provenance::{InMemory, OnDisk, Provenance};
pub use records::SqlRecords;
pub use sqltables::Unadopted;
