//! Domains over the store of rows. `specs/Domains.antt` defines what rows mean. Each call reads the rows
//! of its name or number, and returns `BookFault::Store` if one of them can't be read.
#![tactic(auto)]

mod below;
mod comparison;
mod domain_changes;
mod domains;
mod link_rows;
mod linked;
mod links;
mod names;
mod placing;
mod zone_rows;

pub use below::hosts_below;
pub use domain_changes::{drop_domain, put_domain};
pub use domains::{domain, domain_of};
pub use linked::{is_linked_contact, is_linked_host};
pub use zone_rows::delegations;
