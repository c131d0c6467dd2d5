//! Names of domains and hosts, and addresses of hosts: which texts are valid, their canonical forms, and
//! which names belong in the zone.
//!
//! A text is checked in two steps. `NameFault::Syntax` means that it isn't a name. `NameFault::Policy`
//! means that it is a name, but one that the zone doesn't keep. `specs/Names.antt` defines both, and
//! `specs/Addresses.antt` defines addresses.
#![tactic(auto)]

mod address;
mod canonical;
mod domain;
mod fault;
mod host;
mod ipv6;
mod label;
mod requested;
mod zone;

pub use address::Address;
pub use canonical::reads_as_itself;
pub use domain::DomainName;
pub use fault::NameFault;
pub use host::HostName;
pub use label::{is_label, is_name};
pub use requested::RequestedName;
pub use zone::{Zone, last_two_labels, superordinate_text};
