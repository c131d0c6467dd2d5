//! The objects of a registry: domains (RFC 5731), hosts (RFC 5732) and contacts (RFC 5733), with their
//! statuses and transfers, and the part of them that a registrar sees or a zone has.
//!
//! In contracts each struct and enum is its own type: a definition about a `Domain` is about this
//! record.
#![tactic(auto)]

mod contact;
mod domain;
mod grace;
mod host;
mod links;
mod roid;
mod sight;
mod status;
mod transfer;
mod zone;

pub use contact::{Contact, ContactFace, Postal, shown_contact};
pub use domain::{Deletion, Domain, DomainFace, FullDomain, Links};
pub use grace::{Graces, Phase, Standing};
pub use host::{Host, HostFace, is_below, shown_host};
pub use links::{has_name, in_order};
pub use roid::{ObjectKind, Roid};
pub use sight::Seen;
pub use status::{Rgp, Status, amended_statuses, has_status, with_linked};
pub use transfer::{Transfer, TransferState};
pub use zone::{Delegation, Glue, ZoneData};
