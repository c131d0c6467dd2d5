//! Contacts and hosts over the store of rows. `specs/Objects.antt` defines what rows mean. Each question
//! reads the rows of its name or number, and returns `BookFault::Store` if one of them can't be read.
//!
//! Each change writes the row of one name and its children: a contact's transfer, a host's addresses
//! (`specs/Changes.antt`). An object that could not be read back is refused. Nothing else changes, and
//! each number keeps its name.
//!
//! A host's row also has the host's sponsor (`specs/Sponsors.antt`), which is written with the host.
//! `set_sponsor_below` writes it when the domain above gets another sponsor. A row whose sponsor is
//! wrong is refused, so no change mends it unseen.
//!
//! The last transfer of a domain is in the same table as a contact's, so both are put here
//! (`Transferable`). Rows with names, those of domains too, are found and put in one way (`NamedRow`).
#![tactic(auto)]

mod addresses;
mod contact_changes;
mod contacts;
mod host_changes;
mod host_names;
mod host_rows;
mod host_sponsors;
mod hosts;
mod named_rows;
mod sponsors;
mod transfers;

pub use addresses::are_same;
pub use contact_changes::{drop_contact, put_contact};
pub use contacts::{contact, contact_of, has_contact, last_transfer};
pub use host_changes::{drop_host, put_host};
pub use host_names::rename_row;
pub use host_sponsors::set_sponsor_below;
pub use hosts::{has_host, host, host_addresses};
pub use named_rows::{NamedRow, place_row, row_named};
pub use transfers::{Transferable, clear_transfer, put_last_transfer};
