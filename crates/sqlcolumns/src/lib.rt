//! How values of the registry are stored in the columns of its tables, and read back.
//!
//! Each value has a function that returns its column or its row, and one that reads it. What was written
//! is read back; a column that no value has reads as none.
#![tactic(auto)]

mod above;
mod code;
mod contact;
mod domain;
mod host;
mod line;
mod message;
mod moment;
mod number;
mod registration;
mod roid;
mod texts;
mod transfer;

pub use above::above_column;
pub use code::{Coded, Role};
pub use contact::{contact_of_row, contact_row, is_contact};
pub use domain::{deletion_of_row, domain_of_row, domain_row, is_domain};
pub use host::{host_of_row, host_row, is_host};
pub use line::{is_line, line_of_row, line_row};
pub use message::{message_of_row, message_row};
pub use moment::{maybe_moment_column, maybe_moment_of_column, moment_column, moment_of_column};
pub use number::{
    counter_column, counter_of_column, exact_column, exact_of_column, maybe_registrar_column,
    maybe_registrar_of_column, registrar_column, registrar_of_column, years_column,
    years_of_column,
};
pub use roid::is_roid;
pub use texts::{statuses_column, statuses_of_column, street_column, street_of_column};
pub use transfer::{is_same, is_transfer, transfer_of_row, transfer_row};
