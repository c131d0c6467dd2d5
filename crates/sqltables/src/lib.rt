//! The tables of the registry: a record for each row, and a store of rows with the statements that find,
//! put and remove them.
#![tactic(auto)]

/// A record of a row's values, each by its kind and the place of its column.
macro_rules! by_columns {
    ($record:ident of $row:ident: $($kind:ident $field:ident $at:literal),*) => {
        Ok($record { $($field: column!($row, $kind $at)),* })
    };
}

macro_rules! column {
    ($row:ident, number $at:literal) => { $row.get($at)? };
    ($row:ident, text $at:literal) => { Text::from_string($row.get($at)?) };
    ($row:ident, maybe_number $at:literal) => { $row.get($at)? };
    ($row:ident, maybe_text $at:literal) => { maybe_text_of($row.get($at)?) };
}

/// A record's columns as parameters, in their order, each a number or a text or one that may be absent.
macro_rules! parameters {
    ($record:ident: $($kind:ident $($field:ident).+),*) => {
        [$(parameter!($record, $kind $($field).+)),*]
    };
}

macro_rules! parameter {
    ($record:ident, number $($field:ident).+) => { $record.$($field).+.to_sql() };
    ($record:ident, text $($field:ident).+) => { $record.$($field).+.as_str().to_sql() };
    ($record:ident, maybe_number $($field:ident).+) => { maybe_number($record.$($field).+) };
    ($record:ident, maybe_text $($field:ident).+) => { maybe_text(&$record.$($field).+) };
}

mod account;
mod address;
mod adoption;
mod answers;
mod balance;
mod contact;
mod day;
mod domain;
mod form;
mod host;
mod line;
mod link;
mod message;
mod meta;
mod readiness;
mod records;
mod schema;
mod store;
mod transfer;

pub use account::AccountRow;
pub use address::AddressRow;
pub use adoption::{Unadopted, reread};
pub use balance::bytes_of_balance;
pub use contact::{ContactRow, PostalRow};
pub use day::DayRow;
pub use domain::DomainRow;
pub use form::Form;
pub use host::HostRow;
pub use line::{GraceRow, LineRow};
pub use link::LinkRow;
pub use message::MessageRow;
pub use meta::MetaRow;
pub use readiness::{SCHEMA_NUMBER, form_of};
pub use records::{fault_of, read_all};
pub use schema::{create, create_first};
pub use store::RowStore;
pub use transfer::TransferRow;
