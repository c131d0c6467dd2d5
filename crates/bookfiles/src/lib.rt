//! A registry in a file: it is created, opened, and opened again after the machine stopped.
#![tactic(auto)]

mod connection;
mod files;
mod laws;
mod unopened;

pub use connection::{NotOpened, connect, connection_in};
pub use files::{FileBook, FileUnopened, book_in, open_in, registry_in};
pub use laws::stops_are_crashes;
pub use unopened::Unopened;
