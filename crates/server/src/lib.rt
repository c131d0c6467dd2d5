//! The registry on a port: each connection is served by the protocol that its first byte shows.
//!
//! [`serve_one`] serves one connection, over any reader, writer and clock, and returns the registry for
//! the next one: a session of EPP, or one request of HTTP. [`zone_on`] writes the zone of a registry.
#![tactic(auto)]

mod at_moment;
mod clock;
mod closing;
mod connection;
mod http;
mod laws;
mod zone;

pub use at_moment::AtMoment;
pub use clock::MachineClock;
pub use closing::{let_go, let_go_with_more};
pub use connection::{ConnectionEnd, Served, serve_one};
pub use http::HttpEnd;
pub use laws::{
    frames_begin_connections, passwords_are_for_logins, public_texts_agree, sessions_are_runs,
};
pub use zone::{ZoneExportFault, zone_on};
