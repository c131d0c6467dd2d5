//! The registry on one port or two: connections are served by turns over a wire with limits, so that no
//! client can hold a port. `serve_one` serves a connection of the public port, and `serve_request` one
//! of the operator's.
#![tactic(auto)]

mod listener;
mod ports;

pub use listener::serve_port;
pub use ports::{Office, serve_ports};
