//! Sessions of EPP with a registry (RFC 5730, 2): who is logged in on a connection, and the reply to
//! each of its frames.
//!
//! A [`Connection`] is the peer of a session, and [`serve_session`] asks it for each frame. What it
//! sends a registrar depends on nothing that the registrar may not see. [`answer_registrar`] answers who is
//! logged in, on a connection and in a script. The other parts of the wire have crates of their own: frames,
//! and commands, orders and replies as JSON.
#![tactic(auto)]

mod answer;
mod connection;
mod laws;

pub use answer::answer_registrar;
pub use connection::Connection;
pub use eppcommands::{command_of, order_of};
pub use eppreplies::{greeting_bytes, order_bytes, reply_bytes};
pub use frames::{Clock, ListClock, SessionEnd, read_frame, serve_session, write_frame};
pub use laws::{
    alike_lists_send_the_same, frames_are_isolated, late_frames_fail, logins_are_isolated,
};
