//! What a payload asks for: a registrar's command (RFC 5730, 2.5), or an order of the operator.
//!
//! - `command`: a payload as a command.
//! - `request`, with `contact`, `domain` and `host`: the request of a well-formed command.
//! - `reading`, with `values`: the value of a member of a well-formed command.
//! - `dates`: dates and moments in members.
//! - `session`: a payload in a session, and before a login.
//! - `order`: a payload as an order of the operator.
#![tactic(auto)]

mod command;
mod contact;
mod dates;
mod domain;
mod host;
mod order;
mod reading;
mod request;
mod session;
mod values;

pub use command::command_of;
pub use order::order_of;
pub use session::{before_login, in_session};
