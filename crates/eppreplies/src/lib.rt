//! Answers in JSON: the reply to a command (RFC 5730, 2.6), and the answer to an order of the operator.
//!
//! - `reply`: a reply as a payload.
//! - `answer`: the answer to an order.
//! - `greeting`: the answer to hello.
//! - `session`: replies that answer no registrar's command.
#![tactic(auto)]

mod answer;
mod greeting;
mod reply;
mod session;

pub use answer::order_bytes;
pub use greeting::greeting_bytes;
pub use reply::reply_bytes;
pub use session::anonymous_reply_bytes;
