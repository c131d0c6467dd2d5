//! Frames and sessions of EPP over TCP (RFC 5734): bytes to payloads and back. Each frame that is read
//! is answered by one reply, in order.
//!
//! [`read_frame`] and [`write_frame`] go on until a frame is complete, in however many pieces the
//! connection moves it. A frame is read into a buffer that [`frame_buffer`] allocates once, before the
//! first frame, so neither of them allocates memory. Two replies need no memory either.
//!
//! [`serve_session`] knows nothing of commands: a [`Peer`] makes a reply from a payload and a moment.
//! What is written is a function of the bytes that are read, the moments that the clock tells, and the
//! peer.
#![tactic(auto)]

mod clock;
mod frame;
mod frame_laws;
mod peer;
mod session;
mod session_laws;
mod texts;

pub use clock::{Clock, ListClock};
pub use frame::{ROOM, Received, frame_buffer, read_frame, write_frame};
pub use frame_laws::inputs_are_frames;
pub use peer::{Answer, Peer};
pub use session::{SessionEnd, serve_session};
pub use session_laws::sessions_take_frames;
pub use texts::{CLOSING, FAILED, write_closing, write_failed};
