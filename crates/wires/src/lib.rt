//! Connections of a port, none of which can hold the others up.
//!
//! They wait in a [`Room`] until their first bytes arrive, so silent ones delay nobody; a [`Door`] waits
//! for new ones. [`Rooms`] are those of one port, or of two, which take turns. A [`Wire`] reads and
//! writes the connection whose turn it is, within [`Limits`], which are narrower while another waits. It
//! knows from the frames alone how far a session is ([`progress`]). A read or a write that takes longer
//! fails, as if the peer were gone. A [`Log`] prints what is asked and answered, and counts it.
#![tactic(auto)]

mod asks;
mod counts;
mod door;
mod figures;
mod limits;
mod line;
mod log;
mod progress;
mod replies;
mod room;
mod rooms;
mod turn;
mod wire;

pub use door::{Door, next_turn};
pub use figures::write_figures;
pub use limits::Limits;
pub use log::Log;
pub use room::Room;
pub use rooms::Rooms;
pub use turn::{Port, Turn};
pub use wire::{Wire, WireReader, WireWriter};
