//! A law: a session answers the frames of its input, in their order.
ghost use Rattle.frames.specs.Sessions.{TakesFramesInOrder};

use crate::peer::Peer;

/// The payloads of a run are the first of its input's frames, in their order, and the rest of the
/// input is the frames that it hasn't come to.
pub fn sessions_take_frames<P: Peer>()
    ensures { TakesFramesInOrder P.answers }
{}
