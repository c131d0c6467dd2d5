//! A law: each input is cut into frames in one way.
ghost use Rattle.frames.specs.Frames.{AreFrames, AreFramesInOneWay};

/// Each byte string is the frames of some payloads and then nothing, a cut frame, or a bad length
/// and any rest; and that in one way.
pub fn inputs_are_frames()
    ensures some { AreFrames }
    ensures once { AreFramesInOneWay }
{}
