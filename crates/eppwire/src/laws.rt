//! What the definition of a connection's answers comes to.
ghost use Rattle.eppwire.specs.Isolation.{AlikeListsSendTheSame, FramesAreIsolated, LoginsAreIsolated};
ghost use Rattle.eppwire.specs.Late.{LateFramesFail};

/// What a registrar is sent for a frame is what the rules answer in every registry that the registrar
/// can't tell from this one, or one of the two fixed texts.
pub fn frames_are_isolated()
    ensures { FramesAreIsolated }
{}

/// What a registrar is sent over two lists of calls that differ in nothing but what others hide is the same,
/// byte for byte.
pub fn alike_lists_send_the_same()
    ensures { AlikeListsSendTheSame }
{}

/// A login depends on the password of the registrar that it names, and on no other.
pub fn logins_are_isolated()
    ensures { LoginsAreIsolated }
{}

/// After the last moment at which calls are taken each frame of a registrar is sent the fixed text, and
/// nothing is changed.
pub fn late_frames_fail()
    ensures { LateFramesFail }
{}
