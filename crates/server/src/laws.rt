//! The protocol that the first byte of a connection shows, and what everyone can learn.
ghost use Rattle.server.specs.Connections.{FramesBeginConnections};
ghost use Rattle.server.specs.Public.{PublicPartsLookSame, PublicTextsAgree};
ghost use Rattle.server.specs.SessionRuns.{PasswordsAreForLogins, SessionsAreAlike, SessionsAreAnswered, SessionsAreRuns, SessionsAreSentTheSame, SessionsTellTheSame};

/// Every frame begins a connection of EPP, so none is taken for another protocol.
pub fn frames_begin_connections()
    ensures { FramesBeginConnections }
{}

/// Two registries of which everyone may know the same at a moment give the same answers over HTTP and
/// the same zone, byte for byte. So nothing else is in them: no mail, no postal data, no secret, and
/// nothing of an account. Two registries of one public part are such.
pub fn public_texts_agree()
    ensures texts { PublicTextsAgree }
    ensures parts { PublicPartsLookSame }
{}

/// A session is the frames of its input at the moments of its clock, answered one after another. They are a run
/// of the registry, so the laws of runs hold of sessions, to the byte. Two sessions with the same input at the
/// same moments are sent the same bytes, if nothing disturbs them and the registries are the same by then.
/// It doesn't matter what was settled before. The same holds of registries that differ in what others hide
/// from a registrar. Then every question may be that registrar's, and it presents no right secret of what differs.
pub fn sessions_are_runs()
    ensures answered { SessionsAreAnswered }
    ensures runs { SessionsAreRuns }
    ensures same { SessionsAreSentTheSame }
    ensures alike { SessionsAreAlike }
    ensures hidden { SessionsTellTheSame }
{}

/// What a session is answered after its login depends on no password.
pub fn passwords_are_for_logins()
    ensures { PasswordsAreForLogins }
{}
