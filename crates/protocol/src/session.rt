//! What a connection is sent before a registrar is logged in, and in its session (RFC 5730, 2.4,
//! 2.9.1).

use crate::command::Command;
use crate::form::FormFault;
use basis::text::Text;

/// Who wants to log in, and by which version of the protocol (RFC 5730, 2.9.1.1).
#[derive(Drop)]
pub struct Credentials {
    pub id: Text,
    pub password: Text,
    pub version: Text,
}

/// What a payload says before a registrar is logged in.
#[derive(Drop)]
pub enum BeforeLogin {
    /// hello, which the greeting answers (RFC 5730, 2.4).
    Hello,
    /// A well formed login.
    Login {
        cl_trid: Option<Text>,
        credentials: Credentials,
    },
    /// A hello or login whose form is refused, or something else.
    Refused {
        cl_trid: Option<Text>,
        fault: FormFault,
    },
}

/// What a payload says in a session.
#[derive(Drop)]
pub enum InSession {
    /// hello, which the greeting answers (RFC 5730, 2.4).
    Hello,
    /// A command, of which a login is one whose form is refused.
    Ordinary(Command),
}
