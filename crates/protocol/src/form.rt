//! Why the form of a command is refused.
ghost use Rattle.std.specs.Prelude.{◌≡◌};
ghost use Rattle.protocol.specs.Codes.{code_of_form};

use crate::code::Code;

/// Why the form of a command is refused (RFC 5730, 3).
#[derive(Clone, Copy, Debug, PartialEq, Eq, Drop)]
pub enum FormFault {
    /// 2000: no such command.
    UnknownCommand,
    /// 2001: no JSON object, or a member that the command doesn't have.
    SyntaxError,
    /// 2002: it has no place there, as a login in a session.
    UseError,
    /// 2003: a member is missing, or an update changes nothing.
    ParameterMissing,
    /// 2004: a length, a count or a number is out of range.
    ParameterRange,
    /// 2005: a text has another shape.
    ParameterSyntax,
}

impl FormFault {
    /// The code that answers.
    pub fn code(self) -> Code
        ensures { result ≡ code_of_form self }
    {
        match self {
            FormFault::UnknownCommand => Code::UnknownCommand,
            FormFault::SyntaxError => Code::SyntaxError,
            FormFault::UseError => Code::UseError,
            FormFault::ParameterMissing => Code::ParameterMissing,
            FormFault::ParameterRange => Code::ParameterRange,
            FormFault::ParameterSyntax => Code::ParameterSyntax,
        }
    }
}
