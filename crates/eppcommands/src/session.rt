//! What a payload says in a session, and before a registrar is logged in (RFC 5730, 2.4, 2.9.1).
ghost use Rattle.std.specs.Prelude.{◌≡◌, IfOk};
ghost use Rattle.serde_json.specs.View.{view};
ghost use Rattle.eppcommands.specs.Reading.{Gives};
ghost use Rattle.eppcommands.specs.Session as spec;

use crate::command::{cl_trid_of, command_of_value, value_in};
use crate::reading::{CommandFault, required_at};
use crate::values::TextIn;
use eppforms::Section::Top;
use eppforms::{Member, Verb, checked_command, word};
use protocol::{BeforeLogin, Command, Credentials, FormFault, InSession};
use serde_json::Value;
use std::alloc::{AllocError, Global};

/// Reads what a payload says in a session: a well formed hello, or a command. A login is refused,
/// whatever its form.
pub fn in_session(alloc: Global, payload: &[u8]) -> Result<InSession, AllocError>
    ensures { IfOk result (λ said. said ≡ spec.in_session payload.now) }
{
    match value_in(alloc, payload)? {
        Some(value) => said_in_session(alloc, &value),
        None => Ok(InSession::Ordinary(Command::Bad {
            cl_trid: None,
            fault: FormFault::SyntaxError,
        })),
    }
}

fn said_in_session(alloc: Global, value: &Value) -> Result<InSession, AllocError>
    ensures { IfOk result (λ said. said ≡ spec.said_in_session (view value.now)) }
{
    if is_hello(value) {
        return Ok(InSession::Hello);
    }
    if says(Verb::Login, value) {
        let cl_trid = cl_trid_of(alloc, value)?;
        return Ok(InSession::Ordinary(Command::Bad {
            cl_trid,
            fault: FormFault::UseError,
        }));
    }
    let command = command_of_value(alloc, value)?;
    Ok(InSession::Ordinary(command))
}

/// Reads what a payload says before a registrar is logged in: hello, a login, or what is refused.
pub fn before_login(alloc: Global, payload: &[u8]) -> Result<BeforeLogin, AllocError>
    ensures { IfOk result (λ said. said ≡ spec.before_login payload.now) }
{
    match value_in(alloc, payload)? {
        Some(value) => said_before_login(alloc, &value),
        None => Ok(BeforeLogin::Refused {
            cl_trid: None,
            fault: FormFault::UseError,
        }),
    }
}

fn said_before_login(alloc: Global, value: &Value) -> Result<BeforeLogin, AllocError>
    ensures { IfOk result (λ said. said ≡ spec.said_before_login (view value.now)) }
{
    if is_hello(value) {
        return Ok(BeforeLogin::Hello);
    }
    let cl_trid = cl_trid_of(alloc, value)?;
    match credentials_of(alloc, value) {
        Ok(credentials) => Ok(BeforeLogin::Login {
            cl_trid,
            credentials,
        }),
        Err(CommandFault::Refused(fault)) => Ok(BeforeLogin::Refused { cl_trid, fault }),
        Err(CommandFault::Memory) => Err(AllocError),
    }
}

/// What a login says, or why something else has no place there.
#[tactic(auto, unfolding(crate::specs::Session::credentials_in))]
fn credentials_of(alloc: Global, value: &Value) -> Result<Credentials, CommandFault>
    ensures { Gives result (spec.credentials_in (view value.now)) }
{
    if !opens(value) {
        return Err(CommandFault::Refused(FormFault::UseError));
    }
    checked_command(value)?;
    let id = required_at(alloc, &TextIn, Top, Member::Id, value)?;
    let password = required_at(alloc, &TextIn, Top, Member::Pw, value)?;
    let version = required_at(alloc, &TextIn, Top, Member::Version, value)?;
    Ok(Credentials {
        id,
        password,
        version,
    })
}

/// Whether `cmd` is one that has its place before a registrar is logged in.
fn opens(value: &Value) -> bool
    ensures { result ≡ spec.opens (view value.now) }
{
    says(Verb::Hello, value) || says(Verb::Login, value)
}

/// Whether it is a well formed hello.
fn is_hello(value: &Value) -> bool
    ensures { result ≡ spec.is_hello (view value.now) }
{
    says(Verb::Hello, value) && checked_command(value).is_ok()
}

/// Whether `cmd` says this.
fn says(verb: Verb, value: &Value) -> bool
    ensures { result ≡ spec.says verb (view value.now) }
{
    match word(value, Member::Cmd) {
        Some(cmd) => cmd == verb.text(),
        None => false,
    }
}
