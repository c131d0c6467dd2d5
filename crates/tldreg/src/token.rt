//! The file of the operator's token.
ghost use Rattle.std.specs.Prelude.{◌≡◌};
ghost use Rattle.tldreg.specs.inner.Ends as spec;

use crate::command_line::Job;
use operator::{TokenFault, credentials_in};
use script::Exit;
use std::fs::{self, OpenFile};
use std::io::{self, Read};
use std::os::unix::fs::PermissionsExt;
use std::rt::Files;

/// Why a file isn't fit to hold the token.
#[derive(Clone, Copy)]
pub enum Unfit {
    /// Others than its owner may do something with it.
    Open,
    Short,
    Form,
}

impl Unfit {
    /// The line of standard error.
    pub fn text(self) -> &'static str
        ensures { result.now ≡ spec.text_of self }
    {
        match self {
            Unfit::Open => "token: others may read it",
            Unfit::Short => "token: short",
            Unfit::Form => "token: form",
        }
    }
}

/// How the program ends where it doesn't do all that it was asked.
#[derive(Drop)]
pub enum End {
    Exit(Exit),
    Token(Unfit),
}

impl From<Exit> for End {
    fn from(exit: Exit) -> End {
        End::Exit(exit)
    }
}

impl From<io::Error> for End {
    fn from(error: io::Error) -> End {
        End::Exit(Exit::from(error))
    }
}

/// The same end, of what can end so alone.
pub fn ended(done: Result<(), Exit>) -> Result<(), End>
    ensures { result ≡ spec.end_by_exit done }
{
    match done {
        Ok(()) => Ok(()),
        Err(exit) => Err(End::Exit(exit)),
    }
}

/// What is said on the operator's port by whoever has the token; nothing where no such port is asked for.
pub fn credentials_of(rt: &(impl Files + AllocGlobal), job: &Job) -> Result<Vec<u8>, End> {
    match job {
        Job::ServeBoth { token_file, .. } => credentials_of_file(rt, token_file.as_str()),
        _ => Ok(Vec::new(rt.alloc())),
    }
}

fn credentials_of_file(rt: &(impl Files + AllocGlobal), path: &str) -> Result<Vec<u8>, End> {
    let Some(file) = read_kept(rt, path)? else {
        return Err(End::Token(Unfit::Open));
    };
    match credentials_in(rt.alloc(), &file) {
        Ok(credentials) => Ok(credentials),
        Err(fault) => Err(token_end(fault)),
    }
}

/// How the program ends where a file isn't fit to hold the token.
fn token_end(fault: TokenFault) -> End
    ensures { result ≡ spec.token_end fault }
{
    match fault {
        TokenFault::Short => End::Token(Unfit::Short),
        TokenFault::Byte => End::Token(Unfit::Form),
        TokenFault::Memory => End::Exit(Exit::Memory),
    }
}

/// A file's bytes. None where others than its owner may do something with it, and then it isn't read.
fn read_kept(rt: &(impl Files + AllocGlobal), path: &str) -> io::Result<Option<Vec<u8>>> {
    let mut file = fs::open(rt, path)?;
    if is_open(file.metadata()?.permissions().mode()) {
        return Ok(None);
    }
    let mut bytes = Vec::new(rt.alloc());
    file.read_to_end(&mut bytes)?;
    Ok(Some(bytes))
}

/// Whether others than its owner may do something with a file of this mode.
fn is_open(mode: u32) -> bool
    ensures { result ≡ spec.is_open mode }
{
    mode & 0o077 != 0
}
