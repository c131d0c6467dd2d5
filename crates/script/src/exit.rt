//! How the program ends.
ghost use Rattle.std.specs.{Prelude.◌≡◌, IoError.error_kind};
ghost use Rattle.script.specs.declared.exit.Exit.TheVariants as exits;
ghost use Rattle.script.specs.Exits.{exit_of, exit_of_book, exit_text, has_line, result_of, status_of_exit};

use books::BookFault;
use policy::PolicyFault;
use registry::{Fault, OpenFault};
use std::alloc::{AllocError, AllocFailed};
use std::fmt;
use std::io::{self, ErrorKind};

/// How the program ends: each but `Done` and `Refused` has a line of standard error.
#[derive(Drop)]
pub enum Exit {
    Done,
    /// An order was refused, as its answer says.
    Refused,
    /// A wrong command line.
    Usage,
    /// The first fault of the policy file.
    Policy(PolicyFault),
    /// The book can't be opened.
    Open(OpenFault),
    /// A call of the registry gave up.
    Registry(Fault),
    /// No port, or no connection on it.
    Network,
    /// A line of the script, counted from 1, that isn't of the form.
    Script(u64),
    /// The policy file, standard input or standard output.
    File,
    Memory,
}

impl Exit {
    /// The exit status.
    pub fn status(&self) -> u8
        ensures { result ≡ status_of_exit self.now }
    {
        match self {
            Exit::Done => 0,
            Exit::Usage => 2,
            _ => 1,
        }
    }

    /// Whether there is a line of standard error.
    pub fn has_line(&self) -> bool
        ensures { result ≡ has_line self.now }
    {
        !matches!(self, Exit::Done | Exit::Refused)
    }

    /// An error, but where all was done.
    pub fn result(self) -> Result<(), Exit>
        ensures { result ≡ result_of self }
    {
        match self {
            Exit::Done => Ok(()),
            exit => Err(exit),
        }
    }
}

impl fmt::Display for Exit {
    ghost output = { exit_text };

    fn fmt<W: fmt::Write>(&self, f: &mut fmt::Formatter<W>) -> fmt::Result {
        match self {
            Exit::Done | Exit::Refused => Ok(()),
            Exit::Usage => f.write_str("usage: tldreg run|serve|zone|deposit|migrate POLICY ..."),
            Exit::Policy(PolicyFault::Memory) => f.write_str("out of memory"),
            Exit::Policy(fault) => write!(f, "policy: {fault}"),
            Exit::Open(fault) => write!(f, "{fault}"),
            Exit::Registry(fault) => write!(f, "{fault}"),
            Exit::Network => f.write_str("network fault"),
            Exit::Script(line) => write!(f, "script: line {line}"),
            Exit::File => f.write_str("file fault"),
            Exit::Memory => f.write_str("out of memory"),
        }
    }
}

impl From<AllocError> for Exit {
    ghost from_gives = { λ _ exit. exit ≡ exits.Memory };

    fn from(_: AllocError) -> Exit {
        Exit::Memory
    }
}

impl<T: Drop> From<AllocFailed<T>> for Exit {
    ghost from_gives = { λ _ exit. exit ≡ exits.Memory };

    fn from(_: AllocFailed<T>) -> Exit {
        Exit::Memory
    }
}

impl From<BookFault> for Exit {
    ghost from_gives = { λ fault exit. exit ≡ exit_of_book fault };

    fn from(fault: BookFault) -> Exit {
        match fault {
            BookFault::Memory => Exit::Memory,
            BookFault::Store => Exit::Open(OpenFault::Store),
        }
    }
}

impl From<io::Error> for Exit {
    ghost from_gives = { λ error exit. exit ≡ exit_of (error_kind error) };

    fn from(error: io::Error) -> Exit {
        match error.kind() {
            ErrorKind::OutOfMemory => Exit::Memory,
            _ => Exit::File,
        }
    }
}
