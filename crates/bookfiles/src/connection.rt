//! A connection to the files of a registry.
ghost use Rattle.std.specs.Prelude.{◌≡◌, true, false, IfErr, IfOk};
ghost use Rattle.sqlite.specs.{Files.file_state, Start.FindsIn, State.HasCleanDisk};
ghost use Rattle.sqlite_std_file.specs.File.{IsFresh};
ghost use Rattle.sqlite_wal.specs.Files.{image_at};
ghost use Rattle.sqltables.specs.Adoption.{IsFound};
ghost use Rattle.sqltables.specs.inner.Faults as errors;
ghost use Rattle.bookfiles.specs.Unopened.{AreLeft, GivesBack, never_for, unconnected};

use crate::unopened::{Unopened, or_cause};
use registry::OpenFault;
use sqlite::{Connection, Error, FileFrom, FileStore, Leftover, Start};
use sqltables::fault_of;
use states::BookFault;

/// Whether each page of a new file ends in a sum, which the stock `sqlite3` would spoil when it writes.
const WITH_SUMS: bool = false;

/// That files weren't opened at all. Only `connect` makes one: no value is left of which a clause could speak.
#[derive(Clone, Copy, Debug, Drop)]
pub struct NotOpened {
    fault: BookFault,
}

impl NotOpened {
    /// What stood in the way.
    pub fn fault(&self) -> BookFault
        ensures { result ≡ self.now.fault }
    {
        self.fault
    }
}

/// A connection to a file, which is made where there is none. `S` stands for what the file and its log
/// hold: that is found, or nothing where it is no database; and what is found lies in order. What isn't
/// opened is given back.
pub fn connect<S: Start, W, B>(
    rt: &HostRuntime,
    path: &str,
    start: S,
) -> Result<Connection<FileStore<FileFrom<S>>>, Unopened<Leftover<FileFrom<S>>, W, B>>
    ensures finds { IfOk result (λ conn.
        HasCleanDisk (file_state conn) → FindsIn (image_at S.Start) (file_state conn)) }
    ensures found { IfOk result (λ conn. IsFound (file_state conn)) }
    ensures left { IfErr result
        (GivesBack (AreLeft (IsFresh true) (IsFresh false)) never_for never_for) }
{
    match Connection::open_from(rt, path, WITH_SUMS, start) {
        Ok(conn) => Ok(conn),
        Err(left) => Err(unconnected(left)),
    }
}

/// The same for a caller that asks for the cause alone: what isn't opened is let go.
pub fn connection_in<S: Start>(
    rt: &HostRuntime,
    path: &str,
    start: S,
) -> Result<Connection<FileStore<FileFrom<S>>>, OpenFault>
    ensures finds { IfOk result (λ conn.
        HasCleanDisk (file_state conn) → FindsIn (image_at S.Start) (file_state conn)) }
    ensures found { IfOk result (λ conn. IsFound (file_state conn)) }
{
    or_cause(connect::<S, (), ()>(rt, path, start))
}

/// What stopped files from being opened, and what is left of them. It knows them by no kind: a value of a
/// known one that may fall costs the prover much.
fn unconnected<L, W, B>(left: (Error, Option<L>)) -> Unopened<L, W, B>
    ensures { result ≡ unconnected (errors.fault_of left.0) left.1 }
{
    let (error, left) = left;
    let fault = fault_of(&error);
    match left {
        Some(left) => Unopened::Files(fault, left),
        None => Unopened::Path(NotOpened { fault }),
    }
}
