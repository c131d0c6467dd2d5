//! What an opening that failed gives back.
ghost use Rattle.std.specs.Prelude.{◌≡◌};
ghost use Rattle.bookfiles.specs.Unopened as spec;

use crate::connection::NotOpened;
use registry::OpenFault;
use sqlbook::Unadopted;
use states::BookFault;

/// Why a registry in a file wasn't opened, by how far the opening came, with what it held there. `L` is
/// what is left of the files, `W` what the connection was over, `B` the book.
#[derive(Drop)]
pub enum Unopened<L, W, B> {
    /// The files weren't opened: nothing was read or written.
    Path(NotOpened),
    /// The files were opened, and no database in them.
    Files(BookFault, L),
    /// The database in them wasn't taken up.
    Database(Unadopted, W),
    /// The book that was taken up wasn't opened under the policy.
    Book(OpenFault, B),
}

impl<L, W, B> Unopened<L, W, B> {
    /// Why it wasn't opened.
    pub fn fault(&self) -> OpenFault
        ensures { result ≡ spec.fault_of self.now }
    {
        match self {
            Unopened::Path(cause) => of_fault(cause.fault()),
            Unopened::Files(fault, _) => of_fault(*fault),
            Unopened::Database(cause, _) => of_unadopted(*cause),
            Unopened::Book(fault, _) => *fault,
        }
    }
}

/// What was opened, or why it wasn't. What is given back is let go; it knows that by no kind, since a value of a
/// known one that may fall costs the prover much.
pub(crate) fn or_cause<T, L: Drop, W: Drop, B: Drop>(
    opened: Result<T, Unopened<L, W, B>>,
) -> Result<T, OpenFault>
    ensures { result ≡ spec.or_cause opened }
{
    match opened {
        Ok(it) => Ok(it),
        Err(left) => Err(cause_of(left)),
    }
}

fn cause_of<L: Drop, W: Drop, B: Drop>(left: Unopened<L, W, B>) -> OpenFault
    ensures { result ≡ spec.fault_of left }
{
    let fault = left.fault();
    drop(left);
    fault
}

fn of_fault(fault: BookFault) -> OpenFault
    ensures { result ≡ spec.of_fault fault }
{
    match fault {
        BookFault::Memory => OpenFault::Memory,
        BookFault::Store => OpenFault::Store,
    }
}

fn of_unadopted(cause: Unadopted) -> OpenFault
    ensures { result ≡ spec.of_unadopted cause }
{
    match cause {
        Unadopted::Other => OpenFault::Schema,
        Unadopted::Memory => OpenFault::Memory,
        Unadopted::Store => OpenFault::Store,
    }
}
