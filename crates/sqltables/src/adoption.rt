//! A database that was used before, taken anew.
ghost use Rattle.std.specs.Prelude.{◌≢◌, IfErr, IfOk};
ghost use Rattle.sqlite.specs.{Held.state, State.HasCleanDisk};
ghost use Rattle.sqltables.specs.inner.Adoption.{IsReread, LeavesNoMore};

use crate::records::fault_of;
use sqlite::{Alter, Connection};
use states::BookFault;
use std::alloc::Global;

/// Why a database isn't taken up.
#[derive(Clone, Copy, Debug, PartialEq, Eq, Drop)]
pub enum Unadopted {
    /// It is something else's, or a registry's of another schema.
    Other,
    /// Memory ran out.
    Memory,
    /// The database refused.
    Store,
}

/// The same of a fault.
pub(crate) fn by_fault(fault: BookFault) -> Unadopted
    ensures { result ≢ Unadopted.Other }
{
    match fault {
        BookFault::Memory => Unadopted::Memory,
        BookFault::Store => Unadopted::Store,
    }
}

/// The database of a connection as its last commit left it. It is read and checked anew, whole: of that
/// the proof knows that the rows of each table lie in the order of their numbers. After a fault the store
/// comes back. Either way a crash may leave no more than before.
pub fn reread<S: Alter + Drop>(
    conn: Connection<S>,
    alloc: Global,
) -> Result<Connection<S>, (BookFault, S)>
    ensures reread { IfOk result (λ c. HasCleanDisk (state S.Store c)
        → IsReread (state S.Store conn) (state S.Store c)) }
    ensures clean { IfOk result (λ c. HasCleanDisk (state S.Store c)
        → HasCleanDisk (state S.Store conn)) }
    ensures leaves { IfOk result (λ c. HasCleanDisk (state S.Store c)
        → LeavesNoMore (state S.Store conn) (state S.Store c).may_leave) }
    ensures refused { IfErr result (λ e. LeavesNoMore (state S.Store conn) (S.Store.recovers e.1)) }
{
    let mut store = conn.into_store();
    let Ok(()) = store.commit() else {
        return Err((BookFault::Store, store));
    };
    match Connection::over(alloc, store) {
        Ok(conn) => Ok(conn),
        Err((error, store)) => Err((fault_of(&error), store)),
    }
}
