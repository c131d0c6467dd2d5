//! A registry of the schema before this one, taken over.
ghost use Rattle.std.specs.Prelude.{◌≡◌, false, IfErr, IfOk};
ghost use Rattle.sqlite.specs.Held.{state};
ghost use Rattle.takeover.specs.Ends as spec;
ghost use Rattle.takeover.specs.Ends.{EndsMigration, EndsTakeover, EndsUnadopted};

use crate::migrating::{MigrateFault, migrate};
use oldrows::OldRows;
use policy::Policy;
use registry::OpenFault;
use script::Exit;
use sqlite::{Alter, Connection};
use sqltables::{RowStore, Unadopted};
use std::alloc::Global;

/// Two databases after a takeover was tried.
#[derive(Drop)]
pub struct Tried<S: Alter, T: Alter> {
    /// That of the schema before this one, as it was.
    pub from: OldRows<S>,
    /// That of today's schema.
    pub to: RowStore<T>,
    /// How the program ends.
    pub exit: Exit,
}

/// Takes the registry of a database of the schema before this one over into another database, which is
/// empty, under a policy that continues the one it was used under. Where one of them isn't taken up, nothing is tried.
pub fn migrate_on<S: Alter + Drop, T: Alter + Drop>(
    alloc: Global,
    policy: &Policy,
    from: Connection<S>,
    to: Connection<T>,
) -> Result<Tried<S, T>, Exit>
    ensures tried { IfOk result (λ tried. EndsMigration policy.now (state S.Store from).committed.trees
        (state T.Store to).committed.trees tried.from tried.to tried.exit) }
    ensures untried { IfErr result EndsUnadopted }
{
    let mut from = match OldRows::adopt(from, alloc) {
        Ok(from) => from,
        Err((fault, _)) => return Err(Exit::from(fault)),
    };
    let mut to = match RowStore::adopt(to, alloc) {
        Ok(to) => to,
        Err((cause, _)) => return Err(exit_of_unadopted(cause)),
    };
    let exit = take_over(alloc, &mut from, &mut to, policy);
    Ok(Tried { from, to, exit })
}

/// The same with what both hold, and how the program ends.
fn take_over<S: Alter, T: Alter>(
    alloc: Global,
    from: &mut OldRows<S>,
    to: &mut RowStore<T>,
    policy: &Policy,
) -> Exit
    requires { to.old.is_open ≡ false }
    ensures { EndsTakeover policy.now from.old from.new to.old to.new result }
{
    exit_after(migrate(alloc, from, to, policy))
}

/// How the program ends where a takeover was tried.
fn exit_after(migrated: Result<(), MigrateFault>) -> Exit
    ensures { result ≡ spec.exit_after migrated }
{
    match migrated {
        Ok(()) => Exit::Done,
        Err(fault) => exit_of(fault),
    }
}

fn exit_of(fault: MigrateFault) -> Exit
    ensures { result ≡ spec.exit_of_migration fault }
{
    match fault {
        MigrateFault::Policy => Exit::Open(OpenFault::Policy),
        MigrateFault::Schema => Exit::Open(OpenFault::Schema),
        MigrateFault::Memory => Exit::Memory,
        MigrateFault::Store => Exit::Open(OpenFault::Store),
    }
}

fn exit_of_unadopted(cause: Unadopted) -> Exit
    ensures { result ≡ spec.exit_of_unadopted cause }
{
    match cause {
        Unadopted::Other => Exit::Open(OpenFault::Schema),
        Unadopted::Memory => Exit::Memory,
        Unadopted::Store => Exit::Open(OpenFault::Store),
    }
}
