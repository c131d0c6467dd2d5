//! The database of a command line, and the policy that it is opened under.
ghost use Rattle.std.specs.Prelude.{◌≡◌, false, IfErr, IfOk, bytes_eq, codes, string_bytes};
ghost use Rattle.registry.specs.Calls.{IsOpenedAs};
ghost use Rattle.script.specs.declared.exit.Exit.TheVariants as exits;
ghost use Rattle.tldreg.specs.inner.Databases as spec;

use books::Book;
use policy::{Policy, PolicyFile};
use registry::{OpenFault, Registry};
use script::Exit;
use std::alloc::Global;
use std::fs;
use std::rt::Files;

/// Whether it is the name of a database in memory, which is new in each run.
pub fn is_in_memory(database: &str) -> bool
    ensures { result ≡ bytes_eq database.now (codes ":memory:") }
{
    database == ":memory:"
}

/// The file of a database's log, which lies beside the database's own; the empty name for one in memory.
pub fn log_file_of(alloc: Global, database: &str) -> Result<String, Exit>
    ensures file { IfOk result (λ file. string_bytes file ≡ spec.log_file_of database.now) }
    ensures memory { IfErr result (λ exit. exit ≡ exits.Memory) }
{
    if is_in_memory(database) {
        return Ok(format!(in alloc; "")?);
    }
    Ok(format!(in alloc; "{database}-wal")?)
}

/// What a policy's file holds.
pub fn file_in(rt: &(impl Files + AllocGlobal), path: &str) -> Result<PolicyFile, Exit> {
    let text = fs::read(rt, path)?;
    match PolicyFile::read(rt.alloc(), &text) {
        Ok(file) => Ok(file),
        Err(fault) => Err(Exit::Policy(fault)),
    }
}

/// A registry over a book in which no transaction is open. A book that is refused is let go: what became of it no clause
/// here can say.
pub fn open<B: Book + Drop>(
    alloc: Global,
    book: B,
    policy: Policy,
) -> Result<Registry<B>, OpenFault>
    requires { (B.state book).is_open ≡ false }
    ensures { IfOk result (λ registry. IsOpenedAs policy registry.policy (B.state book)
        (B.state registry.book)) }
{
    match Registry::open(alloc, book, policy) {
        Ok(registry) => Ok(registry),
        Err((fault, _)) => Err(fault),
    }
}
