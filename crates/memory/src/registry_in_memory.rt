//! The book in memory that a script runs over: the tables of a database.
ghost use Rattle.std.specs.Prelude.{◌≡◌, true, IfOk};
ghost use Rattle.policy.specs.Rules.{IsRegistrar};
ghost use Rattle.decisions.specs.Isolation.{IsIsolated};
ghost use Rattle.memory.specs.Runs.{start};
ghost use Rattle.script.specs.Runs.{kept};

use basis::registrar::RegistrarNo;
use books::{Book, BookFault};
use calendar::Moment;
use policy::Policy;
use protocol::{Command, Reply};
use registry::{Fault, OpenFault, Registry};
use sqlbook::{MemoryBook, in_memory};
use std::alloc::Global;

/// A registry in memory that was never used.
pub(crate) fn open(alloc: Global, policy: Policy) -> Result<Registry<MemoryBook>, OpenFault>
    ensures start { IfOk result (λ registry. kept (⟦<MemoryBook as Book>⟧.state registry.book)
        ≡ start policy) }
    ensures policy { IfOk result (λ registry. registry.policy ≡ policy) }
{
    let book = match in_memory(alloc) {
        Ok(book) => book,
        Err(BookFault::Memory) => return Err(OpenFault::Memory),
        Err(BookFault::Store) => return Err(OpenFault::Store),
    };
    match Registry::open(alloc, book, policy) {
        Ok(registry) => Ok(registry),
        Err((fault, _)) => Err(fault),
    }
}

/// The headline, of a database in memory. The reply to a registrar's command is the one that the rules give
/// in every registry that agrees with this one on what that registrar may see, and what it sees afterwards
/// agrees again. It is `execute`, whose clause has the premise that nothing wrong was taken from what
/// keeps the book; from memory nothing ever is.
pub fn execute_in_memory(
    registry: &mut Registry<MemoryBook>,
    caller: RegistrarNo,
    command: &Command,
    moment: Moment,
) -> Result<Reply, Fault>
    requires { IsRegistrar registry.old.policy caller }
    ensures { IfOk result (λ reply. IsIsolated registry.old.policy caller command.now moment
        (⟦<MemoryBook as Book>⟧.state registry.old.book).content.registry
        (⟦<MemoryBook as Book>⟧.state registry.new.book).content.registry reply) }
{
    let reply = registry.execute(caller, command, moment);
    show_clean(registry);
    reply
}

/// Does nothing. It tells a proof that nothing wrong is ever taken from memory.
pub(crate) fn show_clean(registry: &Registry<MemoryBook>)
    ensures { (⟦<MemoryBook as Book>⟧.state registry.now.book).is_clean ≡ true }
{}
