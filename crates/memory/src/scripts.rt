//! A script, answered over a registry in memory that was never used.
ghost use Rattle.std.specs.Prelude.{IfSome};
ghost use Rattle.script.specs.Runs.{EndsRun, kept};
ghost use Rattle.memory.specs.Runs.{EndsByFile, EndsUnder};

use crate::registry_in_memory::{open, show_clean};
use books::Book;
use policy::Policy;
use registry::Registry;
use script::{Exit, run_on};
use sqlbook::MemoryBook;
use std::alloc::Global;
use std::io::{Read, Write};

/// Answers a script line by line, under a policy, over a registry in memory that starts empty. What
/// was written before a fault stays.
pub fn run_script<R: Read + Drop, W: Write>(
    alloc: Global,
    policy: &[u8],
    reader: R,
    writer: &mut W,
) -> Exit
    ensures { IfSome (R.remaining reader) (λ input. EndsByFile policy.now input
        (W.contents writer.old) (W.contents writer.new) result) }
{
    match Policy::read(alloc, policy) {
        Ok(policy) => run_under(alloc, policy, reader, writer),
        Err(fault) => Exit::Policy(fault),
    }
}

/// Answers a script under a policy.
fn run_under<R: Read + Drop, W: Write>(
    alloc: Global,
    policy: Policy,
    reader: R,
    writer: &mut W,
) -> Exit
    ensures { IfSome (R.remaining reader) (λ input. EndsUnder policy input (W.contents writer.old)
        (W.contents writer.new) result) }
{
    match open(alloc, policy) {
        Ok(registry) => run_over(alloc, registry, reader, writer),
        Err(fault) => Exit::Open(fault),
    }
}

/// Answers a script over a registry in memory.
fn run_over<R: Read + Drop, W: Write>(
    alloc: Global,
    registry: Registry<MemoryBook>,
    reader: R,
    writer: &mut W,
) -> Exit
    ensures { IfSome (R.remaining reader)
        (λ input. EndsRun registry.policy (kept (⟦<MemoryBook as Book>⟧.state registry.book)) input
        (W.contents writer.old) (W.contents writer.new) result) }
{
    let mut registry = registry;
    let exit = run_on(alloc, &mut registry, reader, writer);
    show_clean(&registry);
    exit
}
