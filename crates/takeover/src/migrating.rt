//! A registry of the schema before this one, taken over.
ghost use Rattle.std.specs.Prelude.{◌≡◌, true, false, IfOk, Ok};
ghost use Rattle.oldrows.specs.inner.Copies.{Copies, put_of_all};
ghost use Rattle.sqltables.specs.Content.{no_content};
ghost use Rattle.states.specs.States.{Finds};
ghost use Rattle.sqlbook.specs.{Meaning.{are_right, stored_of}, AsBook.MakesAs};
ghost use Rattle.takeover.specs.inner.Migrating.{AreReady, EndsAs, IsBegun, IsMigrationKept, TakesOver, heads, others, put_lines};
ghost use Rattle.takeover.specs.Migrating.{Migrates, fault_of, redated, suits};

use crate::graces::with_grace_ends;
use oldrows::{Copied, OldRows, TableName, copy_tables, put_all};
use policy::{Policy, Schedule, Terms};
use sqlbook::set_terms;
use sqlite::Alter;
use sqltables::{LineRow, RowStore};
use states::{BookFault, Ready};
use std::alloc::{AllocError, Global};

/// Why a registry isn't taken over.
#[derive(Clone, Copy, PartialEq, Eq, Drop)]
pub enum MigrateFault {
    /// It was used under terms that the policy doesn't continue.
    Policy,
    /// What is to be taken over isn't a registry of the schema before this one, or what it is taken over
    /// into isn't empty.
    Schema,
    /// Memory ran out.
    Memory,
    /// What keeps one of them refused.
    Store,
}

impl From<BookFault> for MigrateFault {
    ghost from_gives = { λ fault result. result ≡ fault_of fault };

    fn from(fault: BookFault) -> MigrateFault {
        match fault {
            BookFault::Memory => MigrateFault::Memory,
            BookFault::Store => MigrateFault::Store,
        }
    }
}

/// The tables with the terms and the clock.
const HEADS: [TableName; 2] = [TableName::Metas, TableName::Accounts];

/// The others but that of lines: each after those that its rows refer to.
const OTHERS: [TableName; 7] = [
    TableName::Contacts,
    TableName::Domains,
    TableName::Hosts,
    TableName::Addresses,
    TableName::Links,
    TableName::Messages,
    TableName::Transfers,
];

/// Takes the registry of the schema before this one over into tables of today that were never used, under
/// a policy that continues the one it was used under, as `Registry::open` asks it. The registry is the
/// same, and so is what it is by now; the policy's lengths of periods are put down. The other database is
/// read alone. After any fault no transaction is open, and the tables are as they were.
pub fn migrate<S: Alter, T: Alter>(
    alloc: Global,
    from: &mut OldRows<S>,
    to: &mut RowStore<T>,
    policy: &Policy,
) -> Result<(), MigrateFault>
    requires { to.old.is_open ≡ false }
    ensures { Migrates result policy.now from.old from.new to.old to.new }
{
    to.show_rest();
    if !are_ready(from, to)? {
        return Err(MigrateFault::Schema);
    }
    if !to.is_unused() {
        return Err(MigrateFault::Store);
    }
    begin(to)?;
    let taken = take(alloc, from, to, policy);
    end(to, taken)
}

/// Whether the one is a registry of the schema before this one, and the other was never used.
fn are_ready<S: Alter, T: Alter>(from: &OldRows<S>, to: &mut RowStore<T>) -> Result<bool, BookFault>
    ensures { AreReady result from.now to.old to.new }
{
    let Ready::Used = from.ready() else {
        return Ok(false);
    };
    match to.ready() {
        Ok(Ready::Empty) => Ok(true),
        Ok(Ready::Used | Ready::Other) => Ok(false),
        Err(fault) => {
            to.back();
            Err(fault)
        }
    }
}

/// Opens a transaction, or leaves none open.
fn begin<T: Alter>(to: &mut RowStore<T>) -> Result<(), BookFault>
    requires { to.old.is_open ≡ false }
    ensures { IsBegun result to.old to.new }
{
    match to.begin() {
        Ok(()) => Ok(()),
        Err(fault) => {
            to.back();
            Err(fault)
        }
    }
}

/// Keeps what was taken over, or undoes all.
fn end<T: Alter>(to: &mut RowStore<T>, taken: Result<bool, BookFault>) -> Result<(), MigrateFault>
    requires { taken ≡ Ok true → to.old.is_open ≡ true }
    ensures { EndsAs result taken to.old to.new }
{
    match taken {
        Ok(true) => {
            keep(to)?;
            Ok(())
        }
        Ok(false) => {
            to.back();
            Err(MigrateFault::Policy)
        }
        Err(fault) => {
            to.back();
            Err(MigrateFault::from(fault))
        }
    }
}

/// Keeps what was taken over. If the commit fails, all is undone as far as this program sees.
fn keep<T: Alter>(to: &mut RowStore<T>) -> Result<(), BookFault>
    requires { to.old.is_open ≡ true }
    ensures { IsMigrationKept result to.old to.new }
{
    match to.commit() {
        Ok(()) => Ok(()),
        Err(fault) => {
            to.back();
            Err(fault)
        }
    }
}

/// Takes all over in the open transaction, if the policy suits.
fn take<S: Alter, T: Alter>(
    alloc: Global,
    from: &mut OldRows<S>,
    to: &mut RowStore<T>,
    policy: &Policy,
) -> Result<bool, BookFault>
    requires open { to.old.is_open ≡ true }
    requires unused { to.old.is_clean ≡ true → to.old.content ≡ no_content }
    ensures { TakesOver result policy.now from.old from.new to.old to.new }
{
    from.show_consistent();
    copy_heads(from, to)?;
    if !fits(alloc, to, policy)? {
        return Ok(false);
    }
    copy_rest(alloc, from, to, policy.schedule())?;
    put_days(alloc, to, policy)?;
    Ok(true)
}

fn copy_heads<S: Alter, T: Alter>(
    from: &mut OldRows<S>,
    to: &mut RowStore<T>,
) -> Result<(), BookFault>
    requires { to.old.is_open ≡ true }
    ensures { Copies result (put_of_all heads) from.old from.new to.old to.new }
{
    copy_tables(&HEADS, from, to)
}

fn copy_others<S: Alter, T: Alter>(
    from: &mut OldRows<S>,
    to: &mut RowStore<T>,
) -> Result<(), BookFault>
    requires { to.old.is_open ≡ true }
    ensures { Copies result (put_of_all others) from.old from.new to.old to.new }
{
    copy_tables(&OTHERS, from, to)
}

/// Copies the lines, each with the end of its grace.
fn copy_lines<S: Alter, T: Alter>(
    alloc: Global,
    from: &mut OldRows<S>,
    to: &mut RowStore<T>,
    days: &Schedule,
) -> Result<(), BookFault>
    requires { to.old.is_open ≡ true }
    ensures { Copies result (put_lines days.now) from.old from.new to.old to.new }
{
    let rows = LineRow::all(from)?;
    let ended = with_grace_ends(alloc, rows, days)?;
    put_all(to, ended.as_slice())
}

/// Copies the tables that don't say under which terms the registry was used.
fn copy_rest<S: Alter, T: Alter>(
    alloc: Global,
    from: &mut OldRows<S>,
    to: &mut RowStore<T>,
    days: &Schedule,
) -> Result<(), BookFault>
    requires { to.old.is_open ≡ true }
    ensures { Copies result (λ old new. put_lines days.now old (put_of_all others old new)) from.old
        from.new to.old to.new }
{
    copy_others(from, to)?;
    copy_lines(alloc, from, to, days)
}

/// Whether a policy continues the one that a registry was used under.
fn fits<T: Alter>(
    alloc: Global,
    store: &mut RowStore<T>,
    policy: &Policy,
) -> Result<bool, BookFault>
    ensures { Finds result (suits policy.now (stored_of store.old.content)) store.old store.new }
{
    let clock = sqlterms::clock(store)?;
    let Some(earlier) = sqlterms::terms(store, alloc)? else {
        return Ok(true);
    };
    let own = policy.terms(alloc)?;
    Ok(own.continues(&earlier, clock))
}

/// Puts a policy's lengths of periods down, where terms were put down.
fn put_days<T: Alter>(
    alloc: Global,
    store: &mut RowStore<T>,
    policy: &Policy,
) -> Result<(), BookFault>
    requires { store.old.is_open ≡ true }
    ensures held { MakesAs result stored_of are_right
        (redated policy.now (stored_of store.old.content)) store.old store.new }
    ensures lines { IfOk result (λ done. store.new.is_clean ≡ true
        → store.new.content.lines ≡ store.old.content.lines) }
{
    let Some(terms) = sqlterms::terms(store, alloc)? else {
        return Ok(());
    };
    set_terms(store, alloc, dated(terms, policy)?)
}

/// Terms with a policy's lengths of periods.
fn dated(terms: Terms, policy: &Policy) -> Result<Terms, AllocError>
    ensures { IfOk result (λ dated. dated ≡ record terms { days = policy.now.days }) }
{
    let mut terms = terms;
    terms.days = policy.schedule().clone()?;
    Ok(terms)
}
