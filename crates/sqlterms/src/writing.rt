//! Another clock, and other terms.
ghost use Rattle.std.specs.Prelude.{◌≡◌, ◌↔◌, true, IsTrue, Some};
ghost use Rattle.sqlrows.specs.Meanings.{Changes};
ghost use Rattle.sqlterms.specs.inner.Changes.{ArePutBeside, IsClockSet, IsTermsSet};

use crate::dated::put_tables;
use crate::labels::labels_column;
use crate::meta::{is_at, maybe_meta, meta_or_new, with_clock, with_terms};
use crate::naming::name_accounts;
use crate::reading::terms;
use calendar::Moment;
use policy::Terms;
use sqlite::Alter;
use sqlrows::or_fault;
use sqltables::RowStore;
use states::BookFault;
use std::alloc::Global;

/// Sets the clock. Nothing is written if it is there already.
pub fn set_clock<S: Alter>(
    store: &mut RowStore<S>,
    alloc: Global,
    moment: Moment,
) -> Result<(), BookFault>
    requires { store.old.is_open ≡ true }
    ensures { Changes result (IsClockSet moment) store.old store.new }
{
    let meta = maybe_meta(store)?;
    if is_at(&meta, moment) {
        drop(meta);
        return Ok(());
    }
    let row = with_clock(meta_or_new(alloc, meta), moment);
    store.put_meta(&row)?;
    Ok(())
}

/// Puts terms down: the row of `meta`, the tables of lengths that aren't there yet, and the ident of each
/// account whose registrar has a place among the ids. Nothing is written where these terms are there
/// already. Terms that don't read back as they are, are refused: a label with a line feed, an id of a
/// registrar without an account, or other tables than those that are there.
pub fn set_terms<S: Alter>(
    store: &mut RowStore<S>,
    alloc: Global,
    value: &Terms,
) -> Result<(), BookFault>
    requires { store.old.is_open ≡ true }
    ensures { Changes result (IsTermsSet value.now) store.old store.new }
{
    let there = terms(store, alloc)?;
    if are(&there, value) {
        drop(there);
        return Ok(());
    }
    drop(there);
    write_terms(store, alloc, value)?;
    Ok(())
}

/// Puts terms down, whatever is there.
fn write_terms<S: Alter>(
    store: &mut RowStore<S>,
    alloc: Global,
    value: &Terms,
) -> Result<(), BookFault>
    requires { store.old.is_open ≡ true }
    ensures { Changes result (IsTermsSet value.now) store.old store.new }
{
    let labels = or_fault(labels_column(alloc, value.reserved.names())?)?;
    let meta = maybe_meta(store)?;
    let row = with_terms(meta_or_new(alloc, meta), value, labels)?;
    store.put_meta(&row)?;
    drop(row);
    put_beside(store, value)?;
    let read = terms(store, alloc)?;
    let same = are(&read, value);
    drop(read);
    if !same {
        return Err(BookFault::Store);
    }
    Ok(())
}

/// Puts down what of terms isn't in the row of `meta`.
fn put_beside<S: Alter>(store: &mut RowStore<S>, value: &Terms) -> Result<(), BookFault>
    requires { store.old.is_open ≡ true }
    ensures { Changes result ArePutBeside store.old store.new }
{
    put_tables(store, value.days.later.as_slice())?;
    name_accounts(store, value.ids.as_slice())?;
    Ok(())
}

/// Whether what was read are these terms.
fn are(read: &Option<Terms>, value: &Terms) -> bool
    ensures { IsTrue result ↔ (read.now ≡ Some value.now) }
{
    match read {
        None => false,
        Some(read) => are_same(read, value),
    }
}

fn are_same(read: &Terms, value: &Terms) -> bool
    ensures { IsTrue result ↔ (read.now ≡ value.now) }
{
    if !read.days.is_same(&value.days) {
        return false;
    }
    if read.ids.as_slice().len() != value.ids.as_slice().len() {
        return false;
    }
    read.continues(value, Moment::first())
}
