//! How many domains are held, counted anew where one domain comes in the place of another.
ghost use Rattle.std.specs.Prelude.{◌≡◌, ◌+ℤ◌, pos, true, FitsSigned, IfNone, IfOk, IfSome, OnErr};
ghost use Rattle.std.specs.Int.{w64};
ghost use Rattle.sqlrows.specs.Meanings.{Changes};
ghost use Rattle.sqlderived.specs.Held.{counts_one};
ghost use Rattle.sqlderived.specs.inner.Recounts.{IsCountedAnew, IsHeldCounted, IsRecounted, IsUnwritten, counts_own, held_then, registrar_of, with_unwritten};

use crate::holders::{Holders, holders_of, incoming_without, is_in, sponsor_without};
use basis::registrar::RegistrarNo;
use objects::Domain;
use sqlaccounts::found_row;
use sqlite::Alter;
use sqltables::{AccountRow, RowStore};
use states::BookFault;

/// A row of an account that isn't written yet, and whose it is.
#[derive(Drop)]
pub struct Unwritten {
    pub registrar: RegistrarNo,
    pub row: AccountRow,
}

/// Counts the domains of each registrar anew, where one domain, or none, comes in the place of another,
/// or of none. A row that isn't written yet is written with its own count. Refused are a registrar whose
/// account was never opened, and a number that doesn't fit.
pub fn recount<S: Alter>(
    store: &mut RowStore<S>,
    unwritten: Option<Unwritten>,
    before: &Option<Domain>,
    after: &Option<Domain>,
) -> Result<(), BookFault>
    requires open { store.old.is_open ≡ true }
    requires own { store.old.is_clean ≡ true → IsUnwritten unwritten store.old.content }
    ensures { Changes result (λ old new. IsRecounted before.now after.now
        (with_unwritten unwritten old) new) store.old store.new }
{
    let before = holders_of(before);
    let after = holders_of(after);
    let written = write(store, unwritten, &before, &after)?;
    let sponsor_left = sponsor_without(&written, &before, &after);
    count(store, sponsor_left, &before, &after)?;
    let incoming_left = incoming_without(&written, &before, &after);
    count(store, incoming_left, &before, &after)?;
    let sponsor_come = sponsor_without(&written, &after, &before);
    count(store, sponsor_come, &before, &after)?;
    let incoming_come = incoming_without(&written, &after, &before);
    count(store, incoming_come, &before, &after)?;
    Ok(())
}

/// Writes the row that isn't written yet, if there is one, with the domain counted. Whose it is.
fn write<S: Alter>(
    store: &mut RowStore<S>,
    unwritten: Option<Unwritten>,
    before: &Option<Holders>,
    after: &Option<Holders>,
) -> Result<Option<RegistrarNo>, BookFault>
    requires open { store.old.is_open ≡ true }
    requires own { store.old.is_clean ≡ true → IsUnwritten unwritten store.old.content }
    ensures of { IfOk result (λ written. written ≡ registrar_of unwritten) }
    ensures counted { Changes result (λ old new. IsCountedAnew
        (counts_own (registrar_of unwritten) before.now) (counts_own (registrar_of unwritten) after.now)
        (with_unwritten unwritten old) new) store.old store.new }
{
    let Some(unwritten) = unwritten else {
        return Ok(None);
    };
    let registrar = unwritten.registrar;
    let row = counted(
        unwritten.row,
        is_in(registrar, before),
        is_in(registrar, after),
    )?;
    store.put_account(&row)?;
    Ok(Some(registrar))
}

/// Counts the domain anew for a registrar, if there is one.
fn count<S: Alter>(
    store: &mut RowStore<S>,
    registrar: Option<RegistrarNo>,
    before: &Option<Holders>,
    after: &Option<Holders>,
) -> Result<(), BookFault>
    requires { store.old.is_open ≡ true }
    ensures { Changes result (IsCountedAnew (counts_own registrar before.now)
        (counts_own registrar after.now)) store.old store.new }
{
    let Some(registrar) = registrar else {
        return Ok(());
    };
    let row = found_row(store, registrar)?;
    let row = counted(row, is_in(registrar, before), is_in(registrar, after))?;
    store.put_account(&row)?;
    Ok(())
}

/// The row, where its account held a domain before or not, and holds it now or not.
fn counted(row: AccountRow, before: bool, after: bool) -> Result<AccountRow, BookFault>
    ensures counted { IfOk result (IsHeldCounted (counts_one before) (counts_one after) row) }
    ensures fits { OnErr result (¬ FitsSigned w64 (held_then row.held before after)) }
{
    let mut row = row;
    let Some(held) = held_then(row.held, before, after) else {
        return Err(BookFault::Store);
    };
    row.held = held;
    Ok(row)
}

fn held_then(held: i64, before: bool, after: bool) -> Option<i64>
    ensures one { IfSome result (λ it. it +ℤ pos (counts_one before) ≡ held +ℤ pos (counts_one after)) }
    ensures fits { IfNone result (¬ FitsSigned w64 (held_then held before after)) }
{
    match (before, after) {
        (true, false) => held.checked_sub(1),
        (false, true) => held.checked_add(1),
        _ => Some(held),
    }
}
