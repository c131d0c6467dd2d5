//! Lines of a registrar's account that are put for others.
ghost use Rattle.std.specs.Prelude.{◌≡◌};
ghost use Rattle.accounts.specs.{Entries.with_lines, Lines.{in_order, swapped, swapped_all}};
ghost use Rattle.basis.specs.Bag.{remade};
ghost use Rattle.sqlaccounts.specs.inner.Posting.{IsReady, PostsTo};

use crate::line::{add_line, take_line};
use crate::reading_lines::swaps;
use accounts::{LineChange, LineSwap};
use basis::list::Seq;
use basis::registrar::RegistrarNo;
use policy::Schedule;
use sqlite::Alter;
use sqltables::{AccountRow, RowStore};
use states::BookFault;
use std::alloc::Global;

/// Makes a change of a domain's lines, each line by itself.
pub(crate) fn swap_lines<S: Alter, C: LineChange>(
    store: &mut RowStore<S>,
    alloc: Global,
    registrar: RegistrarNo,
    row: AccountRow,
    change: &C,
    days: &Option<Schedule>,
) -> Result<AccountRow, BookFault>
    requires { IsReady registrar row store.old }
    ensures { PostsTo result days.now registrar (with_lines (remade in_order (C.changed change.now)))
        row store.old store.new }
{
    let swaps = swaps(store, alloc, registrar, change)?;
    swap_all(store, registrar, row, swaps, days)
}

/// Puts one line for another, for each of these swaps.
fn swap_all<S: Alter>(
    store: &mut RowStore<S>,
    registrar: RegistrarNo,
    row: AccountRow,
    swaps: Seq<LineSwap>,
    days: &Option<Schedule>,
) -> Result<AccountRow, BookFault>
    requires { IsReady registrar row store.old }
    ensures { PostsTo result days.now registrar (with_lines (swapped_all swaps)) row store.old
        store.new }
{
    let mut row = row;
    for swap in swaps.into_vec() {
        row = swap_line(store, registrar, row, swap, days)?;
    }
    Ok(row)
}

/// Puts one line for another.
fn swap_line<S: Alter>(
    store: &mut RowStore<S>,
    registrar: RegistrarNo,
    row: AccountRow,
    swap: LineSwap,
    days: &Option<Schedule>,
) -> Result<AccountRow, BookFault>
    requires { IsReady registrar row store.old }
    ensures { PostsTo result days.now registrar (with_lines (λ lines. swapped lines swap)) row
        store.old store.new }
{
    let row = take_line(store, registrar, row, swap.from)?;
    add_line(store, registrar, row, swap.to, days)
}
