//! The lines of an account, and those on one domain.
ghost use Rattle.std.specs.{Prelude.{◌≡◌, filter, IfOk}, List.{filter_map, list_all}};
ghost use Rattle.accounts.specs.Lines as lines;
ghost use Rattle.accounts.specs.{Lines.{in_order, swapped_all}, declared.line.LineSwap.LineSwap};
ghost use Rattle.basis.specs.Bag.{bag_of, remade};
ghost use Rattle.sqlcolumns.specs.Lines.{line_of_columns};
ghost use Rattle.sqlaccounts.specs.Accounts.{account_of_rows};
ghost use Rattle.states.specs.States.{Finds, FindsSome};

use crate::finding::{rows_of, rows_on};
use accounts::{LineChange, LineSwap, Lines};
use basis::list::Seq;
use basis::registrar::RegistrarNo;
use objects::Roid;
use sqlcolumns::line_of_row;
use sqlite::Alter;
use sqltables::{LineRow, RowStore};
use states::BookFault;
use std::alloc::Global;

/// The lines of a registrar's account on a domain: none where it was never opened. Another object than
/// a domain is refused.
pub fn lines_on<S: Alter>(
    store: &mut RowStore<S>,
    alloc: Global,
    registrar: RegistrarNo,
    roid: &Roid,
) -> Result<Lines, BookFault>
    ensures { Finds result
        (filter (lines.is_on roid.now) (account_of_rows registrar store.old.content).lines) store.old
        store.new }
{
    let rows = rows_on(store, registrar, roid)?;
    store.show_consistent();
    Ok(read(alloc, rows.as_slice())?)
}

/// The lines of a registrar's account: none where it was never opened.
pub fn lines<S: Alter>(
    store: &mut RowStore<S>,
    alloc: Global,
    registrar: RegistrarNo,
) -> Result<Lines, BookFault>
    ensures { Finds result (account_of_rows registrar store.old.content).lines store.old store.new }
{
    let rows = rows_of(store, registrar)?;
    store.show_consistent();
    Ok(read(alloc, rows.as_slice())?)
}

/// The lines that rows read as. One that doesn't read is refused.
fn read(alloc: Global, rows: &[LineRow]) -> Result<Lines, BookFault>
    ensures { IfOk result (λ lines. lines ≡ bag_of in_order (filter_map line_of_columns rows.now)) }
{
    let mut lines = Lines::new(alloc);
    for row in rows {
        let Some(line) = line_of_row(row) else {
            return Err(BookFault::Store);
        };
        lines.add(line)?;
    }
    Ok(lines)
}

/// What makes of a registrar's lines what a change makes of them, one line for another. It reads
/// those of the change's domain alone.
pub(crate) fn swaps<C: LineChange, S: Alter>(
    store: &mut RowStore<S>,
    alloc: Global,
    registrar: RegistrarNo,
    change: &C,
) -> Result<Seq<LineSwap>, BookFault>
    ensures { FindsSome result
        (λ swaps. swapped_all swaps (account_of_rows registrar store.old.content).lines
        ≡ remade in_order (C.changed change.now) (account_of_rows registrar store.old.content).lines)
        store.old store.new }
{
    let roid = change.domain();
    let lines = lines_on(store, alloc, registrar, &roid)?;
    let swaps = lines.swaps(change)?;
    if !are_on(&swaps, &roid) {
        return Err(BookFault::Store);
    }
    Ok(Seq::from_vec(swaps))
}

/// Whether each of these lines is on the domain.
fn are_on(swaps: &[LineSwap], roid: &Roid) -> bool
    ensures { result ≡ list_all (λ (swap : LineSwap). lines.is_on roid.now swap.from) swaps.now }
{
    swaps.iter().all(|swap| swap.from.is_on(roid))
}
