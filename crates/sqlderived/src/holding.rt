//! How many domains a registrar holds.
ghost use Rattle.std.specs.{Prelude.{◌≡◌, nat_le, pos}, Option.option_map_or};
ghost use Rattle.sqlrows.specs.Meanings.{FindsIfRight};
ghost use Rattle.sqlderived.specs.Held.{held_of, helds_are_right};
ghost use Rattle.sqltables.specs.declared.account.AccountRow.{AccountRow};

use basis::registrar::RegistrarNo;
use sqlaccounts::maybe_row;
use sqlcolumns::exact_of_column;
use sqlite::Alter;
use sqltables::{AccountRow, RowStore};
use states::BookFault;

/// Whether a registrar sponsors, or gets by pending transfers, this many domains or more: none where
/// its account was never opened.
pub fn is_at_holding_limit<S: Alter>(
    store: &mut RowStore<S>,
    registrar: RegistrarNo,
    most: usize,
) -> Result<bool, BookFault>
    ensures { FindsIfRight result (helds_are_right store.old.content)
        (nat_le most (held_of store.old.content registrar)) store.old store.new }
{
    let row = maybe_row(store, registrar)?;
    store.show_consistent();
    match exact_of_column(held_in(row)) {
        Some(count) => Ok(most as u64 <= count),
        None => Err(BookFault::Store),
    }
}

fn held_in(row: Option<AccountRow>) -> i64
    ensures { result ≡ option_map_or (λ (row : AccountRow). row.held) row (pos 0) }
{
    let Some(row) = row else {
        return 0;
    };
    row.held
}
