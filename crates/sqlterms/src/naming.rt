//! Ids given to accounts.
ghost use Rattle.std.specs.Prelude.{◌≡◌, true, IfOk};
ghost use Rattle.sqlrows.specs.Meanings.{Changes};
ghost use Rattle.sqlterms.specs.inner.Changes.{IsRenaming};

use basis::text::Text;
use sqlite::Alter;
use sqlrows::{Number, only};
use sqltables::{AccountRow, RowStore};
use states::BookFault;
use std::alloc::AllocError;

/// Gives the accounts with the numbers from 1 on these ids. An account that isn't there is refused.
pub(crate) fn name_accounts<S: Alter>(
    store: &mut RowStore<S>,
    ids: &[Text],
) -> Result<(), BookFault>
    requires { store.old.is_open ≡ true }
    ensures { Changes result IsRenaming store.old store.new }
{
    let mut place: u32 = 0;
    for id in ids {
        if place == u32::MAX {
            return Err(BookFault::Store);
        }
        place += 1;
        name_account(store, Number::new(i64::from(place)), id)?;
    }
    Ok(())
}

/// Gives an account an id.
fn name_account<S: Alter>(
    store: &mut RowStore<S>,
    number: Number,
    id: &Text,
) -> Result<(), BookFault>
    requires { store.old.is_open ≡ true }
    ensures { Changes result IsRenaming store.old store.new }
{
    let rows = store.accounts_by_id(number)?;
    store.show_consistent();
    let Some(row) = only(rows)? else {
        return Err(BookFault::Store);
    };
    let named = with_ident(row, id)?;
    store.put_account(&named)?;
    Ok(())
}

fn with_ident(row: AccountRow, id: &Text) -> Result<AccountRow, AllocError>
    ensures { IfOk result (λ named. named ≡ record row { ident = id.now }) }
{
    let mut row = row;
    row.ident = id.clone()?;
    Ok(row)
}
