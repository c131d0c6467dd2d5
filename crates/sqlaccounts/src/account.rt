//! The row of an account, and accounts that are opened.
ghost use Rattle.std.specs.Prelude.{◌≡◌, true, Some, IfOk};
ghost use Rattle.sqlcolumns.specs.Numbers.{is_place, registrar_column};
ghost use Rattle.sqlaccounts.specs.{Accounts.row_of, inner.Changes.{IsOpened, opened_row}};
ghost use Rattle.sqlrows.specs.Meanings.{Changes};
ghost use Rattle.states.specs.States.{Finds, FindsSome};

use basis::registrar::RegistrarNo;
use basis::text::Text;
use sqlcolumns::registrar_column;
use sqlite::Alter;
use sqlrows::{Number, only, or_fault};
use sqltables::{AccountRow, RowStore, bytes_of_balance};
use states::BookFault;
use std::alloc::{AllocError, Global};

/// The number of a registrar's row; no registrar has the place 0.
pub fn number_of(registrar: RegistrarNo) -> Result<Number, BookFault>
    ensures number { IfOk result (λ id. id ≡ registrar_column registrar) }
    ensures place { IfOk result (λ id. is_place registrar ≡ true) }
{
    if registrar.place() == 0 {
        return Err(BookFault::Store);
    }
    Ok(Number::new(registrar_column(registrar)))
}

/// A registrar's row, if there is one.
pub fn maybe_row<S: Alter>(
    store: &mut RowStore<S>,
    registrar: RegistrarNo,
) -> Result<Option<AccountRow>, BookFault>
    ensures row { Finds result (row_of store.old.content (registrar_column registrar)) store.old
        store.new }
    ensures place { IfOk result (λ row. is_place registrar ≡ true) }
{
    let id = number_of(registrar)?;
    let rows = store.accounts_by_id(id)?;
    only(rows)
}

/// The row of a registrar who has one.
pub fn found_row<S: Alter>(
    store: &mut RowStore<S>,
    registrar: RegistrarNo,
) -> Result<AccountRow, BookFault>
    ensures row { FindsSome result (λ row. Some row
        ≡ row_of store.old.content (registrar_column registrar)) store.old store.new }
    ensures place { IfOk result (λ row. is_place registrar ≡ true) }
{
    Ok(or_fault(maybe_row(store, registrar)?)?)
}

/// The registrar has an account. One that it has stays as it is.
pub fn open_account<S: Alter>(
    store: &mut RowStore<S>,
    alloc: Global,
    registrar: RegistrarNo,
) -> Result<(), BookFault>
    requires { store.old.is_open ≡ true }
    ensures { Changes result (IsOpened registrar) store.old store.new }
{
    let row = maybe_row(store, registrar)?;
    if row.is_some() {
        return Ok(());
    }
    store.show_consistent();
    let row = opened_row(alloc, registrar)?;
    store.put_account(&row)?;
    Ok(())
}

/// The row of an account with nothing in it.
fn opened_row(alloc: Global, registrar: RegistrarNo) -> Result<AccountRow, AllocError>
    ensures { IfOk result (λ row. row ≡ opened_row registrar) }
{
    let place = registrar.place();
    Ok(AccountRow {
        id: registrar_column(registrar),
        ident: Text::from_string(format!(in alloc; "#{place}")?),
        commands: 0,
        messages: 0,
        serial: 0,
        waiting: 0,
        balance: bytes_of_balance(0),
        held: 0,
    })
}
