//! The last transfer of a contact or a domain.
ghost use Rattle.std.specs.Prelude.{◌≡◌, true, false, [], filter, Some, IfOk, IfSome};
ghost use Rattle.std.specs.Option.{option_map_or};
ghost use Rattle.sqlite_keyed.specs.Lists.{delete_where};
ghost use Rattle.sqlcolumns.specs.Transfers.{IsStorableTransfer};
ghost use Rattle.states.specs.States.{Finds, FindsSome, Makes};
ghost use Rattle.sqlrows.specs.Meanings.{Changes};
ghost use Rattle.sqltables.specs.inner.Content.{transfers_to};
ghost use Rattle.sqlobjects.specs.inner.Transfers as spec;

use basis::list::Seq;
use objects::Transfer;
use sqlcolumns::{is_transfer, transfer_row};
use sqlite::Alter;
use sqlrows::{Number, only};
use sqltables::{ContactRow, DomainRow, RowStore, TransferRow};
use states::BookFault;

/// What can be transferred, by the number of its row.
#[derive(Clone, Copy, Drop)]
pub enum Transferable {
    Contact(i64),
    Domain(i64),
}

impl Transferable {
    ghost use Rattle.sqlobjects.specs.declared.transfers.Transferable.TheVariants as transferable;

    pub fn of_contact(row: &ContactRow) -> Transferable
        ensures { result ≡ transferable.Contact row.now.id }
    {
        Transferable::Contact(row.id)
    }

    pub fn of_domain(row: &DomainRow) -> Transferable
        ensures { result ≡ transferable.Domain row.now.id }
    {
        Transferable::Domain(row.id)
    }
}

/// Removes the transfer of this object. One that is another's too is refused.
pub fn clear_transfer<S: Alter>(
    store: &mut RowStore<S>,
    object: Transferable,
) -> Result<(), BookFault>
    requires { store.old.is_open ≡ true }
    ensures { Changes result (spec.IsTransferCleared object) store.old store.new }
{
    let there = row_there(store, object)?;
    match there {
        None => Ok(()),
        Some(_) => remove_rows(store, object),
    }
}

/// Gives an object its last transfer, or none, in place of the one that it had.
fn put_transfer<S: Alter>(
    store: &mut RowStore<S>,
    object: Transferable,
    transfer: &Option<Transfer>,
) -> Result<(), BookFault>
    requires { store.old.is_open ≡ true }
    ensures { Changes result (spec.IsTransferPut object transfer.now) store.old store.new }
{
    let row = maybe_row(object, transfer)?;
    let there = row_there(store, object)?;
    store.show_consistent();
    put_over(store, object, there, row)
}

/// This row is of the object's transfer, or none, in place of the one that was.
fn put_over<S: Alter>(
    store: &mut RowStore<S>,
    object: Transferable,
    there: Option<TransferRow>,
    row: Option<TransferRow>,
) -> Result<(), BookFault>
    requires { store.old.is_open ≡ true }
    ensures { Makes result (transfers_to (spec.with_over object there row) store.old.content) store.old
        store.new }
{
    match there {
        None => add_row(store, row),
        Some(there) => put_row(store, object, &there, row),
    }
}

/// The same over a row that is there, whose number stays.
fn put_row<S: Alter>(
    store: &mut RowStore<S>,
    object: Transferable,
    there: &TransferRow,
    row: Option<TransferRow>,
) -> Result<(), BookFault>
    requires { store.old.is_open ≡ true }
    ensures { Makes result (transfers_to (spec.with_over object (Some there.now) row) store.old.content)
        store.old store.new }
{
    let Some(row) = row else {
        return remove_rows(store, object);
    };
    let mut row = row;
    row.id = there.id;
    store.put_transfer(&row)
}

/// The same, where an object's row is new: then it has no transfer, so none is looked for.
pub fn put_last_transfer<S: Alter>(
    store: &mut RowStore<S>,
    object: Transferable,
    transfer: &Option<Transfer>,
    is_new: bool,
) -> Result<(), BookFault>
    requires { store.old.is_open ≡ true }
    ensures { Changes result (λ old new. (is_new ≡ true → filter (spec.is_transfer_of object) old.transfers ≡ [])
        → spec.IsTransferPut object transfer.now old new) store.old store.new }
{
    match transfer {
        None if is_new => Ok(()),
        _ => put_transfer(store, object, transfer),
    }
}

/// The row of the object's transfer, if there is one. One that is another's too is refused.
fn row_there<S: Alter>(
    store: &mut RowStore<S>,
    object: Transferable,
) -> Result<Option<TransferRow>, BookFault>
    ensures { FindsSome result (spec.IsRowOf object store.old.content.transfers) store.old store.new }
{
    let rows = rows_of(store, object)?;
    let row = only(rows)?;
    if names_both(&row) {
        return Err(BookFault::Store);
    }
    Ok(row)
}

/// Whether it is of a contact and of a domain.
fn names_both(row: &Option<TransferRow>) -> bool
    ensures { result ≡ option_map_or spec.names_both row.now false }
{
    match row {
        None => false,
        Some(row) => row.contact.is_some() && row.domain.is_some(),
    }
}

fn rows_of<S: Alter>(
    store: &mut RowStore<S>,
    object: Transferable,
) -> Result<Seq<TransferRow>, BookFault>
    ensures { Finds result (filter (spec.is_transfer_of object) store.old.content.transfers) store.old
        store.new }
{
    match object {
        Transferable::Contact(id) => store.transfers_by_contact(Number::new(id)),
        Transferable::Domain(id) => store.transfers_by_domain(Number::new(id)),
    }
}

fn remove_rows<S: Alter>(store: &mut RowStore<S>, object: Transferable) -> Result<(), BookFault>
    requires { store.old.is_open ≡ true }
    ensures { Makes result (transfers_to (delete_where (spec.is_transfer_of object)) store.old.content) store.old
        store.new }
{
    match object {
        Transferable::Contact(id) => store.remove_transfers_by_contact(Number::new(id)),
        Transferable::Domain(id) => store.remove_transfers_by_domain(Number::new(id)),
    }
}

/// Adds a row, if there is one.
fn add_row<S: Alter>(store: &mut RowStore<S>, row: Option<TransferRow>) -> Result<(), BookFault>
    requires { store.old.is_open ≡ true }
    ensures { Makes result (transfers_to (spec.with_added row) store.old.content) store.old store.new }
{
    match row {
        None => Ok(()),
        Some(row) => {
            store.append_transfer(&row)?;
            Ok(())
        }
    }
}

/// The row of an object's transfer, if there is one. A transfer that wouldn't be read back is refused.
fn maybe_row(
    object: Transferable,
    transfer: &Option<Transfer>,
) -> Result<Option<TransferRow>, BookFault>
    ensures row { IfOk result (λ row. row ≡ spec.maybe_row object transfer.now) }
    ensures is { IfOk result (λ row. IfSome transfer.now IsStorableTransfer) }
{
    let Some(transfer) = transfer else {
        return Ok(None);
    };
    if !is_transfer(transfer) {
        return Err(BookFault::Store);
    }
    Ok(Some(row_of(object, transfer)))
}

/// The row of an object's transfer, but for its number.
fn row_of(object: Transferable, transfer: &Transfer) -> TransferRow
    ensures { result ≡ spec.transfer_row_of object transfer.now }
{
    match object {
        Transferable::Contact(id) => transfer_row(0, Some(id), None, transfer),
        Transferable::Domain(id) => transfer_row(0, None, Some(id), transfer),
    }
}
