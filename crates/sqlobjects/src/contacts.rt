//! Contacts, by name.
ghost use Rattle.std.specs.{Prelude.{◌≡◌, true, IfOk, Some, filter, is_some}, FinMap.get};
ghost use Rattle.sqlcolumns.specs.Contacts.{contact_of_columns};
ghost use Rattle.sqltables.specs.{Contact.contact_with_name, Transfer.transfer_with_contact};
ghost use Rattle.states.specs.States.{Finds, FindsSome};
ghost use Rattle.sqlobjects.specs.Objects as spec;
ghost use Rattle.sqlrows.specs.Read.{IsRead};

use crate::named_rows::row_named;
use basis::list::Seq;
use basis::text::Text;
use objects::{Contact, Transfer};
use sqlcolumns::{contact_of_row, transfer_of_row};
use sqlite::Alter;
use sqlrows::{Number, only, or_fault};
use sqltables::{ContactRow, RowStore, TransferRow};
use states::BookFault;
use std::alloc::Global;

/// The contact of this name.
pub fn contact<S: Alter>(
    store: &mut RowStore<S>,
    alloc: Global,
    name: &Text,
) -> Result<Option<Contact>, BookFault>
    ensures found { Finds result (get (spec.contacts_of store.old.content) name.now) store.old
        store.new }
    ensures read { IfOk result (λ contact. store.new.is_clean ≡ true
        → IsRead (filter (contact_with_name name.now) store.old.content.contacts) contact) }
{
    let Some(row) = row_named::<ContactRow, S>(store, name)? else {
        return Ok(None);
    };
    Ok(Some(contact_of(store, alloc, row)?))
}

/// The contact of a row.
pub fn contact_of<S: Alter>(
    store: &mut RowStore<S>,
    alloc: Global,
    row: ContactRow,
) -> Result<Contact, BookFault>
    ensures { FindsSome result (λ contact. spec.contact_read store.old.content row ≡ Some contact)
        store.old store.new }
{
    match transfer_of(store, &row) {
        Ok(transfer) => read_contact(alloc, row, transfer),
        Err(fault) => {
            drop(row);
            Err(fault)
        }
    }
}

/// The last transfer of the contact of a row, if there was one.
fn transfer_of<S: Alter>(
    store: &mut RowStore<S>,
    row: &ContactRow,
) -> Result<Option<Transfer>, BookFault>
    ensures { FindsSome result
        (λ transfer. spec.last_transfer (filter (transfer_with_contact row.now.id)
        store.old.content.transfers) ≡ Some transfer) store.old store.new }
{
    let transfers = store.transfers_by_contact(Number::new(row.id))?;
    last_transfer(transfers)
}

/// The last transfer, if there was one, of the object whose transfers these rows are.
pub fn last_transfer(rows: Seq<TransferRow>) -> Result<Option<Transfer>, BookFault>
    ensures { IfOk result (λ transfer. spec.last_transfer rows ≡ Some transfer) }
{
    let Some(row) = only(rows)? else {
        return Ok(None);
    };
    let transfer = or_fault(transfer_of_row(&row))?;
    Ok(Some(transfer))
}

fn read_contact(
    alloc: Global,
    row: ContactRow,
    transfer: Option<Transfer>,
) -> Result<Contact, BookFault>
    ensures { IfOk result (λ contact. contact_of_columns row transfer ≡ Some contact) }
{
    or_fault(contact_of_row(alloc, row, transfer)?)
}

/// Whether there is a contact of this name.
pub fn has_contact<S: Alter>(
    store: &mut RowStore<S>,
    alloc: Global,
    name: &Text,
) -> Result<bool, BookFault>
    ensures { Finds result (is_some (get (spec.contacts_of store.old.content) name.now)) store.old
        store.new }
{
    let contact = contact(store, alloc, name)?;
    let is_there = contact.is_some();
    drop(contact);
    Ok(is_there)
}
