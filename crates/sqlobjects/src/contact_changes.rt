//! Contacts put under their names and dropped.
ghost use Rattle.std.specs.Prelude.{◌≡◌, true, pos, Some, None, IfOk};
ghost use Rattle.sqlcolumns.specs.inner.Contacts.{row_of_contact};
ghost use Rattle.sqlrows.specs.Meanings.{Changes};
ghost use Rattle.sqlobjects.specs.inner.Changes.{IsContactPut};

use crate::named_rows::{place_row, row_named};
use crate::transfers::{Transferable, clear_transfer, put_last_transfer};
use basis::text::Text;
use objects::Contact;
use sqlcolumns::{contact_row, is_contact};
use sqlite::Alter;
use sqlrows::{Number, or_fault};
use sqltables::{ContactRow, RowStore};
use states::BookFault;
use std::alloc::Global;

/// The contact is under this name, which has to be its own.
pub fn put_contact<S: Alter>(
    store: &mut RowStore<S>,
    alloc: Global,
    name: Text,
    contact: Contact,
) -> Result<(), BookFault>
    requires { store.old.is_open ≡ true }
    ensures { Changes result (IsContactPut name (Some contact)) store.old store.new }
{
    if contact.name.as_str() != name.as_str() {
        return Err(BookFault::Store);
    }
    put(store, alloc, &contact)
}

/// The same of a contact that is kept: in the row that has its name, or else in a new one, and then its
/// transfer. One that wouldn't be read back is refused.
fn put<S: Alter>(store: &mut RowStore<S>, alloc: Global, contact: &Contact) -> Result<(), BookFault>
    requires { store.old.is_open ≡ true }
    ensures { Changes result (IsContactPut contact.now.name (Some contact.now)) store.old store.new }
{
    store.show_consistent();
    let found = row_named(store, &contact.name)?;
    if !is_contact(contact) {
        return Err(BookFault::Store);
    }
    let is_new = found.is_none();
    let bare = row_of(alloc, contact)?;
    let row = place_row(store, found, bare)?;
    store.show_consistent();
    put_last_transfer(
        store,
        Transferable::of_contact(&row),
        &contact.transfer,
        is_new,
    )?;
    store.show_consistent();
    Ok(())
}

/// A contact's row, but for its number and its transfer. One that can't be written is refused.
fn row_of(alloc: Global, contact: &Contact) -> Result<ContactRow, BookFault>
    ensures { IfOk result (λ row. row_of_contact (pos 0) contact.now ≡ Some row) }
{
    or_fault(contact_row(alloc, 0, contact)?)
}

/// No contact is under this name, and no transfer is of the one that was.
pub fn drop_contact<S: Alter>(
    store: &mut RowStore<S>,
    alloc: Global,
    name: Text,
) -> Result<(), BookFault>
    requires { store.old.is_open ≡ true }
    ensures { Changes result (IsContactPut name None) store.old store.new }
{
    store.show_consistent();
    let Some(row) = row_named::<ContactRow, S>(store, &name)? else {
        return Ok(());
    };
    clear_transfer(store, Transferable::of_contact(&row))?;
    store.remove_contacts_by_id(number_of(&row))?;
    store.show_consistent();
    Ok(())
}

fn number_of(row: &ContactRow) -> Number
    ensures { result ≡ row.now.id }
{
    Number::new(row.id)
}
