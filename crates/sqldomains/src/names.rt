//! Names of contacts and hosts, by the numbers of their rows.
ghost use Rattle.std.specs.Prelude.{◌≡◌, Some};
ghost use Rattle.states.specs.States.{Finds, FindsSome};
ghost use Rattle.sqlite_keyed.specs.Keyed.{get_by};
ghost use Rattle.sqltables.specs.{Contact.contacts, Host.hosts};
ghost use Rattle.sqlobjects.specs.Changes as changes;

use basis::text::Text;
use sqlite::Alter;
use sqlrows::{Number, only, or_fault};
use sqltables::{ContactRow, HostRow, RowStore};
use states::BookFault;

/// The name of the contact with this number, to which something leads.
pub(crate) fn contact_name<S: Alter>(store: &mut RowStore<S>, id: i64) -> Result<Text, BookFault>
    ensures { FindsSome result
        (λ name. changes.contact_name_by_number store.old.content id ≡ Some name) store.old
        store.new }
{
    let row = contact_row(store, id)?;
    or_fault(row.map(|row| row.name))
}

fn contact_row<S: Alter>(store: &mut RowStore<S>, id: i64) -> Result<Option<ContactRow>, BookFault>
    ensures { Finds result (get_by contacts.key store.old.content.contacts id) store.old store.new }
{
    let number = Number::new(id);
    let rows = store.contacts_by_id(number)?;
    only(rows)
}

/// The name of the host with this number, to which something leads.
pub(crate) fn host_name<S: Alter>(store: &mut RowStore<S>, id: i64) -> Result<Text, BookFault>
    ensures { FindsSome result
        (λ name. changes.host_name_by_number store.old.content id ≡ Some name) store.old
        store.new }
{
    let row = host_row(store, id)?;
    or_fault(row.map(|row| row.name))
}

fn host_row<S: Alter>(store: &mut RowStore<S>, id: i64) -> Result<Option<HostRow>, BookFault>
    ensures { Finds result (get_by hosts.key store.old.content.hosts id) store.old store.new }
{
    let number = Number::new(id);
    let rows = store.hosts_by_id(number)?;
    only(rows)
}
