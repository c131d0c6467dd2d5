//! A host's new name, over rows. What a domain names is a number of a row, so the host's row gets the name,
//! and no row of a domain is written, however many name the host.
ghost use Rattle.std.specs.Prelude.{◌≡◌, true};
ghost use Rattle.decisions.specs.Changes.{may_rename};
ghost use Rattle.books.specs.Tables.{host_renamed_if_there};
ghost use Rattle.states.specs.States.{Finds};
ghost use Rattle.sqlbook.specs.{Meaning.{are_right, stored_of}, AsBook.MakesAs};

use basis::text::Text;
use objects::Host;
use sqlite::Alter;
use sqltables::RowStore;
use states::BookFault;
use std::alloc::Global;

/// A host goes from one name to that of its own, and each domain that named it names it by that. Where there is no
/// host of the one name, or one of the other, nothing is changed.
pub(crate) fn rename_host<S: Alter>(
    store: &mut RowStore<S>,
    alloc: Global,
    from: &Text,
    host: &Host,
) -> Result<(), BookFault>
    requires { store.old.is_open ≡ true }
    ensures { MakesAs result stored_of are_right (host_renamed_if_there from.now host.now
        (stored_of store.old.content)) store.old store.new }
{
    if !may_rename(store, alloc, from, &host.name)? {
        return Ok(());
    }
    sqlobjects::rename_row(store, alloc, from, host)?;
    Ok(())
}

/// Whether there is a host of the one name, and none of the other.
fn may_rename<S: Alter>(
    store: &mut RowStore<S>,
    alloc: Global,
    from: &Text,
    to: &Text,
) -> Result<bool, BookFault>
    ensures { Finds result (may_rename (stored_of store.old.content).registry.hosts from.now to.now)
        store.old store.new }
{
    if !sqlobjects::has_host(store, alloc, from)? {
        return Ok(false);
    }
    let is_taken = sqlobjects::has_host(store, alloc, to)?;
    Ok(!is_taken)
}
