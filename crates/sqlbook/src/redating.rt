//! When deleted domains are due, computed anew: rows that mean the same.
ghost use Rattle.std.specs.Prelude.{◌≡◌, true};
ghost use Rattle.sqlrows.specs.Meanings.{Changes};
ghost use Rattle.sqlbook.specs.inner.Suiting.{MeansSame};

use crate::changed_domains::replace;
use basis::text::Text;
use policy::Schedule;
use sqlderived::{deleted_names, end_of_deletion};
use sqlite::Alter;
use sqltables::RowStore;
use states::BookFault;
use std::alloc::Global;

/// Gives the row of each deleted domain the moment when it is purged by these lengths.
pub(crate) fn redate<S: Alter>(
    store: &mut RowStore<S>,
    alloc: Global,
    days: &Schedule,
) -> Result<(), BookFault>
    requires { store.old.is_open ≡ true }
    ensures { Changes result MeansSame store.old store.new }
{
    let names = deleted_names(store, alloc)?;
    let redated = redate_all(store, alloc, names.as_slice(), days);
    drop(names);
    redated?;
    Ok(())
}

fn redate_all<S: Alter>(
    store: &mut RowStore<S>,
    alloc: Global,
    names: &[Text],
    days: &Schedule,
) -> Result<(), BookFault>
    requires { store.old.is_open ≡ true }
    ensures { Changes result MeansSame store.old store.new }
{
    for name in names {
        redate_one(store, alloc, name, days)?;
    }
    Ok(())
}

/// The same for the deleted domain of a name. It is put again as it is, with another moment.
fn redate_one<S: Alter>(
    store: &mut RowStore<S>,
    alloc: Global,
    name: &Text,
    days: &Schedule,
) -> Result<(), BookFault>
    requires { store.old.is_open ≡ true }
    ensures { Changes result MeansSame store.old store.new }
{
    store.show_consistent();
    let Some(domain) = sqldomains::domain(store, alloc, name)? else {
        return Err(BookFault::Store);
    };
    let Some(deletion) = &domain.deletion else {
        return Err(BookFault::Store);
    };
    let due = end_of_deletion(deletion, days);
    let same = Some(domain);
    let replaced = replace(store, alloc, None, name, &same, &same, due);
    drop(same);
    replaced?;
    Ok(())
}
