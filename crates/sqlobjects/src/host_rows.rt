//! Rows of hosts: found, and made.
ghost use Rattle.std.specs.Prelude.{◌≡◌, Some, None, IfOk};
ghost use Rattle.sqlcolumns.specs.inner.Hosts as inner_hosts;
ghost use Rattle.states.specs.States.{FindsSome};
ghost use Rattle.sqlobjects.specs.inner.Stages.{IsHostFound, IsHostRow};

use crate::named_rows::row_named;
use crate::sponsors::{check_sponsor, with_sponsor};
use basis::text::Text;
use objects::Host;
use sqlcolumns::host_row;
use sqlite::Alter;
use sqlrows::or_fault;
use sqltables::{HostRow, RowStore};
use states::BookFault;
use std::alloc::Global;

/// The row of the host of this name, if there is one, where it is to be changed. One that has another
/// sponsor than it has to have is refused.
pub(crate) fn row_to_change<S: Alter>(
    store: &mut RowStore<S>,
    name: &Text,
) -> Result<Option<HostRow>, BookFault>
    ensures { FindsSome result (IsHostFound store.old.content name.now) store.old store.new }
{
    let row = row_named(store, name)?;
    check_sponsor(store, &row)?;
    Ok(row)
}

/// A host's row under this number, but for its addresses. One that can't be written is refused.
pub(crate) fn row_of<S: Alter>(
    store: &mut RowStore<S>,
    alloc: Global,
    id: i64,
    host: &Host,
) -> Result<HostRow, BookFault>
    ensures { FindsSome result (λ row. IsHostRow store.old.content id host.now row) store.old
        store.new }
{
    let row = row_without(alloc, id, host)?;
    with_sponsor(store, row)
}

/// The same under the number of a row that is there.
pub(crate) fn row_again<S: Alter>(
    store: &mut RowStore<S>,
    alloc: Global,
    found: &HostRow,
    host: &Host,
) -> Result<HostRow, BookFault>
    ensures { FindsSome result (λ row. IsHostRow store.old.content found.now.id host.now row) store.old
        store.new }
{
    row_of(store, alloc, found.id, host)
}

/// A host's row without a sponsor.
fn row_without(alloc: Global, id: i64, host: &Host) -> Result<HostRow, BookFault>
    ensures { IfOk result (λ row. inner_hosts.row_of_host id None host.now ≡ Some row) }
{
    or_fault(host_row(alloc, id, None, host)?)
}
