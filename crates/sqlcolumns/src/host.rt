//! Hosts as rows. A host's addresses are rows of their own.
ghost use Rattle.std.specs.Prelude.{◌≡◌, ◌↔◌, IsTrue, IfOk};
ghost use Rattle.sqlcolumns.specs.{Above.above, Texts.statuses_in};
ghost use Rattle.sqlcolumns.specs.Hosts as spec;
ghost use Rattle.sqlcolumns.specs.inner.Hosts as inner_spec;

use crate::above::above_column;
use crate::moment::{
    maybe_moment_column, maybe_moment_of_column, moment_column, moment_of_column,
    show_maybe_moment, show_moment,
};
use crate::number::{is_maybe_place, maybe_registrar_column, maybe_registrar_of_column};
use crate::roid::{RoidColumns, is_roid, roid_columns, roid_of_columns};
use crate::texts::{statuses_column, statuses_of_column};
use basis::list::Seq;
use basis::registrar::RegistrarNo;
use basis::text::Text;
use calendar::Moment;
use objects::{Host, ObjectKind, Roid, Status};
use sqltables::HostRow;
use std::alloc::{AllocError, Global};

/// Which host it is, who sponsors it outside the zone, and since when.
#[derive(Clone, Copy, Drop)]
pub(crate) struct HostColumns {
    pub roid: Roid,
    pub external_sponsor: Option<RegistrarNo>,
    pub created: Moment,
    pub updated: Option<Moment>,
}

/// The row of a host, under its number, which this account sponsors; none where its ROID is another
/// kind's.
pub fn host_row(
    alloc: Global,
    id: i64,
    sponsor: Option<i64>,
    host: &Host,
) -> Result<Option<HostRow>, AllocError>
    ensures { IfOk result (λ row. row ≡ inner_spec.row_of_host id sponsor host.now) }
{
    let Some(roid) = roid_columns(ObjectKind::Host, &host.roid) else {
        return Ok(None);
    };
    Ok(Some(row_with(alloc, id, sponsor, host, roid)?))
}

fn row_with(
    alloc: Global,
    id: i64,
    sponsor: Option<i64>,
    host: &Host,
    roid: RoidColumns,
) -> Result<HostRow, AllocError>
    ensures { IfOk result (λ row. row ≡ inner_spec.host_row_with id sponsor host.now roid) }
{
    Ok(HostRow {
        id,
        name: host.name.clone()?,
        creator: roid.creator,
        serial: roid.serial,
        above: above_column(alloc, host.name.as_str())?,
        external_sponsor: maybe_registrar_column(host.external_sponsor),
        sponsor,
        created: moment_column(host.created),
        updated: maybe_moment_column(host.updated),
        statuses: statuses_column(alloc, host.statuses.as_slice())?,
    })
}

/// Whether a host's registrars have places: such a host is read back from its row.
pub fn is_host(host: &Host) -> bool
    ensures { IsTrue result ↔ inner_spec.IsHost host.now }
{
    show_moment(host.created);
    show_maybe_moment(host.updated);
    is_roid(&host.roid) && is_maybe_place(host.external_sponsor)
}

/// The host of a row, if it's one's, with these addresses.
pub fn host_of_row(
    alloc: Global,
    row: HostRow,
    addresses: Seq<Text>,
) -> Result<Option<Host>, AllocError>
    ensures { IfOk result (λ host. host ≡ spec.host_of_columns row addresses) }
{
    let statuses = statuses_of_column(alloc, row.statuses.as_str())?;
    let above = above_column(alloc, row.name.as_str())?;
    Ok(host_made(row, statuses, above, addresses))
}

/// The host of these parts, if all are there.
fn host_made(
    row: HostRow,
    statuses: Option<Seq<Status>>,
    above: Text,
    addresses: Seq<Text>,
) -> Option<Host>
    ensures { result ≡ spec.host_made row statuses above addresses }
{
    let columns = columns_of(&row)?;
    let statuses = statuses?;
    if row.above.as_str() != above.as_str() {
        return None;
    }
    Some(Host {
        name: row.name,
        roid: columns.roid,
        external_sponsor: columns.external_sponsor,
        created: columns.created,
        updated: columns.updated,
        statuses,
        addresses,
    })
}

fn columns_of(row: &HostRow) -> Option<HostColumns>
    ensures { result ≡ spec.columns_in row.now }
{
    Some(HostColumns {
        roid: roid_of_columns(ObjectKind::Host, row.creator, row.serial)?,
        external_sponsor: maybe_registrar_of_column(row.external_sponsor)?,
        created: moment_of_column(row.created)?,
        updated: maybe_moment_of_column(row.updated)?,
    })
}
