//! Domains as rows. A domain's links and its transfer are rows of their own.
ghost use Rattle.std.specs.Prelude.{◌≡◌, ◌↔◌, IsTrue, IfOk, IfSome, Some};
ghost use Rattle.sqlcolumns.specs.Domains as spec;
ghost use Rattle.sqlcolumns.specs.inner.Domains as inner_spec;
ghost use Rattle.sqlcolumns.specs.Texts.{statuses_in};

use crate::moment::{
    maybe_moment_column, maybe_moment_of_column, moment_column, moment_of_column,
    show_maybe_moment, show_moment,
};
use crate::number::{years_column, years_of_column};
use crate::registration::{
    Registration, RegistrationColumns, is_registration, registration_columns,
    registration_of_columns,
};
use crate::texts::{statuses_column, statuses_of_column};
use basis::list::Seq;
use calendar::Moment;
use objects::{Deletion, Domain, Links, ObjectKind, Status, Transfer};
use sqltables::DomainRow;
use std::alloc::{AllocError, Global};

/// The columns for a deletion, which are NULL where there was none.
#[derive(Clone, Copy, Drop)]
pub(crate) struct DeletionColumns {
    pub deleted: Option<i64>,
    pub restore_requested: Option<i64>,
}

/// The row of a domain, under its number, whose registrant has this one, and for which something is
/// due then; none where its ROID is another kind's.
pub fn domain_row(
    alloc: Global,
    id: i64,
    registrant: i64,
    due: Moment,
    domain: &Domain,
) -> Result<Option<DomainRow>, AllocError>
    ensures { IfOk result (λ row. row ≡ inner_spec.row_of_domain id registrant due domain.now) }
{
    let Some(columns) = registration_columns(ObjectKind::Domain, registration_of(domain)) else {
        return Ok(None);
    };
    let deletion = deletion_columns(domain.deletion);
    Ok(Some(row_with(alloc, id, registrant, due, domain, columns, deletion)?))
}

/// Whether a domain's registrars have places: such a domain is read back from its row.
pub fn is_domain(domain: &Domain) -> bool
    ensures { IsTrue result ↔ inner_spec.IsDomain domain.now }
{
    let _years = domain.years;
    show_deletion(domain.deletion);
    is_registration(&registration_of(domain))
}

/// Tells a proof that its moments are within the range.
fn show_deletion(deletion: Option<Deletion>)
    ensures { IfSome deletion inner_spec.IsStorableDeletion }
{
    if let Some(deletion) = deletion {
        show_moment(deletion.deleted);
        show_maybe_moment(deletion.restore_requested);
    }
}

fn registration_of(domain: &Domain) -> Registration
    ensures { result ≡ inner_spec.domain_registration domain.now }
{
    Registration {
        roid: domain.roid,
        sponsor: domain.sponsor,
        created: domain.created,
        transferred: domain.transferred,
        updated: domain.updated,
    }
}

fn deletion_columns(deletion: Option<Deletion>) -> DeletionColumns
    ensures { result ≡ inner_spec.deletion_columns deletion }
{
    match deletion {
        None => DeletionColumns {
            deleted: None,
            restore_requested: None,
        },
        Some(deletion) => DeletionColumns {
            deleted: Some(moment_column(deletion.deleted)),
            restore_requested: maybe_moment_column(deletion.restore_requested),
        },
    }
}

fn row_with(
    alloc: Global,
    id: i64,
    registrant: i64,
    due: Moment,
    domain: &Domain,
    columns: RegistrationColumns,
    deletion: DeletionColumns,
) -> Result<DomainRow, AllocError>
    ensures { IfOk result (λ row. row ≡ inner_spec.domain_row_with id registrant due domain.now columns
        deletion) }
{
    Ok(DomainRow {
        id,
        name: domain.name.clone()?,
        creator: columns.creator,
        serial: columns.serial,
        sponsor: columns.sponsor,
        created: columns.created,
        years: years_column(domain.years),
        transferred: columns.transferred,
        updated: columns.updated,
        statuses: statuses_column(alloc, domain.statuses.as_slice())?,
        secret: domain.secret.clone()?,
        registrant,
        deleted: deletion.deleted,
        restore_requested: deletion.restore_requested,
        due: moment_column(due),
    })
}

/// The domain of a row, if it's one's, which names these and whose last transfer is this.
pub fn domain_of_row(
    alloc: Global,
    row: DomainRow,
    links: Links,
    transfer: Option<Transfer>,
) -> Result<Option<Domain>, AllocError>
    ensures { IfOk result (λ domain. domain ≡ spec.domain_of_columns row links transfer) }
{
    let statuses = statuses_of_column(alloc, row.statuses.as_str())?;
    Ok(domain_made(row, statuses, links, transfer))
}

/// The domain of these parts, if all are there.
fn domain_made(
    row: DomainRow,
    statuses: Option<Seq<Status>>,
    links: Links,
    transfer: Option<Transfer>,
) -> Option<Domain>
    ensures { result ≡ spec.domain_made row statuses links transfer }
{
    let registration = registration_of_columns(ObjectKind::Domain, columns_of(&row))?;
    let years = years_of_column(row.years)?;
    let statuses = statuses?;
    let deletion = deletion_of_columns(row.deleted, row.restore_requested)?;
    Some(Domain {
        name: row.name,
        roid: registration.roid,
        sponsor: registration.sponsor,
        created: registration.created,
        years,
        transferred: registration.transferred,
        updated: registration.updated,
        statuses,
        secret: row.secret,
        links,
        transfer,
        deletion,
    })
}

fn columns_of(row: &DomainRow) -> RegistrationColumns
    ensures { result ≡ spec.domain_registration_columns row.now }
{
    RegistrationColumns {
        creator: row.creator,
        serial: row.serial,
        sponsor: row.sponsor,
        created: row.created,
        transferred: row.transferred,
        updated: row.updated,
    }
}

/// The deletion of a row's domain, or none, if its columns read.
pub fn deletion_of_row(row: &DomainRow) -> Option<Option<Deletion>>
    ensures { result ≡ spec.deletion_in row.now.deleted row.now.restore_requested }
{
    deletion_of_columns(row.deleted, row.restore_requested)
}

/// The deletion of two columns, unless there is a restore without one.
fn deletion_of_columns(
    deleted: Option<i64>,
    restore_requested: Option<i64>,
) -> Option<Option<Deletion>>
    ensures { result ≡ spec.deletion_in deleted restore_requested }
{
    match (deleted, restore_requested) {
        (None, None) => Some(None),
        (None, Some(_)) => None,
        (Some(deleted), restore_requested) => Some(Some(Deletion {
            deleted: moment_of_column(deleted)?,
            restore_requested: maybe_moment_of_column(restore_requested)?,
        })),
    }
}
