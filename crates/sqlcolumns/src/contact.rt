//! Contacts as rows. A contact's transfer is a row of its own.
ghost use Rattle.std.specs.Prelude.{◌≡◌, ◌↔◌, IsTrue, IfOk};
ghost use Rattle.sqlcolumns.specs.Contacts as spec;
ghost use Rattle.sqlcolumns.specs.inner.Contacts as inner_spec;
ghost use Rattle.sqlcolumns.specs.Texts.{statuses_in, street_in};

use crate::registration::{
    Registration, RegistrationColumns, is_registration, registration_columns,
    registration_of_columns,
};
use crate::texts::{statuses_column, statuses_of_column, street_column, street_of_column};
use crate::transfer::{is_same, maybe_due_column};
use basis::list::Seq;
use basis::text::{Text, copied};
use objects::{Contact, ObjectKind, Postal, Status, Transfer};
use sqltables::{ContactRow, PostalRow};
use std::alloc::{AllocError, Global};

/// The row of a contact, under its number; none where its ROID is another kind's, or its street can't
/// be written.
pub fn contact_row(
    alloc: Global,
    id: i64,
    contact: &Contact,
) -> Result<Option<ContactRow>, AllocError>
    ensures { IfOk result (λ row. row ≡ inner_spec.row_of_contact id contact.now) }
{
    let Some(columns) = registration_columns(ObjectKind::Contact, registration_of(contact)) else {
        return Ok(None);
    };
    let Some(postal) = postal_row(alloc, &contact.postal)? else {
        return Ok(None);
    };
    Ok(Some(row_with(alloc, id, contact, columns, postal)?))
}

/// Whether a contact's registrars have places: such a contact is read back from its row.
pub fn is_contact(contact: &Contact) -> bool
    ensures { IsTrue result ↔ inner_spec.IsContact contact.now }
{
    is_registration(&registration_of(contact))
}

fn registration_of(contact: &Contact) -> Registration
    ensures { result ≡ inner_spec.contact_registration contact.now }
{
    Registration {
        roid: contact.roid,
        sponsor: contact.sponsor,
        created: contact.created,
        transferred: contact.transferred,
        updated: contact.updated,
    }
}

/// The postal columns; none where the street can't be written.
fn postal_row(alloc: Global, postal: &Postal) -> Result<Option<PostalRow>, AllocError>
    ensures { IfOk result (λ row. row ≡ inner_spec.postal_row postal.now) }
{
    let Some(street) = street_column(alloc, postal.street.as_slice())? else {
        return Ok(None);
    };
    Ok(Some(PostalRow {
        name: postal.name.clone()?,
        org: copied(&postal.org)?,
        street,
        city: postal.city.clone()?,
        state: copied(&postal.sp)?,
        postal_code: copied(&postal.pc)?,
        country: postal.cc.clone()?,
    }))
}

fn row_with(
    alloc: Global,
    id: i64,
    contact: &Contact,
    columns: RegistrationColumns,
    postal: PostalRow,
) -> Result<ContactRow, AllocError>
    ensures { IfOk result (λ row. row ≡ inner_spec.contact_row_with id contact.now columns postal) }
{
    Ok(ContactRow {
        id,
        name: contact.name.clone()?,
        creator: columns.creator,
        serial: columns.serial,
        sponsor: columns.sponsor,
        created: columns.created,
        transferred: columns.transferred,
        updated: columns.updated,
        statuses: statuses_column(alloc, contact.statuses.as_slice())?,
        secret: contact.secret.clone()?,
        voice: copied(&contact.voice)?,
        mail: contact.mail.clone()?,
        due: maybe_due_column(&contact.transfer),
        postal,
    })
}

/// The contact of a row, if it's one's, whose last transfer is this.
pub fn contact_of_row(
    alloc: Global,
    row: ContactRow,
    transfer: Option<Transfer>,
) -> Result<Option<Contact>, AllocError>
    ensures { IfOk result (λ contact. contact ≡ spec.contact_of_columns row transfer) }
{
    let statuses = statuses_of_column(alloc, row.statuses.as_str())?;
    let street = street_of(alloc, &row)?;
    Ok(contact_made(row, statuses, street, transfer))
}

fn street_of(alloc: Global, row: &ContactRow) -> Result<Seq<Text>, AllocError>
    ensures { IfOk result (λ lines. lines ≡ street_in row.now.postal.street) }
{
    street_of_column(alloc, row.postal.street.as_str())
}

/// The contact of these parts, if all are there.
fn contact_made(
    row: ContactRow,
    statuses: Option<Seq<Status>>,
    street: Seq<Text>,
    transfer: Option<Transfer>,
) -> Option<Contact>
    ensures { result ≡ spec.contact_made row statuses street transfer }
{
    let registration = registration_of_columns(ObjectKind::Contact, columns_of(&row))?;
    let statuses = statuses?;
    if !is_same(maybe_due_column(&transfer), row.due) {
        return None;
    }
    Some(Contact {
        name: row.name,
        roid: registration.roid,
        sponsor: registration.sponsor,
        created: registration.created,
        transferred: registration.transferred,
        updated: registration.updated,
        statuses,
        secret: row.secret,
        postal: postal_of_row(row.postal, street),
        voice: row.voice,
        mail: row.mail,
        transfer,
    })
}

fn columns_of(row: &ContactRow) -> RegistrationColumns
    ensures { result ≡ spec.contact_registration_columns row.now }
{
    RegistrationColumns {
        creator: row.creator,
        serial: row.serial,
        sponsor: row.sponsor,
        created: row.created,
        transferred: row.transferred,
        updated: row.updated,
    }
}

fn postal_of_row(row: PostalRow, street: Seq<Text>) -> Postal
    ensures { result ≡ spec.postal_in row street }
{
    Postal {
        name: row.name,
        org: row.org,
        street,
        city: row.city,
        sp: row.state,
        pc: row.postal_code,
        cc: row.country,
    }
}
