//! The columns that contacts and domains have in common.
ghost use Rattle.std.specs.Prelude.{◌≡◌, ◌↔◌, IsTrue};
ghost use Rattle.sqlcolumns.specs.Registrations as spec;

use crate::moment::{
    maybe_moment_column, maybe_moment_of_column, moment_column, moment_of_column,
    show_maybe_moment, show_moment,
};
use crate::number::{is_place, registrar_column, registrar_of_column};
use crate::roid::{is_roid, roid_columns, roid_of_columns};
use basis::registrar::RegistrarNo;
use calendar::Moment;
use objects::{ObjectKind, Roid};

/// Which object it is, whose, and since when.
#[derive(Clone, Copy, Drop)]
pub(crate) struct Registration {
    pub roid: Roid,
    pub sponsor: RegistrarNo,
    pub created: Moment,
    pub transferred: Option<Moment>,
    pub updated: Option<Moment>,
}

/// The same as columns.
#[derive(Clone, Copy, Drop)]
pub(crate) struct RegistrationColumns {
    pub creator: i64,
    pub serial: i64,
    pub sponsor: i64,
    pub created: i64,
    pub transferred: Option<i64>,
    pub updated: Option<i64>,
}

/// The columns in the table of objects of this kind; none where it's of another.
pub(crate) fn registration_columns(
    kind: ObjectKind,
    registration: Registration,
) -> Option<RegistrationColumns>
    ensures { result ≡ spec.registration_columns kind registration }
{
    let roid = roid_columns(kind, &registration.roid)?;
    Some(RegistrationColumns {
        creator: roid.creator,
        serial: roid.serial,
        sponsor: registrar_column(registration.sponsor),
        created: moment_column(registration.created),
        transferred: maybe_moment_column(registration.transferred),
        updated: maybe_moment_column(registration.updated),
    })
}

/// What these columns say, if each reads.
pub(crate) fn registration_of_columns(
    kind: ObjectKind,
    columns: RegistrationColumns,
) -> Option<Registration>
    ensures { result ≡ spec.registration_in kind columns }
{
    Some(Registration {
        roid: roid_of_columns(kind, columns.creator, columns.serial)?,
        sponsor: registrar_of_column(columns.sponsor)?,
        created: moment_of_column(columns.created)?,
        transferred: maybe_moment_of_column(columns.transferred)?,
        updated: maybe_moment_of_column(columns.updated)?,
    })
}

/// Whether its creator and its sponsor have places.
pub(crate) fn is_registration(registration: &Registration) -> bool
    ensures { IsTrue result ↔ spec.IsRegistration registration.now }
{
    show_moment(registration.created);
    show_maybe_moment(registration.transferred);
    show_maybe_moment(registration.updated);
    is_roid(&registration.roid) && is_place(registration.sponsor)
}
