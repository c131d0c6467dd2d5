//! Repository object identifiers as columns. Their kind is the table's.
ghost use Rattle.std.specs.Prelude.{◌≡◌, ◌↔◌, IsTrue};
ghost use Rattle.sqlcolumns.specs.Roids as spec;

use crate::number::{
    counter_column, counter_of_column, is_place, registrar_column, registrar_of_column,
};
use objects::{ObjectKind, Roid};

/// The columns of a ROID.
#[derive(Clone, Copy, Drop)]
pub(crate) struct RoidColumns {
    pub creator: i64,
    pub serial: i64,
}

/// The columns of a ROID; none where it's of another kind.
pub(crate) fn roid_columns(kind: ObjectKind, roid: &Roid) -> Option<RoidColumns>
    ensures { result ≡ spec.roid_columns kind roid.now }
{
    if !is_kind(roid.kind, kind) {
        return None;
    }
    Some(RoidColumns {
        creator: registrar_column(roid.creator),
        serial: counter_column(roid.serial),
    })
}

fn is_kind(a: ObjectKind, b: ObjectKind) -> bool
    ensures { result ≡ spec.is_object_kind a b }
{
    a == b
}

/// The ROID of this kind with these columns, if they are one's.
pub(crate) fn roid_of_columns(kind: ObjectKind, creator: i64, serial: i64) -> Option<Roid>
    ensures { result ≡ spec.roid_in kind creator serial }
{
    Some(Roid {
        kind,
        creator: registrar_of_column(creator)?,
        serial: counter_of_column(serial),
    })
}

/// Whether its creator has a place.
pub fn is_roid(roid: &Roid) -> bool
    ensures { IsTrue result ↔ spec.IsRoid roid.now }
{
    let _serial = roid.serial;
    is_place(roid.creator)
}
