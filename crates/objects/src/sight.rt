//! What one registrar sees of an object.
ghost use Rattle.std.specs.{Prelude.{◌≡◌}, Option.option_copied};
ghost use Rattle.objects.specs.Sight as spec;

use crate::transfer::Transfer;
use basis::registrar::RegistrarNo;
use basis::text::Text;

/// What a registrar sees of an object: all of it; its face and the record of the last transfer, which
/// names the registrar; or its face alone.
#[derive(Clone, Drop)]
pub enum Seen<O, F> {
    Full(O),
    TransferParty(F, Transfer),
    Public(F),
}

/// Whether the registrar sponsors an object or a pending transfer brings it there.
pub(crate) fn is_party(
    registrar: RegistrarNo,
    sponsor: RegistrarNo,
    transfer: &Option<Transfer>,
) -> bool
    ensures { result ≡ spec.is_party registrar sponsor transfer.now }
{
    if sponsor == registrar {
        return true;
    }
    match transfer {
        None => false,
        Some(transfer) => transfer.is_incoming(registrar),
    }
}

/// Whether a secret was presented, and is this one.
pub(crate) fn authorizes(presented: Option<&Text>, secret: &Text) -> bool
    ensures { result ≡ spec.authorizes (option_copied presented.entry) secret.now }
{
    match presented {
        None => false,
        Some(presented) => *presented == *secret,
    }
}

/// The face, with the last transfer where that names the registrar.
pub(crate) fn seen_by_outsider<O, F>(
    registrar: RegistrarNo,
    face: F,
    transfer: &Option<Transfer>,
) -> Seen<O, F>
    ensures { result ≡ spec.seen_by_outsider registrar face transfer.now }
{
    match transfer {
        Some(transfer) if transfer.names(registrar) => Seen::TransferParty(face, *transfer),
        _ => Seen::Public(face),
    }
}
