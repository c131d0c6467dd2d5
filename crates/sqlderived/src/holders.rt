//! Who holds a domain, and who does no more.
ghost use Rattle.std.specs.{Prelude.{◌≡◌, ◌==◌, false, Some}, Option.option_map_or};
ghost use Rattle.sqlderived.specs.inner.Holders as spec;

use basis::registrar::RegistrarNo;
use objects::{Domain, Transfer};

/// Who holds a domain: its sponsor, and the one to whom a pending transfer brings it.
#[derive(Drop)]
pub(crate) struct Holders {
    pub(crate) sponsor: RegistrarNo,
    pub(crate) incoming: Option<RegistrarNo>,
}

/// Who holds a domain, if there is one.
pub(crate) fn holders_of(domain: &Option<Domain>) -> Option<Holders>
    ensures { result ≡ spec.maybe_holders_of domain.now }
{
    match domain {
        None => None,
        Some(domain) => Some(Holders {
            sponsor: domain.sponsor,
            incoming: incoming_of(&domain.transfer),
        }),
    }
}

fn incoming_of(transfer: &Option<Transfer>) -> Option<RegistrarNo>
    ensures { result ≡ spec.incoming_of transfer.now }
{
    match transfer {
        None => None,
        Some(transfer) => incoming_by(transfer),
    }
}

fn incoming_by(transfer: &Transfer) -> Option<RegistrarNo>
    ensures { result ≡ spec.incoming_of (Some transfer.now) }
{
    if !transfer.is_pending() {
        return None;
    }
    Some(transfer.requester)
}

impl Holders {
    fn is_among(&self, registrar: RegistrarNo) -> bool
        ensures { result ≡ spec.is_holder registrar self.now }
    {
        self.sponsor == registrar || is_same(self.incoming, registrar)
    }
}

fn is_same(incoming: Option<RegistrarNo>, registrar: RegistrarNo) -> bool
    ensures { result ≡ option_map_or (λ q. q == registrar) incoming false }
{
    match incoming {
        None => false,
        Some(incoming) => incoming == registrar,
    }
}

/// Whether a registrar is among those who hold a domain.
pub(crate) fn is_in(registrar: RegistrarNo, parties: &Option<Holders>) -> bool
    ensures { result ≡ spec.is_some_holder registrar parties.now }
{
    match parties {
        None => false,
        Some(parties) => parties.is_among(registrar),
    }
}

/// Whether a registrar is among these, or is the one whose row has been written.
fn is_settled(
    written: &Option<RegistrarNo>,
    others: &Option<Holders>,
    registrar: RegistrarNo,
) -> bool
    ensures { result ≡ spec.is_settled written.now others.now registrar }
{
    is_in(registrar, others) || is_same(*written, registrar)
}

/// The sponsor among the first, where it isn't among the others, nor the one whose row has been written.
pub(crate) fn sponsor_without(
    written: &Option<RegistrarNo>,
    parties: &Option<Holders>,
    others: &Option<Holders>,
) -> Option<RegistrarNo>
    ensures { result ≡ spec.sponsor_without written.now parties.now others.now }
{
    let Some(parties) = parties else {
        return None;
    };
    if is_settled(written, others, parties.sponsor) {
        return None;
    }
    Some(parties.sponsor)
}

/// The one to whom a pending transfer brings the domain of the first, where it is another than the
/// sponsor, isn't among the others, and isn't the one whose row has been written.
pub(crate) fn incoming_without(
    written: &Option<RegistrarNo>,
    parties: &Option<Holders>,
    others: &Option<Holders>,
) -> Option<RegistrarNo>
    ensures { result ≡ spec.incoming_without written.now parties.now others.now }
{
    let Some(parties) = parties else {
        return None;
    };
    let incoming = parties.incoming?;
    if parties.sponsor == incoming || is_settled(written, others, incoming) {
        return None;
    }
    Some(incoming)
}
