//! What everyone may know of the objects of a registry, as it is found in records.
ghost use Rattle.std.specs.Prelude.{◌≡◌, IfOk, option_map};
ghost use Rattle.objects.specs.Contacts.{contact_face_of};
ghost use Rattle.books.specs.Faces as spec;
ghost use Rattle.states.specs.States.{Finds};
ghost use Rattle.rules.specs.ResponseData.{with_shown_link};

use crate::finding::{standing_now, superordinate};
use crate::records::Records;
use basis::registrar::RegistrarNo;
use basis::text::Text;
use names::Zone;
use objects::{Contact, ContactFace, Domain, DomainFace, Host, HostFace, with_linked};
use policy::Policy;
use states::BookFault;
use std::alloc::{AllocError, Global};

pub(crate) fn domain_face<R: Records>(
    records: &mut R,
    name: &Text,
    policy: &Policy,
) -> Result<Option<DomainFace>, BookFault>
    ensures { Finds result (spec.domain_face_at policy.now (R.kept records.old).content.registry
        name.now) (R.kept records.old) (R.kept records.new) }
{
    let domain = records.domain(name)?;
    face_of_found_domain(records, &domain, policy)
}

fn face_of_found_domain<R: Records>(
    records: &mut R,
    domain: &Option<Domain>,
    policy: &Policy,
) -> Result<Option<DomainFace>, BookFault>
    ensures { Finds result
        (option_map (spec.domain_face policy.now (R.kept records.old).content.registry) domain.now)
        (R.kept records.old) (R.kept records.new) }
{
    let Some(domain) = domain else {
        return Ok(None);
    };
    let standing = standing_now(records, policy, domain)?;
    Ok(Some(domain.face(records.alloc(), standing)?))
}

pub(crate) fn host_face<R: Records>(
    records: &mut R,
    name: &Text,
    policy: &Policy,
) -> Result<Option<HostFace>, BookFault>
    ensures { Finds result (spec.host_face_at policy.now (R.kept records.old).content.registry
        name.now) (R.kept records.old) (R.kept records.new) }
{
    let host = records.host(name)?;
    face_of_found_host(records, name, &host, policy)
}

fn face_of_found_host<R: Records>(
    records: &mut R,
    name: &Text,
    host: &Option<Host>,
    policy: &Policy,
) -> Result<Option<HostFace>, BookFault>
    ensures { Finds result
        (option_map (spec.host_face policy.now (R.kept records.old).content.registry name.now)
        host.now) (R.kept records.old) (R.kept records.new) }
{
    let Some(host) = host else {
        return Ok(None);
    };
    let linked = records.is_linked_host(name)?;
    Ok(Some(face_of_host(records, name, host, linked, policy)?))
}

/// The face of a host, given whether a domain names it.
fn face_of_host<R: Records>(
    records: &mut R,
    name: &Text,
    host: &Host,
    linked: bool,
    policy: &Policy,
) -> Result<HostFace, BookFault>
    ensures { Finds result (spec.host_face_shown policy.now (R.kept records.old).content.registry
        linked name.now host.now) (R.kept records.old) (R.kept records.new) }
{
    let sponsor = match sponsor_of_host(records, name, host, policy.zone())? {
        Some(sponsor) => sponsor,
        // A host without a superordinate domain would have no sponsor.
        None => RegistrarNo::of_place(0),
    };
    Ok(host.face(records.alloc(), sponsor, linked)?)
}

/// The sponsor of a host in the zone is its superordinate domain's; that of another is the registrar
/// that created it or last renamed it.
fn sponsor_of_host<R: Records>(
    records: &mut R,
    name: &Text,
    host: &Host,
    zone: &Zone,
) -> Result<Option<RegistrarNo>, BookFault>
    ensures { Finds result (spec.sponsor_of_host zone.now (R.kept records.old).content.registry
        name.now host.now) (R.kept records.old) (R.kept records.new) }
{
    if !zone.has_superordinate(name) {
        return Ok(host.external_sponsor);
    }
    match superordinate(records, name)? {
        None => Ok(None),
        Some(above) => Ok(Some(above.sponsor)),
    }
}

pub(crate) fn contact_face<R: Records>(
    records: &mut R,
    name: &Text,
) -> Result<Option<ContactFace>, BookFault>
    ensures { Finds result (spec.contact_face_at (R.kept records.old).content.registry name.now)
        (R.kept records.old) (R.kept records.new) }
{
    let contact = records.contact(name)?;
    face_of_found_contact(records, name, &contact)
}

fn face_of_found_contact<R: Records>(
    records: &mut R,
    name: &Text,
    contact: &Option<Contact>,
) -> Result<Option<ContactFace>, BookFault>
    ensures { Finds result (option_map (spec.contact_face (R.kept records.old).content.registry
        name.now) contact.now) (R.kept records.old) (R.kept records.new) }
{
    let Some(contact) = contact else {
        return Ok(None);
    };
    let linked = records.is_linked_contact(name)?;
    Ok(Some(face_of_contact(records.alloc(), linked, contact)?))
}

/// The face of a contact, given whether a domain names it.
fn face_of_contact(
    alloc: Global,
    linked: bool,
    contact: &Contact,
) -> Result<ContactFace, AllocError>
    ensures { IfOk result (λ face. face ≡ with_shown_link linked (contact_face_of contact.now)) }
{
    let mut face = contact.face(alloc)?;
    face.statuses = with_linked(alloc, linked, face.statuses.as_slice())?;
    Ok(face)
}
