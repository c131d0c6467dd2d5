//! What of that which is due concerns a registrar and some names, as it is found in records.
ghost use Rattle.std.specs.{Prelude.{◌≡◌, ◌||◌, None, option_map, IfOk}, List.filter};
ghost use Rattle.std.specs.FinMap as finmap;
ghost use Rattle.concerns.specs.Concerns as spec;
ghost use Rattle.concerns.specs.Names as names;
ghost use Rattle.objects.specs.Links.{has_name};
ghost use Rattle.protocol.specs.Requests.{holds_of};
ghost use Rattle.concerns.specs.DueFor as dues;
ghost use Rattle.states.specs.States.{Finds};

use crate::records::Records;
use basis::list::Seq;
use basis::registrar::RegistrarNo;
use basis::text::Text;
use calendar::Moment;
use concerns::{Meant, Names, is_about};
use lifecycle::Due;
use objects::{Contact, Domain, ObjectKind, Roid, has_name};
use policy::Policy;
use protocol::Command;
use states::BookFault;
use std::alloc::{AllocError, Global};

/// What concerns a command, of its caller or of nobody.
pub(crate) fn due_for<R: Records>(
    records: &mut R,
    caller: Option<RegistrarNo>,
    command: &Command,
    moment: Moment,
    policy: &Policy,
) -> Result<Seq<Due>, BookFault>
    ensures { Finds result (dues.due_for policy.now caller (names.named_by command.now) moment
        (R.kept records.old).content.registry) (R.kept records.old) (R.kept records.new) }
{
    let names = Names::of_command(records.alloc(), command)?;
    due_that_concerns(records, &caller, &names, moment, policy)
}

/// What concerns an info of an object, whoever asks.
pub(crate) fn due_at<R: Records>(
    records: &mut R,
    kind: ObjectKind,
    name: &Text,
    moment: Moment,
    policy: &Policy,
) -> Result<Seq<Due>, BookFault>
    ensures { Finds result (dues.due_for policy.now None (names.named_of kind name.now) moment
        (R.kept records.old).content.registry) (R.kept records.old) (R.kept records.new) }
{
    let names = Names::of_object(records.alloc(), kind, name)?;
    due_that_concerns(records, &None, &names, moment, policy)
}

fn due_that_concerns<R: Records>(
    records: &mut R,
    caller: &Option<RegistrarNo>,
    names: &Names,
    moment: Moment,
    policy: &Policy,
) -> Result<Seq<Due>, BookFault>
    ensures { Finds result (dues.due_for policy.now caller.now names.now moment
        (R.kept records.old).content.registry) (R.kept records.old) (R.kept records.new) }
{
    let due = records.due_near(*caller, names, moment, policy)?;
    picked(records, caller, names, due)
}

/// Those that concern the caller and the names.
fn picked<R: Records>(
    records: &mut R,
    caller: &Option<RegistrarNo>,
    names: &Names,
    due: Seq<Due>,
) -> Result<Seq<Due>, BookFault>
    ensures { Finds result
        (filter
        (dues.is_picked (spec.concerned caller.now names.now (R.kept records.old).content.registry))
        due) (R.kept records.old) (R.kept records.new) }
{
    if due.is_empty() {
        return Ok(due);
    }
    let meant = meant_by(records, names)?;
    picked_by(records, caller, names, &meant, due)
}

/// The same, given what the names mean.
fn picked_by<R: Records>(
    records: &mut R,
    caller: &Option<RegistrarNo>,
    names: &Names,
    meant: &Meant,
    due: Seq<Due>,
) -> Result<Seq<Due>, BookFault>
    ensures { Finds result
        (filter (dues.picks_by caller.now names.now meant.now (R.kept records.old).content.registry)
        due) (R.kept records.old) (R.kept records.new) }
{
    let mut picked = Seq::new(records.alloc());
    for it in due.into_vec() {
        if is_picked(records, caller, names, meant, &it)? {
            picked.push(it)?;
        }
    }
    Ok(picked)
}

fn is_picked<R: Records>(
    records: &mut R,
    caller: &Option<RegistrarNo>,
    names: &Names,
    meant: &Meant,
    due: &Due,
) -> Result<bool, BookFault>
    ensures { Finds result (dues.picks_by caller.now names.now meant.now
        (R.kept records.old).content.registry due.now) (R.kept records.old) (R.kept records.new) }
{
    match due.kind {
        ObjectKind::Contact => is_contact_picked(records, caller, meant, &due.name),
        ObjectKind::Domain => is_domain_picked(records, caller, names, meant, &due.name),
        ObjectKind::Host => Ok(false),
    }
}

fn is_contact_picked<R: Records>(
    records: &mut R,
    caller: &Option<RegistrarNo>,
    meant: &Meant,
    name: &Text,
) -> Result<bool, BookFault>
    ensures { Finds result (has_name meant.now.contacts name.now
        || holds_of (λ (x : Contact). spec.is_about caller.now x.sponsor x.transfer)
        (finmap.get (R.kept records.old).content.registry.contacts name.now)) (R.kept records.old)
        (R.kept records.new) }
{
    if has_name(meant.contacts.as_slice(), name) {
        return Ok(true);
    }
    let contact = records.contact(name)?;
    Ok(is_contact_about(caller, &contact))
}

fn is_contact_about(caller: &Option<RegistrarNo>, contact: &Option<Contact>) -> bool
    ensures { result ≡ holds_of (λ (x : Contact). spec.is_about caller.now x.sponsor x.transfer)
        contact.now }
{
    match contact {
        None => false,
        Some(contact) => is_about(*caller, contact.sponsor, &contact.transfer),
    }
}

fn is_domain_picked<R: Records>(
    records: &mut R,
    caller: &Option<RegistrarNo>,
    names: &Names,
    meant: &Meant,
    name: &Text,
) -> Result<bool, BookFault>
    ensures { Finds result (has_name meant.now.domains name.now
        || holds_of (spec.concerns_domain caller.now names.now meant.now.roids)
        (finmap.get (R.kept records.old).content.registry.domains name.now)) (R.kept records.old)
        (R.kept records.new) }
{
    if has_name(meant.domains.as_slice(), name) {
        return Ok(true);
    }
    let domain = records.domain(name)?;
    Ok(is_domain_concerned(caller, names, meant, &domain))
}

fn is_domain_concerned(
    caller: &Option<RegistrarNo>,
    names: &Names,
    meant: &Meant,
    domain: &Option<Domain>,
) -> bool
    ensures { result ≡ holds_of (spec.concerns_domain caller.now names.now meant.now.roids)
        domain.now }
{
    match domain {
        None => false,
        Some(domain) => names.concern_domain(*caller, meant.roids.as_slice(), domain),
    }
}

// ---- what is meant by names

fn meant_by<R: Records>(records: &mut R, names: &Names) -> Result<Meant, BookFault>
    ensures { Finds result (spec.meant_at names.now (R.kept records.old).content.registry)
        (R.kept records.old) (R.kept records.new) }
{
    let contacts = contacts_meant(records, names.contacts.as_slice())?;
    let (domains, roids) = domains_meant(records, names.domains.as_slice())?;
    Ok(Meant {
        contacts,
        domains,
        roids,
    })
}

fn contacts_meant<R: Records>(records: &mut R, names: &[Text]) -> Result<Seq<Text>, BookFault>
    ensures { Finds result
        (spec.meant spec.contact_name (R.kept records.old).content.registry.contacts names.now)
        (R.kept records.old) (R.kept records.new) }
{
    let mut meant = copies(records.alloc(), names)?;
    for name in names {
        if let Some(found) = name_of_contact(records, name)? {
            meant.push(found)?;
        }
    }
    Ok(meant)
}

/// The name of the contact that is under a name.
fn name_of_contact<R: Records>(records: &mut R, name: &Text) -> Result<Option<Text>, BookFault>
    ensures { Finds result
        (option_map spec.contact_name (finmap.get (R.kept records.old).content.registry.contacts
        name.now)) (R.kept records.old) (R.kept records.new) }
{
    match records.contact(name)? {
        None => Ok(None),
        Some(contact) => Ok(Some(contact.name)),
    }
}

/// The names that are meant, and the identifiers of the domains under the names.
fn domains_meant<R: Records>(
    records: &mut R,
    names: &[Text],
) -> Result<(Seq<Text>, Seq<Roid>), BookFault>
    ensures { Finds result (
      spec.meant spec.domain_name (R.kept records.old).content.registry.domains names.now,
      spec.read_at spec.domain_roid (R.kept records.old).content.registry.domains names.now,
    )
        (R.kept records.old) (R.kept records.new) }
{
    let mut meant = copies(records.alloc(), names)?;
    let mut roids = Seq::new(records.alloc());
    for name in names {
        if let Some(domain) = records.domain(name)? {
            roids.push(domain.roid)?;
            meant.push(domain.name)?;
        }
    }
    Ok((meant, roids))
}

fn copies(alloc: Global, names: &[Text]) -> Result<Seq<Text>, AllocError>
    ensures { IfOk result (λ copies. copies ≡ names.now) }
{
    let mut copies = Seq::new(alloc);
    for name in names {
        copies.push(name.clone()?)?;
    }
    Ok(copies)
}
