//! The data of an accepted command.
ghost use Rattle.std.specs.{Prelude.{◌≡◌, IfOk, map, option_map, unwrap_or}, Option.option_copied};
ghost use Rattle.rules.specs.ResponseData as spec;
ghost use Rattle.rules.specs.inner.KnownData.{
  contact_data,
  data_in,
  domain_data,
  host_data,
  name_result,
  renewed_data,
};

use crate::amended::{domain_is_refused, host_is_refused};
use crate::case::{Case, full_domain};
use crate::charge::{charge_of, years_charged};
use crate::deletion::deleted_data;
use crate::poll::{left, polled_data};
use crate::renewal::renewed_expiry;
use crate::transfer::{charge_shown, seen_after, transferred_data};
use basis::list::Seq;
use basis::registrar::RegistrarNo;
use basis::text::{Text, copied};
use calendar::Moment;
use facts::{ContactFacts, DomainFacts, Facts, HostFacts};
use names::{RequestedName, Zone};
use objects::{Contact, ContactFace, DomainFace, FullDomain, Seen, Transfer, with_linked};
use policy::Policy;
use protocol::{
    CheckResult, ContactHidden, ContactInfo, Created, Data, DomainHidden, DomainInfo, HostInfo,
    NewDomain, Reason, Renewed, Request, TransferInfo,
};
use std::alloc::{AllocError, Global};

/// The data of an accepted command.
pub(crate) fn response_data(alloc: Global, case: &Case<'_>) -> Result<Option<Data>, AllocError>
    ensures { IfOk result (λ content. content ≡ data_in case.now) }
{
    let (facts, request, moment, policy) = (case.facts, case.request, case.moment, case.policy);
    match request {
        Request::Logout => Ok(None),
        Request::Balance => Ok(Some(Data::Balance(facts.account.balance))),
        Request::CheckContact { names } => {
            let results = check_contacts(alloc, facts, names.as_slice())?;
            Ok(Some(Data::Checked(Seq::from_vec(results))))
        }
        Request::CheckDomain { names } => {
            let (named, names) = (Named::OfDomain, names.as_slice());
            let results = check_names(alloc, named, policy.zone(), facts, names)?;
            Ok(Some(Data::Checked(Seq::from_vec(results))))
        }
        Request::CheckHost { names } => {
            let (named, names) = (Named::OfHost, names.as_slice());
            let results = check_names(alloc, named, policy.zone(), facts, names)?;
            Ok(Some(Data::Checked(Seq::from_vec(results))))
        }
        Request::InfoContact { name, secret } => {
            contact_data(alloc, case, secret.as_ref(), facts.contact(name))
        }
        Request::InfoDomain { name, secret } => {
            domain_data(alloc, case, secret.as_ref(), facts.domain(name.text()))
        }
        Request::InfoHost { name } => host_data(alloc, policy, facts.host(name.text())),
        Request::CreateContact(new) => Ok(Some(Data::Created(created_plain(&new.name, moment)?))),
        Request::CreateDomain(new) => {
            let charge = charge_of(policy, request, facts, moment);
            Ok(Some(Data::Created(created_domain(charge, new, moment)?)))
        }
        Request::CreateHost(new) => {
            Ok(Some(Data::Created(created_plain(new.name.text(), moment)?)))
        }
        Request::DeleteDomain { name } => deleted_data(facts.domain(name.text())),
        Request::RenewDomain { name, years, .. } => {
            let charge = charge_of(policy, request, facts, moment);
            renewed_data(charge, name, years.number(), facts.domain_seen(name.text()))
        }
        Request::ReportRestore { name, .. } => {
            let charge = charge_of(policy, request, facts, moment);
            let years = years_charged(request, facts, moment);
            renewed_data(charge, name, years, facts.domain_seen(name.text()))
        }
        Request::TransferContact { name, op, .. } => {
            let after = seen_after(*op, case.caller, facts.contact_seen(name), moment, policy);
            transferred_data(alloc, policy, name, None, after)
        }
        Request::TransferDomain { name, op, .. } => {
            let charge = charge_shown(*op, charge_of(policy, request, facts, moment));
            let seen = facts.domain_seen(name.text());
            let after = seen_after(*op, case.caller, seen, moment, policy);
            transferred_data(alloc, policy, name.text(), charge, after)
        }
        Request::PollRequest => polled_data(&facts.queue),
        Request::PollAck { .. } => Ok(Some(Data::Acked(left(&facts.queue)))),
        _ => Ok(None),
    }
}

// ---- check

fn in_use(taken: bool) -> Option<Reason>
    ensures { result ≡ spec.in_use taken }
{
    if taken { Some(Reason::InUse) } else { None }
}

/// Why a name can't be created, given whether the zone refuses it, and whether it is taken.
fn reason_against(refused: bool, taken: bool) -> Option<Reason>
    ensures { result ≡ spec.reason_of refused taken }
{
    if refused {
        Some(Reason::Policy)
    } else {
        in_use(taken)
    }
}

fn check_contacts(
    alloc: Global,
    facts: &Facts,
    names: &[Text],
) -> Result<Vec<CheckResult>, AllocError>
    ensures { IfOk result (λ it. it.items ≡ map (spec.contact_result facts.now) names.now) }
{
    let mut results = Vec::new(alloc);
    for name in names {
        results.push(CheckResult {
            name: name.clone()?,
            reason: in_use(facts.contact_seen(name).is_some()),
        })?;
    }
    Ok(results)
}

/// What a name that is checked is to name.
#[derive(Clone, Copy, Drop)]
enum Named {
    OfDomain,
    OfHost,
}

fn name_result(
    named: Named,
    zone: &Zone,
    facts: &Facts,
    name: &RequestedName,
) -> Result<CheckResult, AllocError>
    ensures { IfOk result (λ it. it ≡ name_result named zone.now facts.now name.now) }
{
    let text = name.text();
    let (refused, taken) = match named {
        Named::OfDomain => (
            domain_is_refused(zone, name),
            facts.domain_seen(text).is_some(),
        ),
        Named::OfHost => (host_is_refused(zone, name), facts.host_seen(text).is_some()),
    };
    Ok(CheckResult {
        name: text.clone()?,
        reason: reason_against(refused, taken),
    })
}

fn check_names(
    alloc: Global,
    named: Named,
    zone: &Zone,
    facts: &Facts,
    names: &[RequestedName],
) -> Result<Vec<CheckResult>, AllocError>
    ensures { IfOk result (λ it. it.items ≡ map (name_result named zone.now facts.now) names.now) }
{
    let mut results = Vec::new(alloc);
    for name in names {
        results.push(name_result(named, zone, facts, name)?)?;
    }
    Ok(results)
}

// ---- create

fn created_plain(name: &Text, moment: Moment) -> Result<Created, AllocError>
    ensures { IfOk result (λ created. created ≡ spec.created_plain moment name.now) }
{
    Ok(Created {
        name: name.clone()?,
        created: moment,
        expires: None,
        charge: None,
    })
}

fn created_domain(charge: u64, new: &NewDomain, moment: Moment) -> Result<Created, AllocError>
    ensures { IfOk result (λ created. created ≡ spec.created_domain charge moment new.now) }
{
    Ok(Created {
        name: new.name.text().clone()?,
        created: moment,
        expires: Some(moment.plus_years_capped(new.years.number())),
        charge: Some(charge),
    })
}

// ---- renew, and the report on a restoration

fn renewed_data(
    charge: u64,
    name: &RequestedName,
    years: u32,
    seen: Option<&Seen<FullDomain, DomainFace>>,
) -> Result<Option<Data>, AllocError>
    ensures { IfOk result (λ it. it ≡ renewed_data charge name.now years seen.entry) }
{
    let Some(domain) = full_domain(seen) else {
        return Ok(None);
    };
    Ok(Some(Data::Renewed(Renewed {
        name: name.text().clone()?,
        expires: renewed_expiry(domain, years),
        charge,
    })))
}

// ---- info of contacts

fn contact_data(
    alloc: Global,
    case: &Case<'_>,
    secret: Option<&Text>,
    known: Option<&ContactFacts>,
) -> Result<Option<Data>, AllocError>
    ensures { IfOk result (λ it. it ≡ contact_data case.now.policy.now case.now.caller secret.entry
        known.entry) }
{
    let Some(known) = known else {
        return Ok(None);
    };
    let Some(seen) = &known.seen else {
        return Ok(None);
    };
    let info = contact_info(alloc, case.policy, case.caller, secret, known.linked, seen)?;
    Ok(Some(Data::Contact(info)))
}

fn contact_info(
    alloc: Global,
    policy: &Policy,
    caller: RegistrarNo,
    secret: Option<&Text>,
    linked: bool,
    seen: &Seen<Contact, ContactFace>,
) -> Result<ContactInfo, AllocError>
    ensures { IfOk result (λ info. info ≡ spec.contact_info policy.now caller
        (option_copied secret.entry) linked seen.now) }
{
    match seen {
        Seen::Full(contact) if contact.is_sponsored_by(caller) => {
            let own = contact.secret.clone()?;
            contact_full_info(alloc, policy, linked, Some(own), contact)
        }
        Seen::Full(contact) if contact.is_authorized_by(secret) => {
            contact_full_info(alloc, policy, linked, None, contact)
        }
        Seen::Full(contact) => contact_face_info(alloc, policy, linked, contact.face(alloc)?),
        Seen::TransferParty(face, _) => contact_face_info(alloc, policy, linked, face.clone()?),
        Seen::Public(face) => contact_face_info(alloc, policy, linked, face.clone()?),
    }
}

fn with_shown_link(
    alloc: Global,
    linked: bool,
    face: ContactFace,
) -> Result<ContactFace, AllocError>
    ensures { IfOk result (λ shown. shown ≡ spec.with_shown_link linked face) }
{
    let statuses = with_linked(alloc, linked, face.statuses.as_slice())?;
    Ok(ContactFace { statuses, ..face })
}

fn contact_face_info(
    alloc: Global,
    policy: &Policy,
    linked: bool,
    face: ContactFace,
) -> Result<ContactInfo, AllocError>
    ensures { IfOk result (λ info. info ≡ spec.contact_face_info policy.now linked face) }
{
    let sponsor = id_of(alloc, policy, face.sponsor)?;
    Ok(ContactInfo {
        face: with_shown_link(alloc, linked, face)?,
        sponsor,
        hidden: None,
    })
}

fn contact_full_info(
    alloc: Global,
    policy: &Policy,
    linked: bool,
    secret: Option<Text>,
    contact: &Contact,
) -> Result<ContactInfo, AllocError>
    ensures { IfOk result (λ info. info ≡ spec.contact_full_info policy.now linked secret
        contact.now) }
{
    let sponsor = id_of(alloc, policy, contact.sponsor)?;
    let face = with_shown_link(alloc, linked, contact.face(alloc)?)?;
    Ok(ContactInfo {
        face,
        sponsor,
        hidden: Some(contact_hidden(alloc, policy, secret, contact)?),
    })
}

fn contact_hidden(
    alloc: Global,
    policy: &Policy,
    secret: Option<Text>,
    contact: &Contact,
) -> Result<ContactHidden, AllocError>
    ensures { IfOk result (λ it. it ≡ spec.contact_hidden policy.now secret contact.now) }
{
    let mail = contact.mail.clone()?;
    let voice = copied(&contact.voice)?;
    let transfer = transfer_info(alloc, policy, contact.transfer)?;
    Ok(ContactHidden {
        secret,
        postal: contact.postal.copy()?,
        voice,
        mail,
        transfer,
    })
}

// ---- info of domains

fn domain_data(
    alloc: Global,
    case: &Case<'_>,
    secret: Option<&Text>,
    known: Option<&DomainFacts>,
) -> Result<Option<Data>, AllocError>
    ensures { IfOk result (λ it. it ≡ domain_data case.now.policy.now case.now.caller secret.entry
        known.entry) }
{
    let Some(known) = known else {
        return Ok(None);
    };
    let Some(seen) = &known.seen else {
        return Ok(None);
    };
    let below = &known.subordinate;
    let info = domain_info(alloc, case.policy, case.caller, secret, below, seen)?;
    Ok(Some(Data::Domain(info)))
}

fn domain_info(
    alloc: Global,
    policy: &Policy,
    caller: RegistrarNo,
    secret: Option<&Text>,
    subordinate: &Seq<Text>,
    seen: &Seen<FullDomain, DomainFace>,
) -> Result<DomainInfo, AllocError>
    ensures { IfOk result (λ info. info ≡ spec.domain_info policy.now caller
        (option_copied secret.entry) subordinate.now seen.now) }
{
    match seen {
        Seen::Full(known) if known.domain.is_sponsored_by(caller) => {
            let own = known.domain.secret.clone()?;
            domain_full_info(alloc, policy, subordinate, Some(own), known)
        }
        Seen::Full(known) if known.domain.is_authorized_by(secret) => {
            domain_full_info(alloc, policy, subordinate, None, known)
        }
        Seen::Full(known) => domain_face_info(alloc, policy, subordinate, known.face(alloc)?),
        Seen::TransferParty(face, _) => domain_face_info(alloc, policy, subordinate, face.clone()?),
        Seen::Public(face) => domain_face_info(alloc, policy, subordinate, face.clone()?),
    }
}

fn domain_face_info(
    alloc: Global,
    policy: &Policy,
    subordinate: &Seq<Text>,
    face: DomainFace,
) -> Result<DomainInfo, AllocError>
    ensures { IfOk result (λ it. it ≡ spec.domain_face_info policy.now subordinate.now face) }
{
    let sponsor = id_of(alloc, policy, face.sponsor)?;
    Ok(DomainInfo {
        face,
        sponsor,
        subordinate: subordinate.clone()?,
        hidden: None,
    })
}

fn domain_full_info(
    alloc: Global,
    policy: &Policy,
    subordinate: &Seq<Text>,
    secret: Option<Text>,
    known: &FullDomain,
) -> Result<DomainInfo, AllocError>
    ensures { IfOk result (λ info. info ≡ spec.domain_full_info policy.now subordinate.now secret
        known.now) }
{
    let sponsor = id_of(alloc, policy, known.domain.sponsor)?;
    let transfer = transfer_info(alloc, policy, known.domain.transfer)?;
    let subordinate = subordinate.clone()?;
    let deletion = known.domain.deletion;
    Ok(DomainInfo {
        face: known.face(alloc)?,
        sponsor,
        subordinate,
        hidden: Some(DomainHidden {
            secret,
            transfer,
            deletion,
        }),
    })
}

fn transfer_info(
    alloc: Global,
    policy: &Policy,
    transfer: Option<Transfer>,
) -> Result<Option<TransferInfo>, AllocError>
    ensures { IfOk result (λ info. info ≡ option_map (spec.transfer_info policy.now) transfer) }
{
    match transfer {
        None => Ok(None),
        Some(transfer) => Ok(Some(transfer_info_of(alloc, policy, transfer)?)),
    }
}

pub(crate) fn transfer_info_of(
    alloc: Global,
    policy: &Policy,
    transfer: Transfer,
) -> Result<TransferInfo, AllocError>
    ensures { IfOk result (λ info. info ≡ spec.transfer_info policy.now transfer) }
{
    Ok(TransferInfo {
        transfer,
        requester: id_of(alloc, policy, transfer.requester)?,
        losing_registrar: id_of(alloc, policy, transfer.losing_registrar)?,
    })
}

// ---- info of hosts

fn host_data(
    alloc: Global,
    policy: &Policy,
    known: Option<&HostFacts>,
) -> Result<Option<Data>, AllocError>
    ensures { IfOk result (λ it. it ≡ host_data policy.now known.entry) }
{
    let Some(known) = known else {
        return Ok(None);
    };
    let Some(host) = &known.host else {
        return Ok(None);
    };
    let sponsor = sponsor_or_none(known.sponsor(policy.zone(), host));
    Ok(Some(Data::Host(HostInfo {
        face: host.face(alloc, sponsor, known.linked)?,
        sponsor: id_of(alloc, policy, sponsor)?,
    })))
}

/// A host without a superordinate domain would have no sponsor.
fn sponsor_or_none(sponsor: Option<RegistrarNo>) -> RegistrarNo
    ensures { result ≡ unwrap_or sponsor 0 }
{
    match sponsor {
        Some(sponsor) => sponsor,
        None => RegistrarNo::of_place(0),
    }
}

/// The id of a registrar of the policy.
pub fn id_of(alloc: Global, policy: &Policy, registrar: RegistrarNo) -> Result<Text, AllocError>
    ensures { IfOk result (λ id. id ≡ spec.id_of policy.now registrar) }
{
    match policy.id_of(registrar) {
        Some(id) => id.clone(),
        None => Ok(Text::from_string(String::new(alloc))),
    }
}
