//! A reply as a payload.
ghost use Rattle.std.specs.Prelude.{◌≡◌, IfOk, decimal, option_and_then, option_map};
ghost use Rattle.std.specs.Option.{option_copied};
ghost use Rattle.objects.specs.Roid.{roid_text};
ghost use Rattle.serde_json.specs.{Data.string, View.view};
ghost use Rattle.jsonobjects.specs.Item.{item_value};
ghost use Rattle.eppreplies.specs.Reply as spec;

use calendar::Moment;
use jsonobjects::{Item, object, states};
use objects::{Deletion, Postal, Roid, TransferState};
use protocol::{
    CheckResult, ContactInfo, Created, Data, Deleted, DomainInfo, HostInfo, Polled, Reason,
    Renewed, Reply, SvTrid, TransferInfo, Transferred, object_text,
};
use serde_json::Value;
use std::alloc::{AllocError, Global};

/// The text of a reply: one object in compact JSON, its members in the order of their names.
pub fn reply_bytes(alloc: Global, reply: &Reply) -> Result<Vec<u8>, AllocError>
    ensures { IfOk result (λ bytes. bytes.items ≡ spec.reply_text reply.now) }
{
    reply_value(alloc, reply)?.to_vec(alloc)
}

fn reply_value(alloc: Global, reply: &Reply) -> Result<Value, AllocError>
    ensures { IfOk result (λ v. view v ≡ spec.reply_value reply.now) }
{
    let content = match &reply.content {
        Some(content) => Item::Given(data_value(alloc, content)?),
        None => Item::Absent,
    };
    let code = Value::from(reply.code.number());
    let sv_trid = sv_trid_value(alloc, &reply.sv_trid)?;
    let members = vec![in alloc;
        ("clTRID", Item::MaybeText(&reply.cl_trid)),
        ("code", Item::Given(code)),
        ("data", content),
        ("msg", Item::Word(reply.code.message())),
        ("svTRID", Item::Given(sv_trid)),
    ]?;
    object(alloc, members)
}

fn sv_trid_value(alloc: Global, sv_trid: &SvTrid) -> Result<Value, AllocError>
    ensures { IfOk result (λ v. view v ≡ string (spec.sv_trid_text sv_trid.now)) }
{
    let (id, number) = (sv_trid.id.as_str(), sv_trid.number);
    Ok(Value::String(format!(in alloc; "{id}-{number}")?))
}

fn data_value(alloc: Global, content: &Data) -> Result<Value, AllocError>
    ensures { IfOk result (λ v. view v ≡ spec.data_value content.now) }
{
    match content {
        Data::Checked(results) => {
            let results = checks_value(alloc, results.as_slice())?;
            object(alloc, vec![in alloc; ("results", Item::Given(results))]?)
        }
        Data::Created(created) => created_value(alloc, created),
        Data::Balance(cents) => balance_value(alloc, *cents),
        Data::Renewed(renewed) => renewed_value(alloc, renewed),
        Data::Deleted(deleted) => deleted_value(alloc, deleted),
        Data::Transferred(transferred) => transferred_value(alloc, transferred),
        Data::Polled(polled) => polled_value(alloc, polled),
        Data::Acked(count) => acked_value(alloc, *count),
        Data::Contact(info) => contact_value(alloc, info),
        Data::Domain(info) => domain_value(alloc, info),
        Data::Host(info) => host_value(alloc, info),
    }
}

fn checks_value(alloc: Global, results: &[CheckResult]) -> Result<Value, AllocError>
    ensures { IfOk result (λ v. view v ≡ spec.checks_value results.now) }
{
    let mut list = Vec::new(alloc);
    for result in results {
        list.push(checked_value(alloc, result)?)?;
    }
    Ok(Value::Array(list))
}

fn checked_value(alloc: Global, checked: &CheckResult) -> Result<Value, AllocError>
    ensures { IfOk result (λ v. view v ≡ spec.checked_value checked.now) }
{
    let available = Value::from(checked.reason.is_none());
    let reason = match checked.reason {
        Some(reason) => Item::Word(reason_text(reason)),
        None => Item::Absent,
    };
    let members = vec![in alloc;
        ("avail", Item::Given(available)),
        ("name", Item::Text(&checked.name)),
        ("reason", reason),
    ]?;
    object(alloc, members)
}

fn reason_text(reason: Reason) -> &'static str
    ensures { result.now ≡ spec.reason_text reason }
{
    match reason {
        Reason::Policy => "policy",
        Reason::InUse => "in use",
    }
}

fn created_value(alloc: Global, created: &Created) -> Result<Value, AllocError>
    ensures { IfOk result (λ v. view v ≡ spec.created_value created.now) }
{
    let charge = charge_item(alloc, created.charge)?;
    let members = vec![in alloc;
        ("charge", charge),
        ("crDate", Item::Time(created.created)),
        ("exDate", Item::MaybeTime(created.expires)),
        ("name", Item::Text(&created.name)),
    ]?;
    object(alloc, members)
}

fn balance_value(alloc: Global, cents: i128) -> Result<Value, AllocError>
    ensures { IfOk result (λ v. view v ≡ spec.balance_value cents) }
{
    let balance = signed_cents_value(alloc, cents)?;
    object(alloc, vec![in alloc; ("balance", Item::Given(balance))]?)
}

fn renewed_value(alloc: Global, renewed: &Renewed) -> Result<Value, AllocError>
    ensures { IfOk result (λ v. view v ≡ spec.renewed_value renewed.now) }
{
    let charge = cents_value(alloc, u128::from(renewed.charge))?;
    let members = vec![in alloc;
        ("charge", Item::Given(charge)),
        ("exDate", Item::Time(renewed.expires)),
        ("name", Item::Text(&renewed.name)),
    ]?;
    object(alloc, members)
}

fn deleted_value(alloc: Global, deleted: &Deleted) -> Result<Value, AllocError>
    ensures { IfOk result (λ v. view v ≡ spec.deleted_value deleted.now) }
{
    let refund = cents_value(alloc, deleted.refund)?;
    let members = vec![in alloc;
        ("name", Item::Text(&deleted.name)),
        ("refund", Item::Given(refund)),
    ]?;
    object(alloc, members)
}

/// What was charged, where something was.
fn charge_item(alloc: Global, charge: Option<u64>) -> Result<Item<'static>, AllocError>
    ensures { IfOk result (λ item. item_value item ≡ option_map (λ cents. string (decimal cents))
        charge) }
{
    Ok(match charge {
        Some(cents) => Item::Given(cents_value(alloc, u128::from(cents))?),
        None => Item::Absent,
    })
}

/// Money is shown as a text of whole cents.
fn cents_value(alloc: Global, cents: u128) -> Result<Value, AllocError>
    ensures { IfOk result (λ v. view v ≡ string (decimal cents)) }
{
    Ok(Value::String(format!(in alloc; "{cents}")?))
}

/// The same of money that may be owed.
fn signed_cents_value(alloc: Global, cents: i128) -> Result<Value, AllocError>
    ensures { IfOk result (λ v. view v ≡ spec.cents_value cents) }
{
    Ok(Value::String(format!(in alloc; "{cents}")?))
}

fn roid_value(alloc: Global, roid: Roid) -> Result<Value, AllocError>
    ensures { IfOk result (λ v. view v ≡ string (roid_text roid)) }
{
    Value::try_from_str(alloc, roid.text(alloc)?.as_str())
}

fn postal_value(alloc: Global, postal: &Postal) -> Result<Value, AllocError>
    ensures { IfOk result (λ v. view v ≡ spec.postal_value postal.now) }
{
    let members = vec![in alloc;
        ("cc", Item::Text(&postal.cc)),
        ("city", Item::Text(&postal.city)),
        ("name", Item::Text(&postal.name)),
        ("org", Item::MaybeText(&postal.org)),
        ("pc", Item::MaybeText(&postal.pc)),
        ("sp", Item::MaybeText(&postal.sp)),
        ("street", Item::Texts(&postal.street)),
    ]?;
    object(alloc, members)
}

fn contact_value(alloc: Global, info: &ContactInfo) -> Result<Value, AllocError>
    ensures { IfOk result (λ v. view v ≡ spec.contact_value info.now) }
{
    let face = &info.face;
    let roid = roid_value(alloc, face.roid)?;
    let postal = match &info.hidden {
        Some(hidden) => Item::Given(postal_value(alloc, &hidden.postal)?),
        None => Item::Absent,
    };
    let transfer = transfer_item(alloc, contact_transfer_of(info))?;
    let members = vec![in alloc;
        ("clID", Item::Text(&info.sponsor)),
        ("crDate", Item::Time(face.created)),
        ("mail", mail_of(info)),
        ("name", Item::Text(&face.name)),
        ("postal", postal),
        ("roid", Item::Given(roid)),
        ("secret", contact_secret_of(info)),
        ("status", Item::Statuses(&face.statuses)),
        ("trDate", Item::MaybeTime(face.transferred)),
        ("transfer", transfer),
        ("upDate", Item::MaybeTime(face.updated)),
        ("voice", voice_of(info)),
    ]?;
    object(alloc, members)
}

fn mail_of(info: &ContactInfo) -> Item<'_>
    ensures { item_value result ≡ option_map (λ h. string h.mail) info.now.hidden }
{
    match &info.hidden {
        Some(hidden) => Item::Text(&hidden.mail),
        None => Item::Absent,
    }
}

fn contact_secret_of(info: &ContactInfo) -> Item<'_>
    ensures { item_value result
        ≡ option_map string (option_and_then (λ h. h.secret) info.now.hidden) }
{
    match &info.hidden {
        Some(hidden) => Item::MaybeText(&hidden.secret),
        None => Item::Absent,
    }
}

fn voice_of(info: &ContactInfo) -> Item<'_>
    ensures { item_value result
        ≡ option_map string (option_and_then (λ h. h.voice) info.now.hidden) }
{
    match &info.hidden {
        Some(hidden) => Item::MaybeText(&hidden.voice),
        None => Item::Absent,
    }
}

fn contact_transfer_of(info: &ContactInfo) -> Option<&TransferInfo>
    ensures { option_copied result ≡ spec.contact_transfer_of info.now }
{
    match &info.hidden {
        Some(hidden) => hidden.transfer.as_ref(),
        None => None,
    }
}

fn host_value(alloc: Global, info: &HostInfo) -> Result<Value, AllocError>
    ensures { IfOk result (λ v. view v ≡ spec.host_value info.now) }
{
    let face = &info.face;
    let roid = roid_value(alloc, face.roid)?;
    let members = vec![in alloc;
        ("addrs", Item::Texts(&face.addresses)),
        ("clID", Item::Text(&info.sponsor)),
        ("crDate", Item::Time(face.created)),
        ("name", Item::Text(&face.name)),
        ("roid", Item::Given(roid)),
        ("status", Item::Statuses(&face.statuses)),
        ("upDate", Item::MaybeTime(face.updated)),
    ]?;
    object(alloc, members)
}

fn domain_value(alloc: Global, info: &DomainInfo) -> Result<Value, AllocError>
    ensures { IfOk result (λ v. view v ≡ spec.domain_value info.now) }
{
    let face = &info.face;
    let links = &face.links;
    let rgp = states(alloc, face.standing)?;
    let roid = roid_value(alloc, face.roid)?;
    let transfer = transfer_item(alloc, transfer_of(info))?;
    let members = vec![in alloc;
        ("admin", Item::Texts(&links.admin)),
        ("clID", Item::Text(&info.sponsor)),
        ("crDate", Item::Time(face.created)),
        ("delDate", Item::MaybeTime(deleted_of(info))),
        ("exDate", Item::Time(face.expires)),
        ("hosts", Item::Texts(&links.hosts)),
        ("name", Item::Text(&face.name)),
        ("registrant", Item::Text(&links.registrant)),
        ("resDate", Item::MaybeTime(restore_requested_of(info))),
        ("rgp", Item::Given(rgp)),
        ("roid", Item::Given(roid)),
        ("secret", secret_of(info)),
        ("status", Item::Statuses(&face.statuses)),
        ("subordinate", Item::Texts(&info.subordinate)),
        ("tech", Item::Texts(&links.tech)),
        ("trDate", Item::MaybeTime(face.transferred)),
        ("transfer", transfer),
        ("upDate", Item::MaybeTime(face.updated)),
    ]?;
    object(alloc, members)
}

fn secret_of(info: &DomainInfo) -> Item<'_>
    ensures { item_value result ≡ option_map string (spec.secret_of info.now) }
{
    match &info.hidden {
        Some(hidden) => Item::MaybeText(&hidden.secret),
        None => Item::Absent,
    }
}

fn transfer_of(info: &DomainInfo) -> Option<&TransferInfo>
    ensures { option_copied result ≡ spec.transfer_of info.now }
{
    match &info.hidden {
        Some(hidden) => hidden.transfer.as_ref(),
        None => None,
    }
}

fn deletion_of(info: &DomainInfo) -> Option<Deletion>
    ensures { result ≡ spec.deletion_of info.now }
{
    match &info.hidden {
        Some(hidden) => hidden.deletion,
        None => None,
    }
}

fn deleted_of(info: &DomainInfo) -> Option<Moment>
    ensures { result ≡ spec.deleted_of info.now }
{
    deletion_of(info).map(|deletion| deletion.deleted)
}

fn restore_requested_of(info: &DomainInfo) -> Option<Moment>
    ensures { result ≡ spec.restore_requested_of info.now }
{
    deletion_of(info).and_then(|deletion| deletion.restore_requested)
}

fn transfer_item(
    alloc: Global,
    transfer: Option<&TransferInfo>,
) -> Result<Item<'static>, AllocError>
    ensures { IfOk result (λ item. item_value item ≡ option_map spec.transfer_value
        (option_copied transfer.entry)) }
{
    Ok(match transfer {
        Some(transfer) => Item::Given(transfer_value(alloc, transfer)?),
        None => Item::Absent,
    })
}

fn transfer_value(alloc: Global, info: &TransferInfo) -> Result<Value, AllocError>
    ensures { IfOk result (λ v. view v ≡ spec.transfer_value info.now) }
{
    let transfer = &info.transfer;
    let members = vec![in alloc;
        ("acDate", Item::Time(transfer.ac_date)),
        ("acID", Item::Text(&info.losing_registrar)),
        ("reDate", Item::Time(transfer.requested)),
        ("reID", Item::Text(&info.requester)),
        ("status", Item::Word(state_text(transfer.state))),
    ]?;
    object(alloc, members)
}

fn transferred_value(alloc: Global, transferred: &Transferred) -> Result<Value, AllocError>
    ensures { IfOk result (λ v. view v ≡ spec.transferred_value transferred.now) }
{
    let info = &transferred.transfer;
    let transfer = &info.transfer;
    let charge = charge_item(alloc, transferred.charge)?;
    let members = vec![in alloc;
        ("acDate", Item::Time(transfer.ac_date)),
        ("acID", Item::Text(&info.losing_registrar)),
        ("charge", charge),
        ("name", Item::Text(&transferred.name)),
        ("reDate", Item::Time(transfer.requested)),
        ("reID", Item::Text(&info.requester)),
        ("status", Item::Word(state_text(transfer.state))),
    ]?;
    object(alloc, members)
}

fn polled_value(alloc: Global, polled: &Polled) -> Result<Value, AllocError>
    ensures { IfOk result (λ v. view v ≡ spec.polled_value polled.now) }
{
    let members = vec![in alloc;
        ("count", Item::Given(Value::from(polled.count))),
        ("id", Item::Text(&polled.id)),
        ("msg", Item::Word(polled.notice.text())),
        ("name", Item::Text(&polled.name)),
        ("obj", Item::Word(object_text(polled.kind))),
        ("qDate", Item::Time(polled.queued)),
    ]?;
    object(alloc, members)
}

fn acked_value(alloc: Global, count: u64) -> Result<Value, AllocError>
    ensures { IfOk result (λ v. view v ≡ spec.acked_value count) }
{
    object(
        alloc,
        vec![in alloc; ("count", Item::Given(Value::from(count)))]?,
    )
}

fn state_text(state: TransferState) -> &'static str
    ensures { result.now ≡ spec.state_text state }
{
    match state {
        TransferState::Pending => "pending",
        TransferState::ClientApproved => "clientApproved",
        TransferState::ClientRejected => "clientRejected",
        TransferState::ClientCancelled => "clientCancelled",
        TransferState::ServerApproved => "serverApproved",
    }
}
