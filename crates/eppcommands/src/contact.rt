//! What a command on a contact asks for (RFC 5733, 3).
ghost use Rattle.serde_json.specs.View.{view};
ghost use Rattle.eppcommands.specs.Reading.{Gives};
ghost use Rattle.eppcommands.specs.Contact as spec;

use crate::reading::{CommandFault, list_at, maybe_at, required_at};
use crate::values::{StatusIn, TextIn};
use eppforms::Section::{self, Add, Chg, ChgPostal, Rem, Top};
use eppforms::{Member, part};
use objects::{ObjectKind, Postal};
use protocol::{ContactUpdate, NewContact, Request, TransferOp};
use serde_json::Value;
use std::alloc::Global;

#[tactic(auto, unfolding(crate::specs::Contact::check_contact))]
pub fn check_contact(alloc: Global, value: &Value) -> Result<Request, CommandFault>
    ensures { Gives result (spec.check_contact (view value.now)) }
{
    let names = list_at(alloc, &TextIn, Top, Member::Names, value)?;
    Ok(Request::CheckContact { names })
}

#[tactic(auto, unfolding(crate::specs::Contact::info_contact))]
pub fn info_contact(alloc: Global, value: &Value) -> Result<Request, CommandFault>
    ensures { Gives result (spec.info_contact (view value.now)) }
{
    let name = required_at(alloc, &TextIn, Top, Member::Name, value)?;
    let secret = maybe_at(alloc, &TextIn, Top, Member::Secret, value)?;
    Ok(Request::InfoContact { name, secret })
}

#[tactic(auto, unfolding(crate::specs::Contact::create_contact))]
pub fn create_contact(alloc: Global, value: &Value) -> Result<Request, CommandFault>
    ensures { Gives result (spec.create_contact (view value.now)) }
{
    let name = required_at(alloc, &TextIn, Top, Member::Name, value)?;
    let voice = maybe_at(alloc, &TextIn, Top, Member::Voice, value)?;
    let mail = required_at(alloc, &TextIn, Top, Member::Mail, value)?;
    let secret = required_at(alloc, &TextIn, Top, Member::Secret, value)?;
    let postal = postal_at(alloc, Section::Postal, value)?;
    Ok(Request::CreateContact(NewContact {
        name,
        postal,
        voice,
        mail,
        secret,
    }))
}

#[tactic(auto, unfolding(crate::specs::Contact::delete_contact))]
pub fn delete_contact(alloc: Global, value: &Value) -> Result<Request, CommandFault>
    ensures { Gives result (spec.delete_contact (view value.now)) }
{
    let name = required_at(alloc, &TextIn, Top, Member::Name, value)?;
    Ok(Request::DeleteContact { name })
}

#[tactic(auto, unfolding(crate::specs::Contact::update_contact))]
pub fn update_contact(alloc: Global, value: &Value) -> Result<Request, CommandFault>
    ensures { Gives result (spec.update_contact (view value.now)) }
{
    let name = required_at(alloc, &TextIn, Top, Member::Name, value)?;
    let kind = ObjectKind::Contact;
    let voice = maybe_at(alloc, &TextIn, Chg, Member::Voice, value)?;
    let mail = maybe_at(alloc, &TextIn, Chg, Member::Mail, value)?;
    let secret = maybe_at(alloc, &TextIn, Chg, Member::Secret, value)?;
    let add = list_at(alloc, &StatusIn { kind }, Add, Member::Statuses, value)?;
    let rem = list_at(alloc, &StatusIn { kind }, Rem, Member::Statuses, value)?;
    let postal = maybe_postal_at(alloc, ChgPostal, value)?;
    Ok(Request::UpdateContact(ContactUpdate {
        name,
        add,
        rem,
        postal,
        voice,
        mail,
        secret,
    }))
}

#[tactic(auto, unfolding(crate::specs::Contact::transfer_contact))]
pub fn transfer_contact(
    alloc: Global,
    op: TransferOp,
    value: &Value,
) -> Result<Request, CommandFault>
    ensures { Gives result (spec.transfer_contact op (view value.now)) }
{
    let name = required_at(alloc, &TextIn, Top, Member::Name, value)?;
    let secret = maybe_at(alloc, &TextIn, Top, Member::Secret, value)?;
    Ok(Request::TransferContact { name, op, secret })
}

/// The postal address in a section.
#[tactic(auto, unfolding(crate::specs::Contact::postal_at))]
fn postal_at(alloc: Global, section: Section, value: &Value) -> Result<Postal, CommandFault>
    ensures { Gives result (spec.postal_at section (view value.now)) }
{
    let name = required_at(alloc, &TextIn, section, Member::Name, value)?;
    let org = maybe_at(alloc, &TextIn, section, Member::Org, value)?;
    let street = list_at(alloc, &TextIn, section, Member::Street, value)?;
    let city = required_at(alloc, &TextIn, section, Member::City, value)?;
    let sp = maybe_at(alloc, &TextIn, section, Member::Sp, value)?;
    let pc = maybe_at(alloc, &TextIn, section, Member::Pc, value)?;
    let cc = required_at(alloc, &TextIn, section, Member::Cc, value)?;
    Ok(Postal {
        name,
        org,
        street,
        city,
        sp,
        pc,
        cc,
    })
}

fn maybe_postal_at(
    alloc: Global,
    section: Section,
    value: &Value,
) -> Result<Option<Postal>, CommandFault>
    ensures { Gives result (spec.maybe_postal_at section (view value.now)) }
{
    let Some(_) = part(value, section) else {
        return Ok(None);
    };
    Ok(Some(postal_at(alloc, section, value)?))
}
