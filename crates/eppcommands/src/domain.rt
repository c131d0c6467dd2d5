//! What a command on a domain asks for (RFC 5731, 3).
ghost use Rattle.serde_json.specs.View.{view};
ghost use Rattle.eppcommands.specs.Reading.{Gives};
ghost use Rattle.eppcommands.specs.Domain as spec;

use crate::reading::{CommandFault, list_at, maybe_at, required_at, years_at};
use crate::values::{DateIn, MomentIn, NameIn, StatusIn, TextIn};
use eppforms::Member;
use eppforms::Section::{self, Add, Chg, Rem, Top};
use objects::ObjectKind;
use protocol::{DomainLists, DomainUpdate, NewDomain, Request, TransferOp};
use serde_json::Value;
use std::alloc::Global;

#[tactic(auto, unfolding(crate::specs::Domain::check_domain))]
pub fn check_domain(alloc: Global, value: &Value) -> Result<Request, CommandFault>
    ensures { Gives result (spec.check_domain (view value.now)) }
{
    let names = list_at(alloc, &NameIn, Top, Member::Names, value)?;
    Ok(Request::CheckDomain { names })
}

#[tactic(auto, unfolding(crate::specs::Domain::info_domain))]
pub fn info_domain(alloc: Global, value: &Value) -> Result<Request, CommandFault>
    ensures { Gives result (spec.info_domain (view value.now)) }
{
    let name = required_at(alloc, &NameIn, Top, Member::Name, value)?;
    let secret = maybe_at(alloc, &TextIn, Top, Member::Secret, value)?;
    Ok(Request::InfoDomain { name, secret })
}

#[tactic(auto, unfolding(crate::specs::Domain::create_domain))]
pub fn create_domain(alloc: Global, value: &Value) -> Result<Request, CommandFault>
    ensures { Gives result (spec.create_domain (view value.now)) }
{
    let name = required_at(alloc, &NameIn, Top, Member::Name, value)?;
    let years = years_at(Top, Member::Years, value)?;
    let registrant = required_at(alloc, &TextIn, Top, Member::Registrant, value)?;
    let secret = required_at(alloc, &TextIn, Top, Member::Secret, value)?;
    let admin = list_at(alloc, &TextIn, Top, Member::Admin, value)?;
    let tech = list_at(alloc, &TextIn, Top, Member::Tech, value)?;
    let hosts = list_at(alloc, &NameIn, Top, Member::Hosts, value)?;
    Ok(Request::CreateDomain(NewDomain {
        name,
        years,
        registrant,
        admin,
        tech,
        hosts,
        secret,
    }))
}

#[tactic(auto, unfolding(crate::specs::Domain::delete_domain))]
pub fn delete_domain(alloc: Global, value: &Value) -> Result<Request, CommandFault>
    ensures { Gives result (spec.delete_domain (view value.now)) }
{
    let name = required_at(alloc, &NameIn, Top, Member::Name, value)?;
    Ok(Request::DeleteDomain { name })
}

#[tactic(auto, unfolding(crate::specs::Domain::update_domain))]
pub fn update_domain(alloc: Global, value: &Value) -> Result<Request, CommandFault>
    ensures { Gives result (spec.update_domain (view value.now)) }
{
    let name = required_at(alloc, &NameIn, Top, Member::Name, value)?;
    let registrant = maybe_at(alloc, &TextIn, Chg, Member::Registrant, value)?;
    let secret = maybe_at(alloc, &TextIn, Chg, Member::Secret, value)?;
    let add = lists_of_domain(alloc, Add, value)?;
    let rem = lists_of_domain(alloc, Rem, value)?;
    Ok(Request::UpdateDomain(DomainUpdate {
        name,
        add,
        rem,
        registrant,
        secret,
    }))
}

/// What an update adds or removes.
#[tactic(auto, unfolding(crate::specs::Domain::lists_of_domain))]
fn lists_of_domain(
    alloc: Global,
    section: Section,
    value: &Value,
) -> Result<DomainLists, CommandFault>
    ensures { Gives result (spec.lists_of_domain section (view value.now)) }
{
    let hosts = list_at(alloc, &NameIn, section, Member::Hosts, value)?;
    let admin = list_at(alloc, &TextIn, section, Member::Admin, value)?;
    let tech = list_at(alloc, &TextIn, section, Member::Tech, value)?;
    let statuses = list_at(
        alloc,
        &StatusIn {
            kind: ObjectKind::Domain,
        },
        section,
        Member::Statuses,
        value,
    )?;
    Ok(DomainLists {
        hosts,
        admin,
        tech,
        statuses,
    })
}

#[tactic(auto, unfolding(crate::specs::Domain::renew_domain))]
pub fn renew_domain(alloc: Global, value: &Value) -> Result<Request, CommandFault>
    ensures { Gives result (spec.renew_domain (view value.now)) }
{
    let name = required_at(alloc, &NameIn, Top, Member::Name, value)?;
    let expires = required_at(alloc, &DateIn, Top, Member::Expires, value)?;
    let years = years_at(Top, Member::Years, value)?;
    Ok(Request::RenewDomain {
        name,
        expires,
        years,
    })
}

#[tactic(auto, unfolding(crate::specs::Domain::request_restore))]
pub fn request_restore(alloc: Global, value: &Value) -> Result<Request, CommandFault>
    ensures { Gives result (spec.request_restore (view value.now)) }
{
    let name = required_at(alloc, &NameIn, Top, Member::Name, value)?;
    Ok(Request::RequestRestore { name })
}

#[tactic(auto, unfolding(crate::specs::Domain::report_restore))]
pub fn report_restore(alloc: Global, value: &Value) -> Result<Request, CommandFault>
    ensures { Gives result (spec.report_restore (view value.now)) }
{
    let name = required_at(alloc, &NameIn, Top, Member::Name, value)?;
    let del_time = required_at(alloc, &MomentIn, Top, Member::DelTime, value)?;
    let res_time = required_at(alloc, &MomentIn, Top, Member::ResTime, value)?;
    Ok(Request::ReportRestore {
        name,
        del_time,
        res_time,
    })
}

#[tactic(auto, unfolding(crate::specs::Domain::transfer_domain))]
pub fn transfer_domain(
    alloc: Global,
    op: TransferOp,
    value: &Value,
) -> Result<Request, CommandFault>
    ensures { Gives result (spec.transfer_domain op (view value.now)) }
{
    let name = required_at(alloc, &NameIn, Top, Member::Name, value)?;
    let secret = maybe_at(alloc, &TextIn, Top, Member::Secret, value)?;
    Ok(Request::TransferDomain { name, op, secret })
}
