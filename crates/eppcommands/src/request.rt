//! What a well formed command asks for.
ghost use Rattle.serde_json.specs.View.{view};
ghost use Rattle.eppcommands.specs.Reading.{Gives};
ghost use Rattle.eppcommands.specs.Request as spec;

use crate::contact::{
    check_contact, create_contact, delete_contact, info_contact, transfer_contact, update_contact,
};
use crate::domain::{
    check_domain, create_domain, delete_domain, info_domain, renew_domain, report_restore,
    request_restore, transfer_domain, update_domain,
};
use crate::host::{check_host, create_host, delete_host, info_host, update_host};
use crate::reading::{CommandFault, required_at};
use crate::values::TextIn;
use eppforms::{CommandKind, Member, Section, checked_command};
use protocol::{FormFault, Request};
use serde_json::Value;
use std::alloc::Global;

/// The request of a payload, or the first fault of its form.
#[tactic(auto, unfolding(crate::specs::Request::request_in))]
pub fn request_in(alloc: Global, value: &Value) -> Result<Request, CommandFault>
    ensures { Gives result (spec.request_in (view value.now)) }
{
    match checked_command(value)? {
        CommandKind::Hello | CommandKind::Login => Err(CommandFault::Refused(FormFault::UseError)),
        CommandKind::Logout => Ok(Request::Logout),
        CommandKind::Balance => Ok(Request::Balance),
        CommandKind::CheckContact => check_contact(alloc, value),
        CommandKind::CheckDomain => check_domain(alloc, value),
        CommandKind::CheckHost => check_host(alloc, value),
        CommandKind::InfoContact => info_contact(alloc, value),
        CommandKind::InfoDomain => info_domain(alloc, value),
        CommandKind::InfoHost => info_host(alloc, value),
        CommandKind::CreateContact => create_contact(alloc, value),
        CommandKind::CreateDomain => create_domain(alloc, value),
        CommandKind::CreateHost => create_host(alloc, value),
        CommandKind::DeleteContact => delete_contact(alloc, value),
        CommandKind::DeleteDomain => delete_domain(alloc, value),
        CommandKind::DeleteHost => delete_host(alloc, value),
        CommandKind::UpdateContact => update_contact(alloc, value),
        CommandKind::UpdateDomain => update_domain(alloc, value),
        CommandKind::UpdateHost => update_host(alloc, value),
        CommandKind::RenewDomain => renew_domain(alloc, value),
        CommandKind::RequestRestore => request_restore(alloc, value),
        CommandKind::ReportRestore => report_restore(alloc, value),
        CommandKind::TransferContact(op) => transfer_contact(alloc, op, value),
        CommandKind::TransferDomain(op) => transfer_domain(alloc, op, value),
        CommandKind::PollRequest => Ok(Request::PollRequest),
        CommandKind::PollAck => poll_ack(alloc, value),
    }
}

/// The message that was read (RFC 5730, 2.9.2.3).
#[tactic(auto, unfolding(crate::specs::Request::poll_ack))]
fn poll_ack(alloc: Global, value: &Value) -> Result<Request, CommandFault>
    ensures { Gives result (spec.poll_ack (view value.now)) }
{
    let id = required_at(alloc, &TextIn, Section::Top, Member::Id, value)?;
    Ok(Request::PollAck { id })
}
