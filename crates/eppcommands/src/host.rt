//! What a command on a host asks for (RFC 5732, 3).
ghost use Rattle.serde_json.specs.View.{view};
ghost use Rattle.eppcommands.specs.Reading.{Gives};
ghost use Rattle.eppcommands.specs.Host as spec;

use crate::reading::{CommandFault, list_at, maybe_at, required_at};
use crate::values::{AddressIn, NameIn, StatusIn};
use eppforms::Member;
use eppforms::Section::{self, Add, Chg, Rem, Top};
use objects::ObjectKind;
use protocol::{HostLists, HostUpdate, NewHost, Request};
use serde_json::Value;
use std::alloc::Global;

#[tactic(auto, unfolding(crate::specs::Host::check_host))]
pub fn check_host(alloc: Global, value: &Value) -> Result<Request, CommandFault>
    ensures { Gives result (spec.check_host (view value.now)) }
{
    let names = list_at(alloc, &NameIn, Top, Member::Names, value)?;
    Ok(Request::CheckHost { names })
}

#[tactic(auto, unfolding(crate::specs::Host::info_host))]
pub fn info_host(alloc: Global, value: &Value) -> Result<Request, CommandFault>
    ensures { Gives result (spec.info_host (view value.now)) }
{
    let name = required_at(alloc, &NameIn, Top, Member::Name, value)?;
    Ok(Request::InfoHost { name })
}

#[tactic(auto, unfolding(crate::specs::Host::create_host))]
pub fn create_host(alloc: Global, value: &Value) -> Result<Request, CommandFault>
    ensures { Gives result (spec.create_host (view value.now)) }
{
    let name = required_at(alloc, &NameIn, Top, Member::Name, value)?;
    let addresses = list_at(alloc, &AddressIn, Top, Member::Addrs, value)?;
    Ok(Request::CreateHost(NewHost { name, addresses }))
}

#[tactic(auto, unfolding(crate::specs::Host::delete_host))]
pub fn delete_host(alloc: Global, value: &Value) -> Result<Request, CommandFault>
    ensures { Gives result (spec.delete_host (view value.now)) }
{
    let name = required_at(alloc, &NameIn, Top, Member::Name, value)?;
    Ok(Request::DeleteHost { name })
}

#[tactic(auto, unfolding(crate::specs::Host::update_host))]
pub fn update_host(alloc: Global, value: &Value) -> Result<Request, CommandFault>
    ensures { Gives result (spec.update_host (view value.now)) }
{
    let name = required_at(alloc, &NameIn, Top, Member::Name, value)?;
    let add = lists_of_host(alloc, Add, value)?;
    let rem = lists_of_host(alloc, Rem, value)?;
    let new_name = maybe_at(alloc, &NameIn, Chg, Member::Name, value)?;
    Ok(Request::UpdateHost(HostUpdate {
        name,
        add,
        rem,
        new_name,
    }))
}

/// What an update adds or removes.
#[tactic(auto, unfolding(crate::specs::Host::lists_of_host))]
fn lists_of_host(alloc: Global, section: Section, value: &Value) -> Result<HostLists, CommandFault>
    ensures { Gives result (spec.lists_of_host section (view value.now)) }
{
    let addresses = list_at(alloc, &AddressIn, section, Member::Addrs, value)?;
    let statuses = list_at(
        alloc,
        &StatusIn {
            kind: ObjectKind::Host,
        },
        section,
        Member::Statuses,
        value,
    )?;
    Ok(HostLists {
        addresses,
        statuses,
    })
}
