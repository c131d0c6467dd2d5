//! What a zone has of a registry, as it is found in records.
ghost use Rattle.std.specs.{Prelude.{◌≡◌, IfOk, OnOk, filter, fold}, FinMap.keys};
ghost use Rattle.model.specs.Zone as spec;
ghost use Rattle.states.specs.States.{Finds};

use crate::records::Records;
use basis::list::Seq;
use basis::maps::NameMap;
use basis::text::Text;
use names::Zone;
use objects::{Delegation, Glue, ZoneData};
use states::BookFault;
use std::alloc::{AllocError, Global};

pub(crate) fn zone_data<R: Records>(records: &mut R, zone: &Zone) -> Result<ZoneData, BookFault>
    ensures { Finds result (spec.zone_data zone.now (R.kept records.old).content.registry)
        (R.kept records.old) (R.kept records.new) }
{
    let moment = records.clock()?;
    let delegations = records.delegations()?;
    let glue = glue_for(records, zone, delegations.as_slice())?;
    Ok(ZoneData {
        moment,
        delegations,
        glue,
    })
}

/// The addresses of those name servers that lie in the zone.
fn glue_for<R: Records>(
    records: &mut R,
    zone: &Zone,
    delegations: &[Delegation],
) -> Result<Seq<Glue>, BookFault>
    ensures { Finds result (spec.glue_of (R.kept records.old).content.registry
        (spec.own_hosts zone.now delegations.now)) (R.kept records.old) (R.kept records.new) }
{
    let names = own_hosts(records.alloc(), zone, delegations)?;
    glue_of(records, &names)
}

/// The hosts in the zone that are name servers of a domain.
fn own_hosts(
    alloc: Global,
    zone: &Zone,
    delegations: &[Delegation],
) -> Result<NameMap<()>, AllocError>
    ensures { IfOk result (λ names. names ≡ spec.own_hosts zone.now delegations.now) }
{
    let mut names = NameMap::new(alloc);
    for delegation in delegations {
        add_own_hosts(zone, delegation.hosts.as_slice(), &mut names)?;
    }
    Ok(names)
}

/// Adds those of the hosts that lie in the zone.
fn add_own_hosts(zone: &Zone, hosts: &[Text], names: &mut NameMap<()>) -> Result<(), AllocError>
    ensures { OnOk result (names.new
        ≡ fold spec.with_name names.old (filter (spec.is_in_zone zone.now) hosts.now)) }
{
    for host in hosts {
        if zone.has_superordinate(host) {
            names.insert(host.clone()?, ())?;
        }
    }
    Ok(())
}

/// The addresses of the hosts with these names.
fn glue_of<R: Records>(records: &mut R, names: &NameMap<()>) -> Result<Seq<Glue>, BookFault>
    ensures { Finds result (spec.glue_of (R.kept records.old).content.registry names.now)
        (R.kept records.old) (R.kept records.new) }
{
    let mut glue = Seq::new(records.alloc());
    for host in names.keys() {
        if let Some(addresses) = records.host_addresses(host)? {
            let host = host.clone()?;
            glue.push(Glue { host, addresses })?;
        }
    }
    Ok(glue)
}
