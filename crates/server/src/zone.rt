//! The zone of a registry, as an office hands it to its name servers.
ghost use Rattle.std.specs.{Prelude.{◌≡◌, true, IfErr, OnOk}, Io.KnownBytes.Appends};
ghost use Rattle.server.specs.ZoneExport.{StopsAs, serial_of, zone_at, zone_data_text};
ghost use Rattle.server.specs.Http.{Passes};
ghost use Rattle.server.specs.declared.zone.ZoneExportFault.TheVariants as faults;
ghost use Rattle.zonefile.specs.ZoneText.{StopsWithin};

use books::Book;
use calendar::Moment;
use objects::ZoneData;
use policy::Policy;
use registry::{Fault, Registry};
use std::alloc::Global;
use std::io::Write;
use thiserror::Error;
use zonefile::{ZoneFault, write_zone};

/// Why a zone wasn't written to its end.
#[derive(Clone, Copy, Debug, PartialEq, Eq, Drop, Error)]
pub enum ZoneExportFault {
    /// The registry gave up.
    #[error("{0}")]
    Registry(Fault),
    /// Memory ran out, or a write failed.
    #[error("{0}")]
    Zone(ZoneFault),
}

impl From<Fault> for ZoneExportFault {
    ghost from_gives = { λ fault it. it ≡ faults.Registry fault };

    fn from(fault: Fault) -> ZoneExportFault {
        ZoneExportFault::Registry(fault)
    }
}

impl From<ZoneFault> for ZoneExportFault {
    ghost from_gives = { λ fault it. it ≡ faults.Zone fault };

    fn from(fault: ZoneFault) -> ZoneExportFault {
        ZoneExportFault::Zone(fault)
    }
}

/// Writes the zone of a registry at a moment; a moment before the clock counts as the clock. Its serial
/// number is the clock then. Nothing is changed but that time passes.
pub fn zone_on<B: Book + Drop, W: Write>(
    alloc: Global,
    registry: &mut Registry<B>,
    moment: Moment,
    writer: &mut W,
) -> Result<(), ZoneExportFault>
    ensures written { OnOk result ((B.state registry.new.book).is_clean ≡ true
        → Appends (W.contents writer.old) (W.contents writer.new) (zone_at registry.old.policy moment (B.state registry.old.book).content.registry)) }
    ensures begun { IfErr result (λ fault. (B.state registry.new.book).is_clean ≡ true
        → StopsAs fault (W.contents writer.old) (W.contents writer.new) (zone_at registry.old.policy moment (B.state registry.old.book).content.registry)) }
    ensures passes { Passes registry.old.policy moment (B.state registry.old.book)
        (B.state registry.new.book) }
    ensures policy { registry.new.policy ≡ registry.old.policy }
{
    let zone = registry.zone_data(moment)?;
    write_data(alloc, registry.policy(), &zone, writer)?;
    Ok(())
}

/// Writes the zone of this data. Its serial number is the moment of the data.
fn write_data<W: Write>(
    alloc: Global,
    policy: &Policy,
    zone: &ZoneData,
    writer: &mut W,
) -> Result<(), ZoneFault>
    ensures written { OnOk result (Appends (W.contents writer.old) (W.contents writer.new)
        (zone_data_text policy.now zone.now)) }
    ensures begun { IfErr result (λ fault. StopsWithin fault (W.contents writer.old) (W.contents writer.new)
        (zone_data_text policy.now zone.now)) }
{
    write_zone(alloc, policy, serial_of(zone.moment), zone, writer)
}

/// How many serial numbers there are (RFC 1982, 3).
const SERIALS: u64 = 0x1_0000_0000;

/// The serial number of a zone at a moment.
fn serial_of(moment: Moment) -> u32
    ensures { result ≡ serial_of moment }
{
    let secs = moment.secs() as u64;
    (secs % SERIALS) as u32
}
