//! The whole zone.
ghost use Rattle.std.specs.{Prelude.{◌≡◌, IfErr, OnOk}, Io.KnownBytes.Appends, List.flat_map};
ghost use Rattle.zonefile.specs.{Lines.soa_line, ZoneText.{StopsWithin, zone_text}};

use crate::fault::ZoneFault;
use crate::line::soa_line;
use crate::lines::Recorded;
use objects::ZoneData;
use policy::Policy;
use std::alloc::Global;
use std::io::Write;
use streams::write_whole;

/// Writes the text of a zone with a serial number. After a fault a beginning of it went out; after a write that
/// failed, not all of it.
pub fn write_zone<W: Write>(
    alloc: Global,
    policy: &Policy,
    serial: u32,
    zone: &ZoneData,
    writer: &mut W,
) -> Result<(), ZoneFault>
    ensures written { OnOk result (Appends (W.contents writer.old) (W.contents writer.new)
        (zone_text policy.now serial zone.now)) }
    ensures begun { IfErr result (λ fault. StopsWithin fault (W.contents writer.old) (W.contents writer.new)
        (zone_text policy.now serial zone.now)) }
{
    let ttl = ttl_of(policy);
    write_soa(alloc, policy, serial, writer)?;
    write_all(alloc, ttl, zone.delegations.as_slice(), writer)?;
    write_all(alloc, ttl, zone.glue.as_slice(), writer)
}

/// The time that every record may be kept (RFC 1035, 3.2.1).
fn ttl_of(policy: &Policy) -> u32
    ensures { result ≡ policy.now.soa.ttl }
{
    policy.soa().ttl
}

/// Writes the start of authority.
fn write_soa<W: Write>(
    alloc: Global,
    policy: &Policy,
    serial: u32,
    writer: &mut W,
) -> Result<(), ZoneFault>
    ensures written { OnOk result (Appends (W.contents writer.old) (W.contents writer.new)
        (soa_line policy.now.zone.label policy.now.soa serial)) }
    ensures begun { IfErr result (λ fault. StopsWithin fault (W.contents writer.old) (W.contents writer.new)
        (soa_line policy.now.zone.label policy.now.soa serial)) }
{
    let line = soa_line(alloc, policy, serial)?;
    write_whole(writer, line.as_bytes())?;
    Ok(())
}

/// Writes the records of all of these.
fn write_all<W: Write, T: Recorded>(
    alloc: Global,
    ttl: u32,
    items: &[T],
    writer: &mut W,
) -> Result<(), ZoneFault>
    ensures written { OnOk result (Appends (W.contents writer.old) (W.contents writer.new)
        (flat_map (T.text ttl) items.now)) }
    ensures begun { IfErr result (λ fault. StopsWithin fault (W.contents writer.old) (W.contents writer.new)
        (flat_map (T.text ttl) items.now)) }
{
    for item in items {
        write_records(alloc, ttl, item, writer)?;
    }
    Ok(())
}

/// Writes the records of one.
fn write_records<W: Write, T: Recorded>(
    alloc: Global,
    ttl: u32,
    item: &T,
    writer: &mut W,
) -> Result<(), ZoneFault>
    ensures written { OnOk result (Appends (W.contents writer.old) (W.contents writer.new)
        (T.text ttl item.now)) }
    ensures begun { IfErr result (λ fault. StopsWithin fault (W.contents writer.old) (W.contents writer.new)
        (T.text ttl item.now)) }
{
    let text = item.lines(alloc, ttl)?;
    write_whole(writer, &text)?;
    Ok(())
}
