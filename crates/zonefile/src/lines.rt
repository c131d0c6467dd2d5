//! The records of a domain and of a host.
ghost use Rattle.std.specs.Prelude.{◌≡◌, ◌++◌, IfOk, OnOk};
ghost use Rattle.zonefile.specs.ZoneText as spec;

use crate::line::{AddressType, address_line, ns_line};
use basis::text::Text;
use objects::{Delegation, Glue};
use std::alloc::{AllocError, Global};

/// What a zone has records of.
pub(crate) trait Recorded {
    ghost use Rattle.std.specs.Prelude.{◌≡◌, ℕ, List, IfOk};

    ghost text: { ℕ → Self → List ℕ };

    /// The lines of its records.
    fn lines(&self, alloc: Global, ttl: u32) -> Result<Vec<u8>, AllocError>
        ensures { IfOk result (λ lines. lines.items ≡ text ttl self.now) };
}

impl Recorded for Delegation {
    ghost text = { spec.delegation_text };

    fn lines(&self, alloc: Global, ttl: u32) -> Result<Vec<u8>, AllocError> {
        let mut text = Vec::new(alloc);
        for host in self.hosts.as_slice() {
            let line = ns_line(alloc, &self.name, ttl, host)?;
            text.extend_from_slice(line.as_bytes())?;
        }
        Ok(text)
    }
}

impl Recorded for Glue {
    ghost text = { spec.glue_text };

    fn lines(&self, alloc: Global, ttl: u32) -> Result<Vec<u8>, AllocError> {
        let (host, addresses) = (&self.host, self.addresses.as_slice());
        let mut text = Vec::new(alloc);
        add_addresses(alloc, ttl, AddressType::A, host, addresses, &mut text)?;
        add_addresses(alloc, ttl, AddressType::Aaaa, host, addresses, &mut text)?;
        Ok(text)
    }
}

/// Adds the records of a host's addresses of one type.
fn add_addresses(
    alloc: Global,
    ttl: u32,
    kind: AddressType,
    host: &Text,
    addresses: &[Text],
    text: &mut Vec<u8>,
) -> Result<(), AllocError>
    ensures { OnOk result (text.new.items ≡ text.old.items ++ spec.address_lines ttl kind host.now
        addresses.now) }
{
    for address in addresses {
        if kind.is_of(address) {
            let line = address_line(alloc, host, ttl, kind, address)?;
            text.extend_from_slice(line.as_bytes())?;
        }
    }
    Ok(())
}
