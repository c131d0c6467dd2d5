//! Records, one a line (RFC 1035, 5.1).
ghost use Rattle.std.specs.Prelude.{◌≡◌, IfOk, string_bytes};
ghost use Rattle.names.specs.Addresses.{has_colon};
ghost use Rattle.zonefile.specs.Lines as spec;

use basis::text::Text;
use policy::{Policy, Soa};
use std::alloc::{AllocError, Global};

/// The start of authority (RFC 1035, 3.3.13) of a policy's zone.
pub(crate) fn soa_line(alloc: Global, policy: &Policy, serial: u32) -> Result<String, AllocError>
    ensures { IfOk result (λ line. string_bytes line ≡ spec.soa_line policy.now.zone.label
        policy.now.soa serial) }
{
    let soa = policy.soa();
    let numbers = soa_numbers(alloc, soa, serial)?;
    let (owner, ttl) = (policy.zone().label().as_str(), soa.ttl);
    let (mname, rname) = (soa.mname.as_str(), soa.rname.as_str());
    let numbers = numbers.as_str();
    format!(in alloc; "{owner}. {ttl} IN SOA {mname}. {rname}. {numbers}\n")
}

/// The numbers of a start of authority.
fn soa_numbers(alloc: Global, soa: &Soa, serial: u32) -> Result<String, AllocError>
    ensures { IfOk result (λ numbers. string_bytes numbers ≡ spec.soa_numbers soa.now serial) }
{
    let (refresh, retry) = (soa.refresh, soa.retry);
    let (expire, minimum) = (soa.expire, soa.minimum);
    format!(in alloc; "{serial} {refresh} {retry} {expire} {minimum}")
}

/// A name server of a domain (RFC 1035, 3.3.11).
pub(crate) fn ns_line(
    alloc: Global,
    domain: &Text,
    ttl: u32,
    host: &Text,
) -> Result<String, AllocError>
    ensures { IfOk result (λ line. string_bytes line ≡ spec.ns_line domain.now ttl host.now) }
{
    let (owner, host) = (domain.as_str(), host.as_str());
    format!(in alloc; "{owner}. {ttl} IN NS {host}.\n")
}

/// The type of an address's record (RFC 1035, 3.4.1; RFC 3596, 2.1).
#[derive(Clone, Copy, Debug, PartialEq, Eq, Drop)]
pub(crate) enum AddressType {
    A,
    Aaaa,
}

impl AddressType {
    fn text(self) -> &'static str
        ensures { result.now ≡ spec.type_text self }
    {
        match self {
            AddressType::A => "A",
            AddressType::Aaaa => "AAAA",
        }
    }

    /// Whether it is the type of the address: one with a colon is of version 6.
    pub(crate) fn is_of(self, address: &Text) -> bool
        ensures { result ≡ spec.is_type_of self address.now }
    {
        match self {
            AddressType::A => !has_colon(address.as_str().as_bytes()),
            AddressType::Aaaa => has_colon(address.as_str().as_bytes()),
        }
    }
}

fn has_colon(text: &[u8]) -> bool
    ensures { result ≡ has_colon text.now }
{
    text.iter().any(|byte| *byte == b':')
}

/// An address of a host.
pub(crate) fn address_line(
    alloc: Global,
    host: &Text,
    ttl: u32,
    kind: AddressType,
    address: &Text,
) -> Result<String, AllocError>
    ensures { IfOk result (λ line. string_bytes line ≡ spec.address_line host.now ttl kind
        address.now) }
{
    let (owner, kind, address) = (host.as_str(), kind.text(), address.as_str());
    format!(in alloc; "{owner}. {ttl} IN {kind} {address}\n")
}
