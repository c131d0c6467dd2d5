//! Hosts (RFC 5732).
ghost use Rattle.std.specs.Prelude.{◌≡◌, IfOk, filter};
ghost use Rattle.objects.specs.Hosts as spec;

use crate::roid::Roid;
use crate::status::{ALL, Status, has_status};
use basis::list::Seq;
use basis::registrar::RegistrarNo;
use basis::text::Text;
use calendar::Moment;
use std::alloc::{AllocError, Global};

/// A host. It has no hidden fields.
#[derive(Clone, Drop)]
pub struct Host {
    pub name: Text,
    pub roid: Roid,
    /// Who created or last renamed a host outside the zone. A host in the zone has the sponsor of its
    /// superordinate domain, and nothing here.
    pub external_sponsor: Option<RegistrarNo>,
    pub created: Moment,
    pub updated: Option<Moment>,
    /// The statuses that were set, in the order of their texts.
    pub statuses: Seq<Status>,
    /// Addresses in canonical text, in the order of their bytes.
    pub addresses: Seq<Text>,
}

/// What everyone may know of a host.
#[derive(Clone, Drop)]
pub struct HostFace {
    pub name: Text,
    pub roid: Roid,
    pub sponsor: RegistrarNo,
    pub created: Moment,
    pub updated: Option<Moment>,
    /// The statuses that are shown.
    pub statuses: Seq<Status>,
    pub addresses: Seq<Text>,
}

impl Host {
    /// Whether it shows the status, given whether it is linked.
    pub fn shows(&self, linked: bool, status: Status) -> bool
        ensures { result ≡ spec.host_shows linked self.now status }
    {
        match status {
            Status::Inactive => false,
            Status::Linked => linked,
            Status::Fine => self.statuses.is_empty(),
            Status::PendingDelete => false,
            Status::PendingTransfer => false,
            _ => has_status(self.statuses.as_slice(), status),
        }
    }

    /// What everyone may know of it, given its sponsor and whether it is linked.
    pub fn face(
        &self,
        alloc: Global,
        sponsor: RegistrarNo,
        linked: bool,
    ) -> Result<HostFace, AllocError>
        ensures { IfOk result (λ face. face ≡ spec.host_face_of sponsor linked self.now) }
    {
        Ok(HostFace {
            name: self.name.clone()?,
            roid: self.roid,
            sponsor,
            created: self.created,
            updated: self.updated,
            statuses: shown_host(alloc, self, linked)?,
            addresses: self.addresses.clone()?,
        })
    }
}

/// The statuses that a host shows, given whether it is linked.
pub fn shown_host(alloc: Global, host: &Host, linked: bool) -> Result<Seq<Status>, AllocError>
    ensures { IfOk result (λ statuses. statuses ≡ spec.host_shown linked host.now) }
{
    Ok(Seq::from_vec(shown_among(alloc, host, linked, &ALL)?))
}

fn shown_among(
    alloc: Global,
    host: &Host,
    linked: bool,
    statuses: &[Status],
) -> Result<Vec<Status>, AllocError>
    ensures { IfOk result (λ found. found.items ≡ filter (spec.host_shows linked host.now)
        statuses.now) }
{
    statuses
        .iter()
        .copied()
        .filter(|status| host.shows(linked, *status))
        .collect(alloc)
}

/// Whether a host's name lies below a domain's.
pub fn is_below(domain: &Text, host: &Text) -> bool
    ensures { result ≡ spec.is_below domain.now host.now }
{
    let domain = domain.as_str().as_bytes();
    let host = host.as_str().as_bytes();
    if host.len() <= domain.len() || !host.ends_with(domain) {
        return false;
    }
    host[host.len() - domain.len() - 1] == b'.'
}
