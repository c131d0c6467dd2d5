//! What a zone has of domains and of hosts.
ghost use Rattle.std.specs.Prelude.{◌≡◌, IfOk};
ghost use Rattle.objects.specs.Delegations as spec;

use crate::domain::Domain;
use crate::status::Status;
use basis::list::Seq;
use basis::text::Text;
use calendar::Moment;
use std::alloc::{AllocError, Global};

/// A domain and its name servers in the zone (RFC 1035, 3.3.11): its hosts, or none if it isn't served.
#[derive(Clone, Drop)]
pub struct Delegation {
    pub name: Text,
    pub hosts: Seq<Text>,
}

/// The addresses of a name server that lies in the zone itself (RFC 1034, 4.2.1).
#[derive(Drop)]
pub struct Glue {
    pub host: Text,
    pub addresses: Seq<Text>,
}

/// What a zone is made of at a moment. Domains and hosts come in the order of their names.
#[derive(Drop)]
pub struct ZoneData {
    pub moment: Moment,
    pub delegations: Seq<Delegation>,
    pub glue: Seq<Glue>,
}

impl Domain {
    /// Whether the zone has its name servers: it shows no hold and isn't deleted (RFC 5731, 2.3).
    pub fn is_served(&self) -> bool
        ensures { result ≡ spec.is_served self.now }
    {
        !self.shows(Status::ClientHold)
            && !self.shows(Status::ServerHold)
            && !self.shows(Status::PendingDelete)
    }

    /// What the zone has of it.
    pub fn delegation(&self, alloc: Global) -> Result<Delegation, AllocError>
        ensures { IfOk result (λ it. it ≡ spec.delegation_of self.now) }
    {
        Ok(Delegation {
            name: self.name.clone()?,
            hosts: self.served_hosts(alloc)?,
        })
    }

    fn served_hosts(&self, alloc: Global) -> Result<Seq<Text>, AllocError>
        ensures { IfOk result (λ hosts. hosts ≡ spec.served_hosts self.now) }
    {
        if !self.is_served() {
            return Ok(Seq::new(alloc));
        }
        self.links.hosts.clone()
    }
}
