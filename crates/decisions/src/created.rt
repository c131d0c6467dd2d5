//! New objects.
ghost use Rattle.std.specs.Prelude.{◌≡◌, IfOk};
ghost use Rattle.decisions.specs.Decisions as spec;

use crate::case::Case;
use basis::list::Seq;
use basis::registrar::RegistrarNo;
use basis::text::{Text, copied};
use facts::amended_names;
use names::Zone;
use objects::{Contact, Domain, Host, Links, ObjectKind, Roid, in_order};
use protocol::{NewContact, NewDomain, NewHost};
use std::alloc::{AllocError, Global};

impl<'a> Case<'a> {
    /// The ROID of the caller's next object.
    pub(crate) fn new_roid(&self, kind: ObjectKind) -> Roid
        ensures { result ≡ spec.new_roid kind self.now.caller self.now.facts.now }
    {
        Roid {
            kind,
            creator: self.caller,
            serial: self.facts.account.next_serial(),
        }
    }

    pub(crate) fn new_contact(&self, new: &NewContact) -> Result<Contact, AllocError>
        ensures { IfOk result (λ contact. contact ≡ spec.new_contact self.now.caller self.now.moment
            self.now.facts.now new.now) }
    {
        Ok(Contact {
            name: new.name.clone()?,
            roid: self.new_roid(ObjectKind::Contact),
            sponsor: self.caller,
            created: self.moment,
            transferred: None,
            updated: None,
            statuses: Seq::new(self.alloc),
            secret: new.secret.clone()?,
            voice: copied(&new.voice)?,
            mail: new.mail.clone()?,
            postal: new.postal.copy()?,
            transfer: None,
        })
    }

    pub(crate) fn new_domain(&self, new: &NewDomain) -> Result<Domain, AllocError>
        ensures { IfOk result (λ domain. domain ≡ spec.new_domain self.now.caller self.now.moment
            self.now.facts.now new.now) }
    {
        Ok(Domain {
            name: new.name.text().clone()?,
            roid: self.new_roid(ObjectKind::Domain),
            sponsor: self.caller,
            created: self.moment,
            years: new.years.number(),
            transferred: None,
            updated: None,
            statuses: Seq::new(self.alloc),
            secret: new.secret.clone()?,
            links: new_links(self.alloc, new)?,
            transfer: None,
            deletion: None,
        })
    }

    pub(crate) fn new_host(&self, new: &NewHost) -> Result<Host, AllocError>
        ensures { IfOk result (λ host. host ≡ spec.new_host self.now.policy.now.zone self.now.caller
            self.now.moment self.now.facts.now new.now) }
    {
        Ok(Host {
            name: new.name.text().clone()?,
            roid: self.new_roid(ObjectKind::Host),
            external_sponsor: external_sponsor_of(self.policy.zone(), self.caller, new.name.text()),
            created: self.moment,
            updated: None,
            statuses: Seq::new(self.alloc),
            addresses: in_order(self.alloc, new.addresses.as_slice())?,
        })
    }
}

fn new_links(alloc: Global, new: &NewDomain) -> Result<Links, AllocError>
    ensures { IfOk result (λ links. links ≡ spec.new_links new.now) }
{
    Ok(Links {
        registrant: new.registrant.clone()?,
        admin: in_order(alloc, new.admin.as_slice())?,
        tech: in_order(alloc, new.tech.as_slice())?,
        hosts: amended_names(alloc, &[], &[], new.hosts.as_slice())?,
    })
}

/// A host in the zone has no registrar of its own; an external one has the registrar that gave it its
/// name.
pub(crate) fn external_sponsor_of(
    zone: &Zone,
    caller: RegistrarNo,
    name: &Text,
) -> Option<RegistrarNo>
    ensures { result ≡ spec.external_sponsor_of zone.now caller name.now }
{
    if zone.has_superordinate(name) {
        None
    } else {
        Some(caller)
    }
}
