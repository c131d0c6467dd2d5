//! A registry in ordered maps.
ghost use Rattle.std.specs.Prelude.{◌≡◌, nat_le, option_map, IfOk};
ghost use Rattle.std.specs.FinMap as finmap;
ghost use Rattle.facts.specs.Facts as facts;
ghost use Rattle.decisions.specs.Changes as changes;
ghost use Rattle.model.specs.Zone as zone;
ghost use Rattle.mapbook.specs.{Plain.registry_in, Renaming.domains_naming};

use crate::renamed::with_host_renamed;
use accounts::Account;
use basis::list::Seq;
use basis::maps::{NameMap, RegistrarMap};
use basis::registrar::RegistrarNo;
use basis::text::Text;
use calendar::Moment;
use facts::{HOLDING_LIMIT, Superordinate};
use objects::{Contact, Delegation, Domain, Host, is_below};
use policy::Terms;
use std::alloc::{AllocError, Global};

#[derive(Drop)]
pub(crate) struct Content {
    pub alloc: Global,
    pub contacts: NameMap<Contact>,
    pub hosts: NameMap<Host>,
    pub domains: NameMap<Domain>,
    /// Lines, messages and counters are changed in their place.
    pub accounts: RegistrarMap<Account>,
    pub clock: Moment,
    pub terms: Option<Terms>,
}

// ---- who names what

impl Content {
    /// Whether a domain names the contact.
    pub fn is_linked_contact(&self, name: &Text) -> bool
        ensures { result ≡ facts.is_linked_contact (registry_in self.now) name.now }
    {
        self.domains
            .values()
            .any(|domain| domain.links.names_contact(name))
    }

    /// Whether a domain names the host.
    pub fn is_linked_host(&self, name: &Text) -> bool
        ensures { result ≡ facts.is_linked_host (registry_in self.now) name.now }
    {
        self.domains
            .values()
            .any(|domain| domain.links.names_host(name))
    }

    /// The domains that name a host, in the order of their names.
    pub fn domains_naming(&self, host: &Text) -> Result<Seq<Text>, AllocError>
        ensures { IfOk result (λ names. names ≡ domains_naming host.now (registry_in self.now)) }
    {
        let mut names = Seq::new(self.alloc);
        for (name, domain) in self.domains.iter() {
            if domain.links.names_host(host) {
                names.push(name.clone()?)?;
            }
        }
        Ok(names)
    }

    /// Whether there is a host of the one name, and none of the other.
    pub fn may_rename(&self, from: &Text, to: &Text) -> bool
        ensures { result ≡ changes.may_rename (registry_in self.now).hosts from.now to.now }
    {
        self.hosts.get(from).is_some() && self.hosts.get(to).is_none()
    }

    /// The domain under a name, as it names a host by its new name.
    pub fn host_renamed_at(
        &self,
        domain: &Text,
        from: &Text,
        to: &Text,
    ) -> Result<Option<Domain>, AllocError>
        ensures { IfOk result (λ it. it ≡ option_map (changes.with_host_renamed from.now to.now)
            (finmap.get (registry_in self.now).domains domain.now)) }
    {
        match self.domains.get(domain) {
            None => Ok(None),
            Some(domain) => Ok(Some(with_host_renamed(self.alloc, from, to, domain)?)),
        }
    }
}

// ---- domains and hosts

impl Content {
    /// Of a domain, what its hosts depend on.
    pub fn superordinate(&self, domain: &Text) -> Option<Superordinate>
        ensures { result ≡ option_map facts.superordinate_of_domain
            (finmap.get (registry_in self.now).domains domain.now) }
    {
        match self.domains.get(domain) {
            None => None,
            Some(domain) => Some(Superordinate {
                sponsor: domain.sponsor,
                is_deleted: domain.deletion.is_some(),
            }),
        }
    }

    /// The hosts below a domain, in the order of their names.
    pub fn subordinate(&self, domain: &Text) -> Result<Seq<Text>, AllocError>
        ensures { IfOk result (λ names. names ≡ facts.subordinate (registry_in self.now)
            domain.now) }
    {
        let mut names = Seq::new(self.alloc);
        for name in self.hosts.keys() {
            if is_below(domain, name) {
                names.push(name.clone()?)?;
            }
        }
        Ok(names)
    }

    /// What a zone has of each domain, in the order of their names.
    pub fn delegations(&self) -> Result<Seq<Delegation>, AllocError>
        ensures { IfOk result (λ list. list ≡ zone.delegations (registry_in self.now)) }
    {
        let mut list = Seq::new(self.alloc);
        for domain in self.domains.values() {
            list.push(domain.delegation(self.alloc)?)?;
        }
        Ok(list)
    }

    pub fn host_addresses(&self, name: &Text) -> Result<Option<Seq<Text>>, AllocError>
        ensures { IfOk result (λ addresses. addresses
            ≡ zone.host_addresses_at (registry_in self.now) name.now) }
    {
        match self.hosts.get(name) {
            None => Ok(None),
            Some(host) => Ok(Some(host.addresses.clone()?)),
        }
    }

    /// Whether the registrar holds as many domains as it may. Where there aren't so many at all, none
    /// is looked at.
    pub fn is_at_holding_limit(&self, caller: RegistrarNo) -> bool
        ensures { result ≡ nat_le HOLDING_LIMIT (facts.held caller (registry_in self.now)) }
    {
        if self.domains.len() < HOLDING_LIMIT {
            return false;
        }
        self.count_held(caller) >= HOLDING_LIMIT
    }

    fn count_held(&self, caller: RegistrarNo) -> usize
        ensures { result ≡ facts.held caller (registry_in self.now) }
    {
        self.domains
            .values()
            .filter(|domain| domain.is_held_by(caller))
            .count()
    }
}
