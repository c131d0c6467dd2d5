//! The lists that a command gives.
ghost use Rattle.std.specs.Prelude.{◌≡◌};
ghost use Rattle.protocol.specs.Requests as spec;

use crate::command::{DomainLists, HostLists, Request};
use basis::text::Text;
use names::RequestedName;
use objects::Status;

/// The hosts that a domain may name.
pub const MOST_HOSTS: usize = 13;

/// The administrative contacts that a domain may name, and the technical ones.
pub const MOST_CONTACTS: usize = 4;

/// The addresses that a host may have.
pub const MOST_ADDRESSES: usize = 13;

/// What an object is to have, or to have no longer: each list as it was sent.
#[derive(Clone, Copy, Drop)]
pub struct Lists<'a> {
    pub hosts: &'a [RequestedName],
    pub admin: &'a [Text],
    pub tech: &'a [Text],
    pub addresses: &'a [Text],
    pub statuses: &'a [Status],
}

impl<'a> Lists<'a> {
    fn none() -> Lists<'a>
        ensures { spec.lists_of result ≡ spec.no_lists }
    {
        Lists {
            hosts: &[],
            admin: &[],
            tech: &[],
            addresses: &[],
            statuses: &[],
        }
    }

    fn of_domain(lists: &'a DomainLists) -> Lists<'a>
        ensures { spec.lists_of result ≡ spec.of_domain lists.now }
    {
        Lists {
            hosts: lists.hosts.as_slice(),
            admin: lists.admin.as_slice(),
            tech: lists.tech.as_slice(),
            addresses: &[],
            statuses: lists.statuses.as_slice(),
        }
    }

    fn of_host(lists: &'a HostLists) -> Lists<'a>
        ensures { spec.lists_of result ≡ spec.of_host lists.now }
    {
        Lists {
            hosts: &[],
            admin: &[],
            tech: &[],
            addresses: lists.addresses.as_slice(),
            statuses: lists.statuses.as_slice(),
        }
    }

    fn of_statuses(statuses: &'a [Status]) -> Lists<'a>
        ensures { spec.lists_of result ≡ record spec.no_lists { statuses = statuses.now } }
    {
        Lists {
            hosts: &[],
            admin: &[],
            tech: &[],
            addresses: &[],
            statuses,
        }
    }
}

impl Request {
    /// What its object is to have.
    pub fn added(&self) -> Lists<'_>
        ensures { spec.lists_of result ≡ (spec.asks_of self.now).adds }
    {
        match self {
            Request::CreateDomain(new) => Lists {
                hosts: new.hosts.as_slice(),
                admin: new.admin.as_slice(),
                tech: new.tech.as_slice(),
                addresses: &[],
                statuses: &[],
            },
            Request::CreateHost(new) => Lists {
                hosts: &[],
                admin: &[],
                tech: &[],
                addresses: new.addresses.as_slice(),
                statuses: &[],
            },
            Request::UpdateContact(update) => Lists::of_statuses(update.add.as_slice()),
            Request::UpdateDomain(update) => Lists::of_domain(&update.add),
            Request::UpdateHost(update) => Lists::of_host(&update.add),
            _ => Lists::none(),
        }
    }

    /// What its object is to have no longer.
    pub fn removed(&self) -> Lists<'_>
        ensures { spec.lists_of result ≡ (spec.asks_of self.now).removes }
    {
        match self {
            Request::UpdateContact(update) => Lists::of_statuses(update.rem.as_slice()),
            Request::UpdateDomain(update) => Lists::of_domain(&update.rem),
            Request::UpdateHost(update) => Lists::of_host(&update.rem),
            _ => Lists::none(),
        }
    }
}
