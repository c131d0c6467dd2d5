//! The conditions on the names and lists of a command, and on what they would make of its object.
ghost use Rattle.std.specs.{Prelude.◌≡◌, List.list_any};
ghost use Rattle.protocol.specs.Requests.{lists_of};
ghost use Rattle.rules.specs.Conditions as spec;
ghost use Rattle.rules.specs.inner.Cases.{is_met};

use crate::conditions::{any_set, any_unset};
use facts::{adds_what_is_there, has_status_twice, has_twice, is_over, removes_what_is_not};
use names::{RequestedName, Zone};
use objects::{Contact, Domain, Host};
use protocol::{Lists, MOST_ADDRESSES, MOST_CONTACTS, MOST_HOSTS};

/// Whether the zone doesn't keep such domains.
pub(crate) fn domain_is_refused(zone: &Zone, name: &RequestedName) -> bool
    ensures { result ≡ spec.domain_is_refused zone.now name.now }
{
    !zone.keeps_domain(name.text().as_str())
}

/// Whether the zone doesn't keep such hosts.
pub(crate) fn host_is_refused(zone: &Zone, name: &RequestedName) -> bool
    ensures { result ≡ spec.host_is_refused zone.now name.now }
{
    !zone.keeps_host(name.text().as_str())
}

/// Whether the zone refuses one of the domains.
pub(crate) fn any_domain_refused(zone: &Zone, domains: &[RequestedName]) -> bool
    ensures { result ≡ list_any (spec.domain_is_refused zone.now) domains.now }
{
    domains.iter().any(|name| domain_is_refused(zone, name))
}

/// Whether the zone refuses one of the hosts.
pub(crate) fn any_host_refused(zone: &Zone, hosts: &[RequestedName]) -> bool
    ensures { result ≡ spec.any_host_refused zone.now hosts.now }
{
    hosts.iter().any(|name| host_is_refused(zone, name))
}

/// Whether one of the lists names one thing twice.
pub(crate) fn list_repeats(lists: Lists<'_>) -> bool
    ensures { result ≡ spec.list_repeats (lists_of lists.entry) }
{
    has_twice(lists.hosts)
        || has_twice(lists.admin)
        || has_twice(lists.tech)
        || has_twice(lists.addresses)
        || has_status_twice(lists.statuses)
}

/// Whether one of the lists alone is longer than an object's may be.
pub(crate) fn are_too_long(lists: Lists<'_>) -> bool
    ensures { result ≡ spec.are_too_long (lists_of lists.entry) }
{
    lists.hosts.len() > MOST_HOSTS
        || lists.admin.len() > MOST_CONTACTS
        || lists.tech.len() > MOST_CONTACTS
        || lists.addresses.len() > MOST_ADDRESSES
}

// ---- where there is an object

/// Whether there is a contact that has a status of the lists.
pub(crate) fn contact_has(lists: Lists<'_>, contact: Option<&Contact>) -> bool
    ensures { result ≡ is_met (spec.contact_has (lists_of lists.entry)) contact.entry }
{
    match contact {
        None => false,
        Some(contact) => any_set(contact.statuses.as_slice(), lists.statuses),
    }
}

/// Whether there is a contact that hasn't a status of the lists.
pub(crate) fn contact_lacks(lists: Lists<'_>, contact: Option<&Contact>) -> bool
    ensures { result ≡ is_met (spec.contact_lacks (lists_of lists.entry)) contact.entry }
{
    match contact {
        None => false,
        Some(contact) => any_unset(contact.statuses.as_slice(), lists.statuses),
    }
}

/// Whether there is a domain that has something of the lists.
pub(crate) fn domain_has(lists: Lists<'_>, domain: Option<&Domain>) -> bool
    ensures { result ≡ is_met (spec.domain_has (lists_of lists.entry)) domain.entry }
{
    let Some(domain) = domain else {
        return false;
    };
    adds_what_is_there(domain.links.hosts.as_slice(), lists.hosts)
        || adds_what_is_there(domain.links.admin.as_slice(), lists.admin)
        || adds_what_is_there(domain.links.tech.as_slice(), lists.tech)
        || any_set(domain.statuses.as_slice(), lists.statuses)
}

/// Whether there is a host that has something of the lists.
pub(crate) fn host_has(lists: Lists<'_>, host: Option<&Host>) -> bool
    ensures { result ≡ is_met (spec.host_has (lists_of lists.entry)) host.entry }
{
    let Some(host) = host else {
        return false;
    };
    adds_what_is_there(host.addresses.as_slice(), lists.addresses)
        || any_set(host.statuses.as_slice(), lists.statuses)
}

/// Whether there is a domain that hasn't something of the lists.
pub(crate) fn domain_lacks(lists: Lists<'_>, domain: Option<&Domain>) -> bool
    ensures { result ≡ is_met (spec.domain_lacks (lists_of lists.entry)) domain.entry }
{
    let Some(domain) = domain else {
        return false;
    };
    removes_what_is_not(domain.links.hosts.as_slice(), lists.hosts)
        || removes_what_is_not(domain.links.admin.as_slice(), lists.admin)
        || removes_what_is_not(domain.links.tech.as_slice(), lists.tech)
        || any_unset(domain.statuses.as_slice(), lists.statuses)
}

/// Whether there is a host that hasn't something of the lists.
pub(crate) fn host_lacks(lists: Lists<'_>, host: Option<&Host>) -> bool
    ensures { result ≡ is_met (spec.host_lacks (lists_of lists.entry)) host.entry }
{
    let Some(host) = host else {
        return false;
    };
    removes_what_is_not(host.addresses.as_slice(), lists.addresses)
        || any_unset(host.statuses.as_slice(), lists.statuses)
}

/// Whether there is a domain that has more than a list's limit afterwards.
pub(crate) fn domain_is_over(removed: Lists<'_>, added: Lists<'_>, domain: Option<&Domain>) -> bool
    ensures { result ≡ is_met (spec.domain_is_over (lists_of removed.entry) (lists_of added.entry))
        domain.entry }
{
    let Some(domain) = domain else {
        return false;
    };
    let links = &domain.links;
    let (hosts, admin, tech) = (
        links.hosts.as_slice(),
        links.admin.as_slice(),
        links.tech.as_slice(),
    );
    is_over(MOST_HOSTS, hosts, removed.hosts, added.hosts)
        || is_over(MOST_CONTACTS, admin, removed.admin, added.admin)
        || is_over(MOST_CONTACTS, tech, removed.tech, added.tech)
}

/// Whether there is a host that has more than a list's limit afterwards.
pub(crate) fn host_is_over(removed: Lists<'_>, added: Lists<'_>, host: Option<&Host>) -> bool
    ensures { result ≡ is_met (spec.host_is_over (lists_of removed.entry) (lists_of added.entry))
        host.entry }
{
    let Some(host) = host else {
        return false;
    };
    let addresses = host.addresses.as_slice();
    is_over(
        MOST_ADDRESSES,
        addresses,
        removed.addresses,
        added.addresses,
    )
}
