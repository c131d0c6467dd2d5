//! The facts of a command, as they are found in records.
ghost use Rattle.std.specs.Prelude.{◌≡◌, ◌&&◌, if◌then◌else◌, [], false, map, nat_le, not, option_map, option_and_then, None, IfOk};
ghost use Rattle.std.specs.{List.list_any, Option.option_copied};
ghost use Rattle.std.specs.FinMap as finmap;
ghost use Rattle.accounts.specs.Lines.{balance};
ghost use Rattle.facts.specs.Facts as facts;
ghost use Rattle.lifecycle.specs.Refunds as refunds;
ghost use Rattle.model.specs.Objects as objects;
ghost use Rattle.model.specs.{Registry.account_of, Standing.standing_of, View.domain_sight};
ghost use Rattle.names.specs.RequestedName.{name_of};
ghost use Rattle.objects.specs.Sight.{contact_as};
ghost use Rattle.protocol.specs.Requests as requests;
ghost use Rattle.books.specs.Lookups as lookups;
ghost use Rattle.states.specs.States.{Finds};

use crate::records::Records;
use accounts::{Account, Lines, Message};
use basis::list::Seq;
use basis::registrar::RegistrarNo;
use basis::text::Text;
use facts::{
    AccountFacts, ContactFacts, DomainFacts, Facts, HOLDING_LIMIT, HostFacts, OldestMessage,
    QueueFacts, Superordinate,
};
use lifecycle::{GivenBack, RunningRefund, given_back, standing};
use model::Object;
use names::{RequestedName, last_two_labels};
use objects::{Contact, ContactFace, Domain, DomainFace, FullDomain, ObjectKind, Seen, Standing};
use policy::Policy;
use protocol::{Command, Request};
use states::BookFault;
use std::alloc::{AllocError, Global};

/// The facts that bear on a registrar's command.
pub(crate) fn facts_for<R: Records>(
    records: &mut R,
    caller: RegistrarNo,
    command: &Command,
    policy: &Policy,
) -> Result<Facts, BookFault>
    ensures { Finds result (facts.facts policy.now caller command.now
        (R.kept records.old).content.registry) (R.kept records.old) (R.kept records.new) }
{
    let missing = reference_missing(records, command)?;
    let limit = holding_limit_reached(records, caller, command)?;
    let account = account_facts(records, caller, command)?;
    let (contacts, domains, hosts) = objects_for(records, caller, command, policy)?;
    let queue = queue_facts(records, caller, command)?;
    let at_new_name = new_name_for(records, command)?;
    Ok(Facts {
        account,
        queue,
        contacts,
        domains,
        hosts,
        at_new_name,
        reference_missing: missing,
        holding_limit_reached: limit,
    })
}

/// What there is of the contacts, the domains and the hosts that the command asks for.
fn objects_for<R: Records>(
    records: &mut R,
    caller: RegistrarNo,
    command: &Command,
    policy: &Policy,
) -> Result<(Seq<ContactFacts>, Seq<DomainFacts>, Seq<HostFacts>), BookFault>
    ensures { Finds result
        (lookups.objects_known (facts.facts policy.now caller command.now
        (R.kept records.old).content.registry)) (R.kept records.old) (R.kept records.new) }
{
    let hosts = hosts_for(records, command)?;
    let contacts = contacts_for(records, caller, command, policy)?;
    let domains = domains_for(records, caller, command, policy)?;
    Ok((contacts, domains, hosts))
}

// ---- the account

fn account_facts<R: Records>(
    records: &mut R,
    registrar: RegistrarNo,
    command: &Command,
) -> Result<AccountFacts, BookFault>
    ensures { Finds result (facts.account_facts command.now
        (account_of registrar (R.kept records.old).content.registry)) (R.kept records.old)
        (R.kept records.new) }
{
    let counters = records.counters(registrar)?;
    let balance = known_balance(records, registrar, command)?;
    Ok(AccountFacts {
        commands: counters.commands,
        serial: counters.serial,
        balance,
    })
}

/// What the account has, where the command asks.
fn known_balance<R: Records>(
    records: &mut R,
    registrar: RegistrarNo,
    command: &Command,
) -> Result<i128, BookFault>
    ensures { Finds result (facts.balance_asked command.now
        (account_of registrar (R.kept records.old).content.registry)) (R.kept records.old)
        (R.kept records.new) }
{
    if !command.reads_balance() {
        return Ok(0);
    }
    records.balance(registrar)
}

/// What waits for the caller, where the command asks.
fn queue_facts<R: Records>(
    records: &mut R,
    caller: RegistrarNo,
    command: &Command,
) -> Result<QueueFacts, BookFault>
    ensures { Finds result
        (facts.queue_asked command.now (account_of caller (R.kept records.old).content.registry))
        (R.kept records.old) (R.kept records.new) }
{
    if !command.reads_oldest_message() {
        return Ok(QueueFacts::none());
    }
    queue_known(records, caller)
}

fn queue_known<R: Records>(records: &mut R, registrar: RegistrarNo) -> Result<QueueFacts, BookFault>
    ensures { Finds result
        (facts.queue_known (account_of registrar (R.kept records.old).content.registry).queue)
        (R.kept records.old) (R.kept records.new) }
{
    let waiting = records.waiting(registrar)?;
    let oldest = records.oldest(registrar)?;
    let oldest = oldest_message(records.alloc(), oldest)?;
    Ok(QueueFacts { oldest, waiting })
}

fn oldest_message(
    alloc: Global,
    message: Option<Message>,
) -> Result<Option<OldestMessage>, AllocError>
    ensures { IfOk result (λ oldest. oldest ≡ option_map facts.oldest_message message) }
{
    match message {
        None => Ok(None),
        Some(message) => {
            let id = message.id(alloc)?;
            Ok(Some(OldestMessage { id, message }))
        }
    }
}

// ---- contacts

fn contacts_for<R: Records>(
    records: &mut R,
    caller: RegistrarNo,
    command: &Command,
    policy: &Policy,
) -> Result<Seq<ContactFacts>, BookFault>
    ensures { Finds result
        (map (facts.contact_facts (facts.lookups policy.now caller command.now
        (R.kept records.old).content.registry) command.now)
        (requests.asked [] requests.contacts_asked command.now)) (R.kept records.old)
        (R.kept records.new) }
{
    let mut contacts = Seq::new(records.alloc());
    for name in command.contacts() {
        contacts.push(contact_facts(records, caller, command, policy, name)?)?;
    }
    Ok(contacts)
}

fn contact_facts<R: Records>(
    records: &mut R,
    caller: RegistrarNo,
    command: &Command,
    policy: &Policy,
    name: &Text,
) -> Result<ContactFacts, BookFault>
    ensures { Finds result (facts.contact_facts (facts.lookups policy.now caller command.now
        (R.kept records.old).content.registry) command.now name.now) (R.kept records.old)
        (R.kept records.new) }
{
    let own = name.clone()?;
    let presented = command.presented_for_contact(name);
    let linked = is_linked_contact(records, command, name)?;
    let seen = contact_seen(records, caller, presented, name)?;
    Ok(ContactFacts {
        name: own,
        seen,
        linked,
    })
}

/// What the registrar sees at a contact's name, with a secret or none.
fn contact_seen<R: Records>(
    records: &mut R,
    caller: RegistrarNo,
    presented: Option<&Text>,
    name: &Text,
) -> Result<Option<Seen<Contact, ContactFace>>, BookFault>
    ensures { Finds result (option_map (contact_as caller (option_copied presented.entry))
        (finmap.get (R.kept records.old).content.registry.contacts name.now)) (R.kept records.old)
        (R.kept records.new) }
{
    let contact = records.contact(name)?;
    let seen = found_contact(records, caller, presented, &contact);
    drop(contact);
    seen
}

fn found_contact<R: Records>(
    records: &mut R,
    caller: RegistrarNo,
    presented: Option<&Text>,
    contact: &Option<Contact>,
) -> Result<Option<Seen<Contact, ContactFace>>, BookFault>
    ensures { Finds result (option_map (contact_as caller (option_copied presented.entry))
        contact.now) (R.kept records.old) (R.kept records.new) }
{
    match contact {
        None => Ok(None),
        Some(contact) => Ok(Some(contact.seen_by(records.alloc(), caller, presented)?)),
    }
}

/// Whether a domain names the contact, where the command asks.
fn is_linked_contact<R: Records>(
    records: &mut R,
    command: &Command,
    name: &Text,
) -> Result<bool, BookFault>
    ensures { Finds result (requests.asked false requests.reads_associations command.now
        && facts.is_linked_contact (R.kept records.old).content.registry name.now)
        (R.kept records.old) (R.kept records.new) }
{
    if !command.reads_associations() {
        return Ok(false);
    }
    records.is_linked_contact(name)
}

// ---- domains

fn domains_for<R: Records>(
    records: &mut R,
    caller: RegistrarNo,
    command: &Command,
    policy: &Policy,
) -> Result<Seq<DomainFacts>, BookFault>
    ensures { Finds result
        (map (λ name. facts.domain_facts (facts.lookups policy.now caller command.now
        (R.kept records.old).content.registry) command.now (name_of name))
        (requests.asked [] requests.domains_asked command.now)) (R.kept records.old)
        (R.kept records.new) }
{
    let mut domains = Seq::new(records.alloc());
    for name in command.domains() {
        domains.push(domain_facts(records, caller, command, policy, name.text())?)?;
    }
    Ok(domains)
}

fn domain_facts<R: Records>(
    records: &mut R,
    caller: RegistrarNo,
    command: &Command,
    policy: &Policy,
    name: &Text,
) -> Result<DomainFacts, BookFault>
    ensures { Finds result (facts.domain_facts (facts.lookups policy.now caller command.now
        (R.kept records.old).content.registry) command.now name.now) (R.kept records.old)
        (R.kept records.new) }
{
    let presented = command.presented(name);
    let seen = domain_seen(records, caller, policy, presented, name)?;
    domain_facts_of(records, caller, command, policy, name, seen)
}

/// The facts of a domain's name at which the registrar sees this, or nothing.
fn domain_facts_of<R: Records>(
    records: &mut R,
    caller: RegistrarNo,
    command: &Command,
    policy: &Policy,
    name: &Text,
    seen: Option<Seen<FullDomain, DomainFace>>,
) -> Result<DomainFacts, BookFault>
    ensures { Finds result (facts.domain_facts_of (facts.lookups policy.now caller command.now
        (R.kept records.old).content.registry) command.now name.now seen) (R.kept records.old)
        (R.kept records.new) }
{
    match beside_domain(records, caller, command, policy, name, seen.as_ref()) {
        Ok((name, subordinate, given_back)) => Ok(DomainFacts {
            name,
            seen,
            subordinate,
            given_back,
        }),
        Err(fault) => {
            drop(seen);
            Err(fault)
        }
    }
}

/// What the facts of a domain's name say besides what is seen there: the name, the hosts below it and
/// what is given back.
fn beside_domain<R: Records>(
    records: &mut R,
    caller: RegistrarNo,
    command: &Command,
    policy: &Policy,
    name: &Text,
    seen: Option<&Seen<FullDomain, DomainFace>>,
) -> Result<(Text, Seq<Text>, GivenBack), BookFault>
    ensures { Finds result
        (lookups.beside_domain (facts.domain_facts_of (facts.lookups policy.now caller command.now
        (R.kept records.old).content.registry) command.now name.now (option_copied seen.entry)))
        (R.kept records.old) (R.kept records.new) }
{
    let subordinate = hosts_around(records, command, name, seen.is_some())?;
    let given_back = back_asked(records, caller, command, policy, seen)?;
    Ok((name.clone()?, subordinate, given_back))
}

/// What the registrar sees at a domain's name, with a secret or none.
fn domain_seen<R: Records>(
    records: &mut R,
    caller: RegistrarNo,
    policy: &Policy,
    presented: Option<&Text>,
    name: &Text,
) -> Result<Option<Seen<FullDomain, DomainFace>>, BookFault>
    ensures { Finds result
        (option_map (domain_sight policy.now caller (R.kept records.old).content.registry
        (option_copied presented.entry)) (finmap.get (R.kept records.old).content.registry.domains
        name.now)) (R.kept records.old) (R.kept records.new) }
{
    let domain = records.domain(name)?;
    let seen = found_domain(records, caller, policy, presented, &domain);
    drop(domain);
    seen
}

fn found_domain<R: Records>(
    records: &mut R,
    caller: RegistrarNo,
    policy: &Policy,
    presented: Option<&Text>,
    domain: &Option<Domain>,
) -> Result<Option<Seen<FullDomain, DomainFace>>, BookFault>
    ensures { Finds result
        (option_map (domain_sight policy.now caller (R.kept records.old).content.registry
        (option_copied presented.entry)) domain.now) (R.kept records.old) (R.kept records.new) }
{
    let Some(domain) = domain else {
        return Ok(None);
    };
    let standing = standing_now(records, policy, domain)?;
    let seen = domain.seen_by(records.alloc(), caller, presented, standing)?;
    Ok(Some(seen))
}

/// The graces that run for a domain, and the phase of its deletion.
pub(crate) fn standing_now<R: Records>(
    records: &mut R,
    policy: &Policy,
    domain: &Domain,
) -> Result<Standing, BookFault>
    ensures { Finds result (standing_of policy.now (R.kept records.old).content.registry domain.now)
        (R.kept records.old) (R.kept records.new) }
{
    let clock = records.clock()?;
    let lines = records.lines_on(domain.sponsor, &domain.roid)?;
    let sponsor = account_with(records.alloc(), lines);
    Ok(standing(domain, Some(&sponsor), clock, policy))
}

/// An account with these lines and nothing else.
fn account_with(alloc: Global, lines: Lines) -> Account
    ensures { result.lines ≡ lines }
{
    let mut account = Account::empty(alloc);
    account.lines = lines;
    account
}

/// What the caller gets back for a domain that it sees in full, where the command asks. The lines on
/// the domain are gone through then.
fn back_asked<R: Records>(
    records: &mut R,
    caller: RegistrarNo,
    command: &Command,
    policy: &Policy,
    seen: Option<&Seen<FullDomain, DomainFace>>,
) -> Result<GivenBack, BookFault>
    ensures { Finds result
        (facts.back_asked (facts.lookups policy.now caller command.now
        (R.kept records.old).content.registry) command.now (option_copied seen.entry))
        (R.kept records.old) (R.kept records.new) }
{
    match seen {
        Some(Seen::Full(known)) if command.reads_refund() => {
            back_for(records, caller, policy, &known.domain)
        }
        _ => Ok(GivenBack::nothing()),
    }
}

/// What a registrar's account gets back for a domain.
fn back_for<R: Records>(
    records: &mut R,
    registrar: RegistrarNo,
    policy: &Policy,
    domain: &Domain,
) -> Result<GivenBack, BookFault>
    ensures { Finds result
        (refunds.given_back policy.now
        (refunds.refund_at (R.kept records.old).content.registry.clock domain.now)
        (account_of registrar (R.kept records.old).content.registry).lines) (R.kept records.old)
        (R.kept records.new) }
{
    let clock = records.clock()?;
    let lines = records.lines_on(registrar, &domain.roid)?;
    let account = account_with(records.alloc(), lines);
    let refund = RunningRefund::of(domain, clock);
    Ok(given_back(Some(&account), &refund, policy))
}

/// The hosts below a domain that is there, where the command asks.
fn hosts_around<R: Records>(
    records: &mut R,
    command: &Command,
    domain: &Text,
    is_there: bool,
) -> Result<Seq<Text>, BookFault>
    ensures { Finds result (if requests.asked false requests.reads_associations command.now
        && is_there then facts.subordinate (R.kept records.old).content.registry domain.now else [])
        (R.kept records.old) (R.kept records.new) }
{
    if command.reads_associations() && is_there {
        records.hosts_below(domain)
    } else {
        Ok(Seq::new(records.alloc()))
    }
}

// ---- hosts

fn hosts_for<R: Records>(records: &mut R, command: &Command) -> Result<Seq<HostFacts>, BookFault>
    ensures { Finds result
        (map (λ name. lookups.host_facts_in command.now (R.kept records.old).content.registry
        (name_of name)) (requests.asked [] requests.hosts_asked command.now)) (R.kept records.old)
        (R.kept records.new) }
{
    let mut hosts = Seq::new(records.alloc());
    for name in command.hosts() {
        hosts.push(host_facts(records, command, name.text())?)?;
    }
    Ok(hosts)
}

fn new_name_for<R: Records>(
    records: &mut R,
    command: &Command,
) -> Result<Option<HostFacts>, BookFault>
    ensures { Finds result
        (option_map (λ name. lookups.host_facts_in command.now (R.kept records.old).content.registry
        (name_of name)) (requests.asked None requests.new_host_asked command.now))
        (R.kept records.old) (R.kept records.new) }
{
    match command.new_host() {
        None => Ok(None),
        Some(name) => Ok(Some(host_facts(records, command, name.text())?)),
    }
}

fn host_facts<R: Records>(
    records: &mut R,
    command: &Command,
    name: &Text,
) -> Result<HostFacts, BookFault>
    ensures { Finds result (lookups.host_facts_in command.now (R.kept records.old).content.registry
        name.now) (R.kept records.old) (R.kept records.new) }
{
    let own = name.clone()?;
    let superordinate = superordinate(records, name)?;
    let linked = is_linked_host(records, command, name)?;
    let host = records.host(name)?;
    Ok(HostFacts {
        name: own,
        host,
        superordinate,
        linked,
    })
}

/// Whether a domain names the host, where the command asks.
fn is_linked_host<R: Records>(
    records: &mut R,
    command: &Command,
    name: &Text,
) -> Result<bool, BookFault>
    ensures { Finds result (requests.asked false requests.reads_associations command.now
        && facts.is_linked_host (R.kept records.old).content.registry name.now) (R.kept records.old)
        (R.kept records.new) }
{
    if !command.reads_associations() {
        return Ok(false);
    }
    records.is_linked_host(name)
}

/// What the domain is of a host's last two labels, as far as its hosts depend on it.
pub(crate) fn superordinate<R: Records>(
    records: &mut R,
    host: &Text,
) -> Result<Option<Superordinate>, BookFault>
    ensures { Finds result (lookups.superordinate_in (R.kept records.old).content.registry host.now)
        (R.kept records.old) (R.kept records.new) }
{
    let domain = last_two_labels(records.alloc(), host)?;
    superordinate_of(records, &domain)
}

fn superordinate_of<R: Records>(
    records: &mut R,
    domain: &Option<Text>,
) -> Result<Option<Superordinate>, BookFault>
    ensures { Finds result (option_and_then (λ name. option_map facts.superordinate_of_domain
        (finmap.get (R.kept records.old).content.registry.domains name)) domain.now)
        (R.kept records.old) (R.kept records.new) }
{
    match domain {
        None => Ok(None),
        Some(domain) => records.superordinate(domain),
    }
}

// ---- whether what a domain is to name is there, and whether the caller may hold another

/// Whether a contact or host isn't there that a domain is to name from now on.
fn reference_missing<R: Records>(records: &mut R, command: &Command) -> Result<bool, BookFault>
    ensures { Finds result
        (requests.asked false (lookups.references_fail_in (R.kept records.old).content.registry)
        command.now) (R.kept records.old) (R.kept records.new) }
{
    match command.request() {
        None => Ok(false),
        Some(request) => any_reference_missing(records, request),
    }
}

fn any_reference_missing<R: Records>(records: &mut R, request: &Request) -> Result<bool, BookFault>
    ensures { Finds result (lookups.references_fail_in (R.kept records.old).content.registry
        request.now) (R.kept records.old) (R.kept records.new) }
{
    let added = request.added();
    if lacks_registrant(records, request.registrant())? {
        return Ok(true);
    }
    if lacks_contacts(records, added.admin)? {
        return Ok(true);
    }
    if lacks_contacts(records, added.tech)? {
        return Ok(true);
    }
    lacks_hosts(records, added.hosts)
}

fn lacks_contact<R: Records>(records: &mut R, name: &Text) -> Result<bool, BookFault>
    ensures { Finds result
        (not (lookups.has_contact (R.kept records.old).content.registry name.now))
        (R.kept records.old) (R.kept records.new) }
{
    Ok(!records.has_contact(name)?)
}

fn lacks_registrant<R: Records>(records: &mut R, name: Option<&Text>) -> Result<bool, BookFault>
    ensures { Finds result
        (requests.holds_of (λ it. not (lookups.has_contact (R.kept records.old).content.registry
        it)) (option_copied name.entry)) (R.kept records.old) (R.kept records.new) }
{
    match name {
        None => Ok(false),
        Some(name) => lacks_contact(records, name),
    }
}

fn lacks_contacts<R: Records>(records: &mut R, names: &[Text]) -> Result<bool, BookFault>
    ensures { Finds result
        (list_any (λ name. not (lookups.has_contact (R.kept records.old).content.registry name))
        names.now) (R.kept records.old) (R.kept records.new) }
{
    for name in names {
        if lacks_contact(records, name)? {
            return Ok(true);
        }
    }
    Ok(false)
}

fn lacks_host<R: Records>(records: &mut R, name: &Text) -> Result<bool, BookFault>
    ensures { Finds result (not (lookups.has_host (R.kept records.old).content.registry name.now))
        (R.kept records.old) (R.kept records.new) }
{
    Ok(!records.has_host(name)?)
}

fn lacks_hosts<R: Records>(records: &mut R, names: &[RequestedName]) -> Result<bool, BookFault>
    ensures { Finds result
        (list_any (λ name. not (lookups.has_host (R.kept records.old).content.registry
        (name_of name))) names.now) (R.kept records.old) (R.kept records.new) }
{
    for name in names {
        if lacks_host(records, name.text())? {
            return Ok(true);
        }
    }
    Ok(false)
}

/// Whether the caller holds as many domains as it may, where the command gives it another.
fn holding_limit_reached<R: Records>(
    records: &mut R,
    caller: RegistrarNo,
    command: &Command,
) -> Result<bool, BookFault>
    ensures { Finds result (requests.asked false requests.adds_a_held_domain command.now
        && nat_le HOLDING_LIMIT (facts.held caller (R.kept records.old).content.registry))
        (R.kept records.old) (R.kept records.new) }
{
    if !command.adds_a_held_domain() {
        return Ok(false);
    }
    records.is_at_holding_limit(caller)
}

// ---- the object of an order

/// The object of a kind under a name.
pub(crate) fn object_at<R: Records>(
    records: &mut R,
    kind: ObjectKind,
    name: &Text,
) -> Result<Option<Object>, BookFault>
    ensures { Finds result (objects.object_at (R.kept records.old).content.registry kind name.now)
        (R.kept records.old) (R.kept records.new) }
{
    match kind {
        ObjectKind::Contact => match records.contact(name)? {
            None => Ok(None),
            Some(contact) => Ok(Some(Object::Contact(contact))),
        },
        ObjectKind::Domain => match records.domain(name)? {
            None => Ok(None),
            Some(domain) => Ok(Some(Object::Domain(domain))),
        },
        ObjectKind::Host => match records.host(name)? {
            None => Ok(None),
            Some(host) => Ok(Some(Object::Host(host))),
        },
    }
}
