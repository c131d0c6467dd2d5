//! What a command is judged by.
ghost use Rattle.std.specs.{Prelude.{◌≡◌, IfOk, is_some}, Option.option_copied};
ghost use Rattle.accounts.specs.Account.{saturating_next};
ghost use Rattle.facts.specs.Facts as spec;

use crate::lists::{Named, find_named};
use accounts::{Message, Queue, saturating_next};
use basis::list::Seq;
use basis::registrar::RegistrarNo;
use basis::text::Text;
use lifecycle::GivenBack;
use names::Zone;
use objects::{Contact, ContactFace, DomainFace, FullDomain, Host, Seen};
use std::alloc::{AllocError, Global};

/// A registrar that holds so many domains gets no other (RFC 5730, 3, code 2308).
pub const HOLDING_LIMIT: usize = 1_000_000;

/// The caller's account, as far as commands depend on it.
#[derive(Clone, Copy, Drop)]
pub struct AccountFacts {
    pub commands: u64,
    pub serial: u64,
    /// What it has, in whole cents, where the command asks.
    pub balance: i128,
}

impl AccountFacts {
    /// The number of the caller's next object.
    pub fn next_serial(&self) -> u64
        ensures { result ≡ saturating_next self.now.serial }
    {
        saturating_next(self.serial)
    }

    /// The number of the caller's next command.
    pub fn next_command(&self) -> u64
        ensures { result ≡ saturating_next self.now.commands }
    {
        saturating_next(self.commands)
    }
}

/// The message that a poll shows, with its identifier.
#[derive(Drop)]
pub struct OldestMessage {
    pub id: Text,
    pub message: Message,
}

/// What waits for the caller, where the command asks.
#[derive(Drop)]
pub struct QueueFacts {
    pub oldest: Option<OldestMessage>,
    /// How many messages wait.
    pub waiting: u64,
}

impl QueueFacts {
    /// Where the command doesn't ask.
    pub fn none() -> QueueFacts
        ensures { result ≡ spec.no_queue }
    {
        QueueFacts {
            oldest: None,
            waiting: 0,
        }
    }

    /// What waits in a queue.
    pub fn of(alloc: Global, queue: &Queue) -> Result<QueueFacts, AllocError>
        ensures { IfOk result (λ known. known ≡ spec.queue_known queue.now) }
    {
        let waiting = queue.waiting() as u64;
        match queue.oldest() {
            None => Ok(QueueFacts {
                oldest: None,
                waiting,
            }),
            Some(message) => Ok(QueueFacts {
                oldest: Some(oldest_message(alloc, message)?),
                waiting,
            }),
        }
    }
}

fn oldest_message(alloc: Global, message: &Message) -> Result<OldestMessage, AllocError>
    ensures { IfOk result (λ oldest. oldest ≡ spec.oldest_message message.now) }
{
    let id = message.id(alloc)?;
    Ok(OldestMessage {
        id,
        message: message.clone()?,
    })
}

/// What the caller sees at a contact's name, and whether a domain names it, where the command asks.
#[derive(Drop)]
pub struct ContactFacts {
    pub name: Text,
    pub seen: Option<Seen<Contact, ContactFace>>,
    pub linked: bool,
}

/// What the caller sees at a domain's name. If the command asks for them, also the hosts below a domain
/// that is there, and what the caller gets back if it deletes the domain.
#[derive(Drop)]
pub struct DomainFacts {
    pub name: Text,
    pub seen: Option<Seen<FullDomain, DomainFace>>,
    pub subordinate: Seq<Text>,
    pub given_back: GivenBack,
}

/// What everyone may know of a superordinate domain.
#[derive(Clone, Copy, Drop)]
pub struct Superordinate {
    pub sponsor: RegistrarNo,
    pub is_deleted: bool,
}

/// What there is at a host's name and at its last two labels, and whether a domain names it, where
/// the command asks.
#[derive(Drop)]
pub struct HostFacts {
    pub name: Text,
    pub host: Option<Host>,
    pub superordinate: Option<Superordinate>,
    pub linked: bool,
}

/// The facts of a registry that bear on one command. They hold nothing that the caller may not see.
#[derive(Drop)]
pub struct Facts {
    pub account: AccountFacts,
    pub queue: QueueFacts,
    pub contacts: Seq<ContactFacts>,
    pub domains: Seq<DomainFacts>,
    pub hosts: Seq<HostFacts>,
    /// At the name that a host is to have.
    pub at_new_name: Option<HostFacts>,
    /// Whether a contact or host isn't there that a domain is to name from now on.
    pub reference_missing: bool,
    /// Whether the caller holds as many domains as it may, where the command gives it another.
    pub holding_limit_reached: bool,
}

impl Named for ContactFacts {
    ghost name = { λ known. known.name };

    fn name(&self) -> &Text {
        &self.name
    }
}

impl Named for DomainFacts {
    ghost name = { λ known. known.name };

    fn name(&self) -> &Text {
        &self.name
    }
}

impl Named for HostFacts {
    ghost name = { λ known. known.name };

    fn name(&self) -> &Text {
        &self.name
    }
}

impl HostFacts {
    /// The host's sponsor: of one in the zone, its superordinate domain's; of another, the registrar
    /// that created it or last renamed it.
    pub fn sponsor(&self, zone: &Zone, host: &Host) -> Option<RegistrarNo>
        ensures { result ≡ spec.host_sponsor zone.now self.now host.now }
    {
        if zone.has_superordinate(&self.name) {
            self.superordinate.map(|above| above.sponsor)
        } else {
            host.external_sponsor
        }
    }
}

impl Facts {
    /// What is known at a contact's name.
    pub fn contact(&self, name: &Text) -> Option<&ContactFacts>
        ensures { option_copied result ≡ spec.contact_at self.now name.now }
    {
        find_named(self.contacts.as_slice(), name)
    }

    /// What is known at a domain's name.
    pub fn domain(&self, name: &Text) -> Option<&DomainFacts>
        ensures { option_copied result ≡ spec.domain_at self.now name.now }
    {
        find_named(self.domains.as_slice(), name)
    }

    /// What is known at a host's name.
    pub fn host(&self, name: &Text) -> Option<&HostFacts>
        ensures { option_copied result ≡ spec.host_at self.now name.now }
    {
        find_named(self.hosts.as_slice(), name)
    }

    /// What is seen at a contact's name.
    pub fn contact_seen(&self, name: &Text) -> Option<&Seen<Contact, ContactFace>>
        ensures { option_copied result ≡ spec.contact_seen self.now name.now }
    {
        match self.contact(name) {
            None => None,
            Some(known) => known.seen.as_ref(),
        }
    }

    /// What is seen at a domain's name.
    pub fn domain_seen(&self, name: &Text) -> Option<&Seen<FullDomain, DomainFace>>
        ensures { option_copied result ≡ spec.domain_seen self.now name.now }
    {
        match self.domain(name) {
            None => None,
            Some(known) => known.seen.as_ref(),
        }
    }

    /// The host of a name.
    pub fn host_seen(&self, name: &Text) -> Option<&Host>
        ensures { option_copied result ≡ spec.host_seen self.now name.now }
    {
        match self.host(name) {
            None => None,
            Some(known) => known.host.as_ref(),
        }
    }

    /// Whether there is a host of the new name already.
    pub fn new_name_exists(&self) -> bool
        ensures { result ≡ is_some (spec.new_name_seen self.now) }
    {
        match &self.at_new_name {
            None => false,
            Some(known) => known.host.is_some(),
        }
    }
}
