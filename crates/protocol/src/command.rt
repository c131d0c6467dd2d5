//! What a registrar asks.
ghost use Rattle.std.specs.{Prelude.{◌≡◌, [], None, Some, false}, Option.option_copied};
ghost use Rattle.protocol.specs.Requests as spec;

use crate::form::FormFault;
use crate::transfer::TransferOp;
use crate::years::Years;
use basis::list::Seq;
use basis::text::Text;
use calendar::Moment;
use names::RequestedName;
use objects::{Postal, Status};
use std::slice;

/// A registrar's command, with the identifier of its own that the reply repeats (`clTRID`).
#[derive(Drop)]
pub enum Command {
    /// A payload whose form is refused.
    Bad {
        cl_trid: Option<Text>,
        fault: FormFault,
    },
    /// A well formed command.
    Asked {
        cl_trid: Option<Text>,
        request: Request,
    },
}

/// What a command does with its object (RFC 5730, 2.9).
#[derive(Clone, Copy, Drop)]
pub enum Action {
    Logout,
    Balance,
    Check,
    Info,
    Create,
    Delete,
    Update,
    Renew,
    RequestRestore,
    ReportRestore,
    RequestTransfer,
    QueryTransfer,
    ApproveTransfer,
    RejectTransfer,
    CancelTransfer,
    PollRequest,
    PollAck,
}

/// What a well formed command asks for.
#[derive(Drop)]
pub enum Request {
    /// The session is to end (RFC 5730, 2.9.1.2).
    Logout,
    /// What the registrar's account has.
    Balance,
    /// Which of the names could be created (RFC 5733, 3.1.1).
    CheckContact {
        names: Seq<Text>,
    },
    /// Which of the names could be created (RFC 5731, 3.1.1).
    CheckDomain {
        names: Seq<RequestedName>,
    },
    /// Which of the names could be created (RFC 5732, 3.1.1).
    CheckHost {
        names: Seq<RequestedName>,
    },
    /// What a contact is (RFC 5733, 3.1.2), with its secret where that is presented.
    InfoContact {
        name: Text,
        secret: Option<Text>,
    },
    /// What a domain is (RFC 5731, 3.1.2), with its secret where that is presented.
    InfoDomain {
        name: RequestedName,
        secret: Option<Text>,
    },
    /// What a host is (RFC 5732, 3.1.2).
    InfoHost {
        name: RequestedName,
    },
    /// A new contact (RFC 5733, 3.2.1).
    CreateContact(NewContact),
    /// A new domain (RFC 5731, 3.2.1).
    CreateDomain(NewDomain),
    /// A new host (RFC 5732, 3.2.1).
    CreateHost(NewHost),
    /// A contact is to go (RFC 5733, 3.2.2).
    DeleteContact {
        name: Text,
    },
    /// A domain is to go (RFC 5731, 3.2.2).
    DeleteDomain {
        name: RequestedName,
    },
    /// A host is to go (RFC 5732, 3.2.2).
    DeleteHost {
        name: RequestedName,
    },
    /// A contact is to change (RFC 5733, 3.2.5).
    UpdateContact(ContactUpdate),
    /// A domain is to change (RFC 5731, 3.2.5).
    UpdateDomain(DomainUpdate),
    /// A host is to change (RFC 5732, 3.2.5).
    UpdateHost(HostUpdate),
    /// A domain is to be registered for longer (RFC 5731, 3.2.3).
    RenewDomain {
        name: RequestedName,
        /// The date on which it expires now, `YYYY-MM-DD`.
        expires: Text,
        years: Years,
    },
    /// A deleted domain is to come back (RFC 3915, 4.2.5, `request`).
    RequestRestore {
        name: RequestedName,
    },
    /// The report on a domain that is to come back (RFC 3915, 4.2.5, `report`). What else it says was
    /// looked at and isn't kept.
    ReportRestore {
        name: RequestedName,
        /// When the domain was deleted.
        del_time: Moment,
        /// When its restoration was asked for.
        res_time: Moment,
    },
    /// A transfer of a contact (RFC 5733, 3.1.3 and 3.2.4).
    TransferContact {
        name: Text,
        op: TransferOp,
        /// Presented with a request, and with a query where the caller does so.
        secret: Option<Text>,
    },
    /// A transfer of a domain (RFC 5731, 3.1.3 and 3.2.4).
    TransferDomain {
        name: RequestedName,
        op: TransferOp,
        /// Presented with a request, and with a query where the caller does so.
        secret: Option<Text>,
    },
    /// The oldest message (RFC 5730, 2.9.2.3, `req`).
    PollRequest,
    /// A message was read (RFC 5730, 2.9.2.3, `ack`).
    PollAck {
        id: Text,
    },
}

/// What a new contact is to have.
#[derive(Drop)]
pub struct NewContact {
    pub name: Text,
    pub postal: Postal,
    pub voice: Option<Text>,
    pub mail: Text,
    pub secret: Text,
}

/// What a new domain is to have. The lists are as they were sent.
#[derive(Drop)]
pub struct NewDomain {
    pub name: RequestedName,
    pub years: Years,
    pub registrant: Text,
    pub admin: Seq<Text>,
    pub tech: Seq<Text>,
    pub hosts: Seq<RequestedName>,
    pub secret: Text,
}

/// What a new host is to have. The addresses are as they were sent, in canonical text.
#[derive(Drop)]
pub struct NewHost {
    pub name: RequestedName,
    pub addresses: Seq<Text>,
}

/// What of a contact is to change. What isn't given stays.
#[derive(Drop)]
pub struct ContactUpdate {
    pub name: Text,
    /// Statuses to set.
    pub add: Seq<Status>,
    /// Statuses to take away.
    pub rem: Seq<Status>,
    pub postal: Option<Postal>,
    pub voice: Option<Text>,
    pub mail: Option<Text>,
    pub secret: Option<Text>,
}

/// What of a domain is to change. What isn't given stays.
#[derive(Drop)]
pub struct DomainUpdate {
    pub name: RequestedName,
    pub add: DomainLists,
    pub rem: DomainLists,
    pub registrant: Option<Text>,
    pub secret: Option<Text>,
}

/// What an update adds to the lists of a domain, or removes from them, as it was sent.
#[derive(Drop)]
pub struct DomainLists {
    pub hosts: Seq<RequestedName>,
    pub admin: Seq<Text>,
    pub tech: Seq<Text>,
    pub statuses: Seq<Status>,
}

/// What of a host is to change. What isn't given stays.
#[derive(Drop)]
pub struct HostUpdate {
    pub name: RequestedName,
    pub add: HostLists,
    pub rem: HostLists,
    pub new_name: Option<RequestedName>,
}

/// What an update adds to the lists of a host, or removes from them, as it was sent: addresses in
/// canonical text.
#[derive(Drop)]
pub struct HostLists {
    pub addresses: Seq<Text>,
    pub statuses: Seq<Status>,
}

impl Request {
    /// What it does with its object.
    pub fn action(&self) -> Action
        ensures { result ≡ (spec.asks_of self.now).action }
    {
        match self {
            Request::Logout => Action::Logout,
            Request::Balance => Action::Balance,
            Request::CheckContact { .. }
            | Request::CheckDomain { .. }
            | Request::CheckHost { .. } => Action::Check,
            Request::InfoContact { .. } | Request::InfoDomain { .. } | Request::InfoHost { .. } =>
                Action::Info,
            Request::CreateContact(_) | Request::CreateDomain(_) | Request::CreateHost(_) => {
                Action::Create
            }
            Request::DeleteContact { .. }
            | Request::DeleteDomain { .. }
            | Request::DeleteHost { .. } => Action::Delete,
            Request::UpdateContact(_) | Request::UpdateDomain(_) | Request::UpdateHost(_) => {
                Action::Update
            }
            Request::RenewDomain { .. } => Action::Renew,
            Request::RequestRestore { .. } => Action::RequestRestore,
            Request::ReportRestore { .. } => Action::ReportRestore,
            Request::TransferContact { op, .. } => op.action(),
            Request::TransferDomain { op, .. } => op.action(),
            Request::PollRequest => Action::PollRequest,
            Request::PollAck { .. } => Action::PollAck,
        }
    }

    /// The contacts that it acts on.
    pub fn contacts(&self) -> &[Text]
        ensures { result.now ≡ spec.contacts_asked self.now }
    {
        match self {
            Request::CheckContact { names } => names.as_slice(),
            Request::InfoContact { name, .. } => slice::from_ref(name),
            Request::CreateContact(new) => slice::from_ref(&new.name),
            Request::DeleteContact { name } => slice::from_ref(name),
            Request::UpdateContact(update) => slice::from_ref(&update.name),
            Request::TransferContact { name, .. } => slice::from_ref(name),
            _ => &[],
        }
    }

    /// The domains that it acts on.
    pub fn domains(&self) -> &[RequestedName]
        ensures { result.now ≡ spec.domains_asked self.now }
    {
        match self {
            Request::CheckDomain { names } => names.as_slice(),
            Request::InfoDomain { name, .. } => slice::from_ref(name),
            Request::CreateDomain(new) => slice::from_ref(&new.name),
            Request::DeleteDomain { name } => slice::from_ref(name),
            Request::UpdateDomain(update) => slice::from_ref(&update.name),
            Request::RenewDomain { name, .. } => slice::from_ref(name),
            Request::RequestRestore { name } => slice::from_ref(name),
            Request::ReportRestore { name, .. } => slice::from_ref(name),
            Request::TransferDomain { name, .. } => slice::from_ref(name),
            _ => &[],
        }
    }

    /// The hosts that it acts on.
    pub fn hosts(&self) -> &[RequestedName]
        ensures { result.now ≡ spec.hosts_asked self.now }
    {
        match self {
            Request::CheckHost { names } => names.as_slice(),
            Request::InfoHost { name } => slice::from_ref(name),
            Request::CreateHost(new) => slice::from_ref(&new.name),
            Request::DeleteHost { name } => slice::from_ref(name),
            Request::UpdateHost(update) => slice::from_ref(&update.name),
            _ => &[],
        }
    }

    /// The name that a host is to have.
    pub fn new_host(&self) -> Option<&RequestedName>
        ensures { option_copied result ≡ spec.new_host_asked self.now }
    {
        match self {
            Request::UpdateHost(update) => update.new_name.as_ref(),
            _ => None,
        }
    }

    /// The registrant that a domain is to have.
    pub fn registrant(&self) -> Option<&Text>
        ensures { option_copied result ≡ (spec.asks_of self.now).registrant }
    {
        match self {
            Request::CreateDomain(new) => Some(&new.registrant),
            Request::UpdateDomain(update) => update.registrant.as_ref(),
            _ => None,
        }
    }

    /// The years that it is charged for, where it says so: those that it names, and the one of a
    /// domain's transfer. None for most.
    pub fn years(&self) -> u32
        ensures { result ≡ (spec.asks_of self.now).years }
    {
        match self {
            Request::CreateDomain(new) => new.years.number(),
            Request::RenewDomain { years, .. } => years.number(),
            Request::TransferDomain { op, .. } => op.years(),
            _ => 0,
        }
    }

    /// The date on which it takes its domain to expire.
    pub fn expires(&self) -> Option<&Text>
        ensures { option_copied result ≡ (spec.asks_of self.now).expires }
    {
        match self {
            Request::RenewDomain { expires, .. } => Some(expires),
            _ => None,
        }
    }

    /// When its domain was deleted, as it reports.
    pub fn del_time(&self) -> Option<Moment>
        ensures { result ≡ (spec.asks_of self.now).del_time }
    {
        match self {
            Request::ReportRestore { del_time, .. } => Some(*del_time),
            _ => None,
        }
    }

    /// When the restoration of its domain was asked for, as it reports.
    pub fn res_time(&self) -> Option<Moment>
        ensures { result ≡ (spec.asks_of self.now).res_time }
    {
        match self {
            Request::ReportRestore { res_time, .. } => Some(*res_time),
            _ => None,
        }
    }

    /// The message that was read.
    pub fn message(&self) -> Option<&Text>
        ensures { option_copied result ≡ (spec.asks_of self.now).message }
    {
        match self {
            Request::PollAck { id } => Some(id),
            _ => None,
        }
    }

    /// The secret that it presents.
    pub fn secret(&self) -> Option<&Text>
        ensures { option_copied result ≡ (spec.asks_of self.now).secret }
    {
        match self {
            Request::InfoContact { secret, .. } => secret.as_ref(),
            Request::InfoDomain { secret, .. } => secret.as_ref(),
            Request::TransferContact { secret, .. } => secret.as_ref(),
            Request::TransferDomain { secret, .. } => secret.as_ref(),
            _ => None,
        }
    }

    /// Whether it has to know what domains name, or which hosts lie below one.
    fn reads_associations(&self) -> bool
        ensures { result ≡ spec.reads_associations self.now }
    {
        matches!(
            self,
            Request::InfoContact { .. }
                | Request::InfoDomain { .. }
                | Request::InfoHost { .. }
                | Request::DeleteContact { .. }
                | Request::DeleteDomain { .. }
                | Request::DeleteHost { .. }
        )
    }

    /// Whether it gives the registrar one domain more to hold.
    fn adds_a_held_domain(&self) -> bool
        ensures { result ≡ spec.adds_a_held_domain self.now }
    {
        match self {
            Request::CreateDomain(_) => true,
            Request::TransferDomain { op, .. } => op.is_request(),
            _ => false,
        }
    }

    /// Whether it has to know what the registrar's account has.
    fn reads_balance(&self) -> bool
        ensures { result ≡ spec.reads_balance self.now }
    {
        match self {
            Request::Balance
            | Request::CreateDomain(_)
            | Request::RenewDomain { .. }
            | Request::ReportRestore { .. } => true,
            Request::TransferDomain { op, .. } => op.is_request(),
            _ => false,
        }
    }

    /// Whether it has to know the oldest message to the registrar, and how many wait.
    fn reads_oldest_message(&self) -> bool
        ensures { result ≡ spec.reads_oldest_message self.now }
    {
        matches!(self, Request::PollRequest | Request::PollAck { .. })
    }

    /// Whether it has to know what is given back where its domain is deleted.
    fn reads_refund(&self) -> bool
        ensures { result ≡ spec.reads_refund self.now }
    {
        matches!(self, Request::DeleteDomain { .. })
    }

    /// The secret that it presents for a domain.
    fn presented(&self, domain: &Text) -> Option<&Text>
        ensures { option_copied result ≡ spec.domain_secret_asked self.now domain.now }
    {
        let secret = self.secret()?;
        match self.domains().first() {
            Some(name) if *name.text() == *domain => Some(secret),
            _ => None,
        }
    }

    /// The secret that it presents for a contact.
    fn presented_for_contact(&self, contact: &Text) -> Option<&Text>
        ensures { option_copied result ≡ spec.contact_secret_asked self.now contact.now }
    {
        let secret = self.secret()?;
        match self.contacts().first() {
            Some(name) if *name == *contact => Some(secret),
            _ => None,
        }
    }
}

impl Command {
    /// The command's own identifier.
    pub fn cl_trid(&self) -> &Option<Text>
        ensures { result.now ≡ spec.cl_trid_of self.now }
    {
        match self {
            Command::Bad { cl_trid, .. } => cl_trid,
            Command::Asked { cl_trid, .. } => cl_trid,
        }
    }

    /// What a well formed command asks for.
    pub fn request(&self) -> Option<&Request>
        ensures { option_copied result ≡ spec.asked None (λ request. Some request) self.now }
    {
        match self {
            Command::Bad { .. } => None,
            Command::Asked { request, .. } => Some(request),
        }
    }

    /// The contacts that it acts on.
    pub fn contacts(&self) -> &[Text]
        ensures { result.now ≡ spec.asked [] spec.contacts_asked self.now }
    {
        match self {
            Command::Bad { .. } => &[],
            Command::Asked { request, .. } => request.contacts(),
        }
    }

    /// The domains that it acts on.
    pub fn domains(&self) -> &[RequestedName]
        ensures { result.now ≡ spec.asked [] spec.domains_asked self.now }
    {
        match self {
            Command::Bad { .. } => &[],
            Command::Asked { request, .. } => request.domains(),
        }
    }

    /// The hosts that it acts on.
    pub fn hosts(&self) -> &[RequestedName]
        ensures { result.now ≡ spec.asked [] spec.hosts_asked self.now }
    {
        match self {
            Command::Bad { .. } => &[],
            Command::Asked { request, .. } => request.hosts(),
        }
    }

    /// The name that a host is to have.
    pub fn new_host(&self) -> Option<&RequestedName>
        ensures { option_copied result ≡ spec.asked None spec.new_host_asked self.now }
    {
        match self {
            Command::Bad { .. } => None,
            Command::Asked { request, .. } => request.new_host(),
        }
    }

    /// Whether it has to know what domains name, or which hosts lie below one.
    pub fn reads_associations(&self) -> bool
        ensures { result ≡ spec.asked false spec.reads_associations self.now }
    {
        match self {
            Command::Bad { .. } => false,
            Command::Asked { request, .. } => request.reads_associations(),
        }
    }

    /// Whether it gives the registrar one domain more to hold.
    pub fn adds_a_held_domain(&self) -> bool
        ensures { result ≡ spec.asked false spec.adds_a_held_domain self.now }
    {
        match self {
            Command::Bad { .. } => false,
            Command::Asked { request, .. } => request.adds_a_held_domain(),
        }
    }

    /// Whether it has to know what the registrar's account has.
    pub fn reads_balance(&self) -> bool
        ensures { result ≡ spec.asked false spec.reads_balance self.now }
    {
        match self {
            Command::Bad { .. } => false,
            Command::Asked { request, .. } => request.reads_balance(),
        }
    }

    /// Whether it has to know what is given back where its domain is deleted.
    pub fn reads_refund(&self) -> bool
        ensures { result ≡ spec.asked false spec.reads_refund self.now }
    {
        match self {
            Command::Bad { .. } => false,
            Command::Asked { request, .. } => request.reads_refund(),
        }
    }

    /// Whether it has to know the oldest message to the registrar, and how many wait.
    pub fn reads_oldest_message(&self) -> bool
        ensures { result ≡ spec.asked false spec.reads_oldest_message self.now }
    {
        match self {
            Command::Bad { .. } => false,
            Command::Asked { request, .. } => request.reads_oldest_message(),
        }
    }

    /// The secret that it presents for a domain.
    pub fn presented(&self, domain: &Text) -> Option<&Text>
        ensures { option_copied result ≡ spec.presented self.now domain.now }
    {
        match self {
            Command::Bad { .. } => None,
            Command::Asked { request, .. } => request.presented(domain),
        }
    }

    /// The secret that it presents for a contact.
    pub fn presented_for_contact(&self, contact: &Text) -> Option<&Text>
        ensures { option_copied result ≡ spec.presented_contact self.now contact.now }
    {
        match self {
            Command::Bad { .. } => None,
            Command::Asked { request, .. } => request.presented_for_contact(contact),
        }
    }
}

impl HostUpdate {
    /// The name that the host has afterwards.
    pub fn final_name(&self) -> &Text
        ensures { result.now ≡ spec.final_name self.now self.now.new_name }
    {
        match &self.new_name {
            None => self.name.text(),
            Some(name) => name.text(),
        }
    }
}
