//! Whether an object concerns a registrar and some names.
ghost use Rattle.std.specs.{Prelude.◌≡◌, List.list_any};
ghost use Rattle.accounts.specs.Lines as lines;
ghost use Rattle.objects.specs.Links.{names_contact, names_host};
ghost use Rattle.concerns.specs.Concerns as spec;

use crate::given::Names;
use accounts::is_same_roid;
use basis::list::Seq;
use basis::registrar::RegistrarNo;
use basis::text::Text;
use objects::{Domain, Links, Roid, Transfer};

/// What is meant by names: the names themselves with those that contacts and domains under them bear,
/// and the identifiers of these domains.
#[derive(Drop)]
pub struct Meant {
    pub contacts: Seq<Text>,
    pub domains: Seq<Text>,
    pub roids: Seq<Roid>,
}

/// Whether a registrar sponsors an object, or a pending transfer brings it there or takes it away.
pub fn is_about(
    caller: Option<RegistrarNo>,
    sponsor: RegistrarNo,
    transfer: &Option<Transfer>,
) -> bool
    ensures { result ≡ spec.is_about caller sponsor transfer.now }
{
    match caller {
        None => false,
        Some(registrar) => sponsor == registrar || is_at_stake(registrar, transfer),
    }
}

fn is_at_stake(registrar: RegistrarNo, transfer: &Option<Transfer>) -> bool
    ensures { result ≡ spec.is_at_stake registrar transfer.now }
{
    match transfer {
        None => false,
        Some(transfer) => transfer.is_pending() && transfer.names(registrar),
    }
}

impl Names {
    /// Whether a domain is the caller's, has one of the identifiers, or names what is named.
    pub fn concern_domain(
        &self,
        caller: Option<RegistrarNo>,
        roids: &[Roid],
        domain: &Domain,
    ) -> bool
        ensures { result ≡ spec.concerns_domain caller self.now roids.now domain.now }
    {
        is_about(caller, domain.sponsor, &domain.transfer)
            || has_roid(roids, &domain.roid)
            || self.has_contact_of(&domain.links)
            || self.has_host_of(&domain.links)
    }

    fn has_contact_of(&self, links: &Links) -> bool
        ensures { result ≡ list_any (λ contact. names_contact contact links.now) self.now.contacts }
    {
        self.contacts
            .as_slice()
            .iter()
            .any(|contact| links.names_contact(contact))
    }

    fn has_host_of(&self, links: &Links) -> bool
        ensures { result ≡ list_any (λ host. names_host host links.now) self.now.hosts }
    {
        self.hosts
            .as_slice()
            .iter()
            .any(|host| links.names_host(host))
    }
}

fn has_roid(roids: &[Roid], roid: &Roid) -> bool
    ensures { result ≡ list_any (lines.is_same_roid roid.now) roids.now }
{
    roids.iter().any(|other| is_same_roid(roid, other))
}
