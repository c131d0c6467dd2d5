//! Domains (RFC 5731).
ghost use Rattle.std.specs.{Prelude.{◌≡◌, ◌==◌, IfOk, filter}, Option.option_copied};
ghost use Rattle.objects.specs.Domains.{shown_expiry, shows, shown, face_of};
ghost use Rattle.objects.specs.Sight.{is_party, authorizes, domain_as};
ghost use Rattle.objects.specs.Transfers as transfers;

use crate::grace::Standing;
use crate::roid::Roid;
use crate::sight::{self, Seen};
use crate::status::{ALL, Status, has_status};
use crate::transfer::Transfer;
use basis::list::Seq;
use basis::registrar::RegistrarNo;
use basis::text::Text;
use calendar::Moment;
use std::alloc::{AllocError, Global};

/// The contacts and hosts that a domain names. Commands keep each list in the order of its bytes, and
/// refuse one that names one thing twice; a value of this type may be otherwise.
#[derive(Clone, Drop)]
pub struct Links {
    pub registrant: Text,
    pub admin: Seq<Text>,
    pub tech: Seq<Text>,
    pub hosts: Seq<Text>,
}

/// When a domain was deleted, and when its restoration was last asked for.
#[derive(Clone, Copy, Drop)]
pub struct Deletion {
    pub deleted: Moment,
    pub restore_requested: Option<Moment>,
}

/// A domain in full.
#[derive(Drop)]
pub struct Domain {
    pub name: Text,
    pub roid: Roid,
    pub sponsor: RegistrarNo,
    pub created: Moment,
    /// The years from its creation to its expiry.
    pub years: u32,
    pub transferred: Option<Moment>,
    pub updated: Option<Moment>,
    /// The statuses that were set, in the order of their texts.
    pub statuses: Seq<Status>,
    pub secret: Text,
    pub links: Links,
    pub transfer: Option<Transfer>,
    pub deletion: Option<Deletion>,
}

/// A domain in full, with its graces and its phase at a moment.
#[derive(Drop)]
pub struct FullDomain {
    pub domain: Domain,
    pub standing: Standing,
}

/// What everyone may know of a domain at a moment.
#[derive(Clone, Drop)]
pub struct DomainFace {
    pub name: Text,
    pub roid: Roid,
    pub sponsor: RegistrarNo,
    pub created: Moment,
    pub expires: Moment,
    pub transferred: Option<Moment>,
    pub updated: Option<Moment>,
    /// The statuses that are shown.
    pub statuses: Seq<Status>,
    pub standing: Standing,
    pub links: Links,
}

impl Clone for Domain {
    ghost use Rattle.std.specs.Prelude.{◌≡◌};

    ghost is_clone = { λ domain copy. copy ≡ domain };

    fn clone(&self) -> Result<Domain, AllocError> {
        let (name, secret) = (self.name.clone()?, self.secret.clone()?);
        let statuses = self.statuses.clone()?;
        Ok(Domain {
            name,
            roid: self.roid,
            sponsor: self.sponsor,
            created: self.created,
            years: self.years,
            transferred: self.transferred,
            updated: self.updated,
            statuses,
            secret,
            links: self.links.clone()?,
            transfer: self.transfer,
            deletion: self.deletion,
        })
    }
}

impl FullDomain {
    /// What everyone may know of it.
    pub fn face(&self, alloc: Global) -> Result<DomainFace, AllocError>
        ensures { IfOk result (λ face. face ≡ face_of self.now.standing self.now.domain) }
    {
        self.domain.face(alloc, self.standing)
    }
}

impl Domain {
    /// The moment to which it is registered. One past the last moment is shown as the last.
    pub fn expiry(&self) -> Moment
        ensures { result ≡ shown_expiry self.now }
    {
        self.created.plus_years_capped(self.years)
    }

    /// Whether its last transfer is pending.
    pub fn is_pending_transfer(&self) -> bool
        ensures { result ≡ transfers.is_pending self.now.transfer }
    {
        match &self.transfer {
            None => false,
            Some(transfer) => transfer.is_pending(),
        }
    }

    /// Whether it shows the status.
    pub fn shows(&self, status: Status) -> bool
        ensures { result ≡ shows self.now status }
    {
        match status {
            Status::Inactive => self.links.hosts.is_empty(),
            Status::Linked => false,
            Status::Fine => self.has_no_status(),
            Status::PendingDelete => self.deletion.is_some(),
            Status::PendingTransfer => self.is_pending_transfer(),
            _ => has_status(self.statuses.as_slice(), status),
        }
    }

    fn has_no_status(&self) -> bool
        ensures { result ≡ shows self.now Status.Fine }
    {
        self.statuses.is_empty()
            && !self.links.hosts.is_empty()
            && !self.deletion.is_some()
            && !self.is_pending_transfer()
    }

    /// The statuses that it shows.
    pub fn shown(&self, alloc: Global) -> Result<Seq<Status>, AllocError>
        ensures { IfOk result (λ statuses. statuses ≡ shown self.now) }
    {
        Ok(Seq::from_vec(shown_among(alloc, self, &ALL)?))
    }

    /// What everyone may know of it.
    pub fn face(&self, alloc: Global, standing: Standing) -> Result<DomainFace, AllocError>
        ensures { IfOk result (λ face. face ≡ face_of standing self.now) }
    {
        Ok(DomainFace {
            name: self.name.clone()?,
            roid: self.roid,
            sponsor: self.sponsor,
            created: self.created,
            expires: self.expiry(),
            transferred: self.transferred,
            updated: self.updated,
            statuses: self.shown(alloc)?,
            standing,
            links: self.links.clone()?,
        })
    }

    /// A copy, with its graces and its phase.
    fn in_full(&self, standing: Standing) -> Result<FullDomain, AllocError>
        ensures { IfOk result (λ full. full ≡ record { domain = self.now; standing = standing }) }
    {
        Ok(FullDomain {
            domain: self.clone()?,
            standing,
        })
    }

    /// Whether the registrar sponsors it.
    pub fn is_sponsored_by(&self, registrar: RegistrarNo) -> bool
        ensures { result ≡ (self.now.sponsor == registrar) }
    {
        self.sponsor == registrar
    }

    /// Whether the registrar sponsors it or a pending transfer brings it there.
    pub fn is_held_by(&self, registrar: RegistrarNo) -> bool
        ensures { result ≡ is_party registrar self.now.sponsor self.now.transfer }
    {
        sight::is_party(registrar, self.sponsor, &self.transfer)
    }

    /// Whether the secret was presented, and is its own.
    pub fn is_authorized_by(&self, presented: Option<&Text>) -> bool
        ensures { result ≡ authorizes (option_copied presented.entry) self.now.secret }
    {
        sight::authorizes(presented, &self.secret)
    }

    /// What the registrar sees of it.
    pub fn seen_by(
        &self,
        alloc: Global,
        registrar: RegistrarNo,
        presented: Option<&Text>,
        standing: Standing,
    ) -> Result<Seen<FullDomain, DomainFace>, AllocError>
        ensures { IfOk result (λ seen. seen ≡ domain_as registrar (option_copied presented.entry)
            standing self.now) }
    {
        if self.is_held_by(registrar) || self.is_authorized_by(presented) {
            return Ok(Seen::Full(self.in_full(standing)?));
        }
        Ok(sight::seen_by_outsider(registrar, self.face(alloc, standing)?, &self.transfer))
    }
}

fn shown_among(
    alloc: Global,
    domain: &Domain,
    statuses: &[Status],
) -> Result<Vec<Status>, AllocError>
    ensures { IfOk result (λ found. found.items ≡ filter (shows domain.now) statuses.now) }
{
    statuses
        .iter()
        .copied()
        .filter(|status| domain.shows(*status))
        .collect(alloc)
}
