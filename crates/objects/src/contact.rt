//! Contacts (RFC 5733).
ghost use Rattle.std.specs.{Prelude.{◌≡◌, ◌==◌, IfOk, filter}, Option.option_copied};
ghost use Rattle.objects.specs.Contacts as spec;
ghost use Rattle.objects.specs.Sight.{authorizes, contact_as};
ghost use Rattle.objects.specs.Transfers as transfers;

use crate::roid::Roid;
use crate::sight::{self, Seen};
use crate::status::{ALL, Status, has_status};
use crate::transfer::Transfer;
use basis::list::Seq;
use basis::registrar::RegistrarNo;
use basis::text::{Text, copied};
use calendar::Moment;
use std::alloc::{AllocError, Global};

/// A postal address (RFC 5733, 2.4), in its internationalized form.
#[derive(Drop)]
pub struct Postal {
    pub name: Text,
    pub org: Option<Text>,
    pub street: Seq<Text>,
    pub city: Text,
    /// State or province.
    pub sp: Option<Text>,
    /// Postal code.
    pub pc: Option<Text>,
    /// Country code: two capitals.
    pub cc: Text,
}

/// A contact in full.
#[derive(Drop)]
pub struct Contact {
    pub name: Text,
    pub roid: Roid,
    pub sponsor: RegistrarNo,
    pub created: Moment,
    pub transferred: Option<Moment>,
    pub updated: Option<Moment>,
    /// The statuses that were set, in the order of their texts.
    pub statuses: Seq<Status>,
    pub secret: Text,
    pub postal: Postal,
    pub voice: Option<Text>,
    pub mail: Text,
    pub transfer: Option<Transfer>,
}

/// What everyone may know of a contact. Whether it is linked follows from the faces of domains.
#[derive(Clone, Drop)]
pub struct ContactFace {
    pub name: Text,
    pub roid: Roid,
    pub sponsor: RegistrarNo,
    pub created: Moment,
    pub transferred: Option<Moment>,
    pub updated: Option<Moment>,
    /// The statuses that are shown, but `linked`.
    pub statuses: Seq<Status>,
}

impl Postal {
    /// The same in memory of its own.
    pub fn copy(&self) -> Result<Postal, AllocError>
        ensures { IfOk result (λ copy. copy ≡ self.now) }
    {
        let (name, city, cc) = (self.name.clone()?, self.city.clone()?, self.cc.clone()?);
        let street = self.street.clone()?;
        Ok(Postal {
            name,
            org: copied(&self.org)?,
            street,
            city,
            sp: copied(&self.sp)?,
            pc: copied(&self.pc)?,
            cc,
        })
    }
}

impl Contact {
    /// Whether its last transfer is pending.
    pub fn is_pending_transfer(&self) -> bool
        ensures { result ≡ transfers.is_pending self.now.transfer }
    {
        match &self.transfer {
            None => false,
            Some(transfer) => transfer.is_pending(),
        }
    }

    /// Whether it shows the status, given whether it is linked.
    pub fn shows(&self, linked: bool, status: Status) -> bool
        ensures { result ≡ spec.contact_shows linked self.now status }
    {
        match status {
            Status::Inactive => false,
            Status::Linked => linked,
            Status::Fine => self.statuses.is_empty() && !self.is_pending_transfer(),
            Status::PendingDelete => false,
            Status::PendingTransfer => self.is_pending_transfer(),
            _ => has_status(self.statuses.as_slice(), status),
        }
    }

    /// What everyone may know of it.
    pub fn face(&self, alloc: Global) -> Result<ContactFace, AllocError>
        ensures { IfOk result (λ face. face ≡ spec.contact_face_of self.now) }
    {
        Ok(ContactFace {
            name: self.name.clone()?,
            roid: self.roid,
            sponsor: self.sponsor,
            created: self.created,
            transferred: self.transferred,
            updated: self.updated,
            statuses: shown_contact(alloc, self, false)?,
        })
    }

    /// Whether the registrar sponsors it.
    pub fn is_sponsored_by(&self, registrar: RegistrarNo) -> bool
        ensures { result ≡ (self.now.sponsor == registrar) }
    {
        self.sponsor == registrar
    }

    /// Whether the secret was presented, and is its own.
    pub fn is_authorized_by(&self, presented: Option<&Text>) -> bool
        ensures { result ≡ authorizes (option_copied presented.entry) self.now.secret }
    {
        sight::authorizes(presented, &self.secret)
    }

    /// The same in memory of its own.
    pub fn copy(&self) -> Result<Contact, AllocError>
        ensures { IfOk result (λ copy. copy ≡ self.now) }
    {
        let (name, statuses) = (self.name.clone()?, self.statuses.clone()?);
        let (secret, mail) = (self.secret.clone()?, self.mail.clone()?);
        Ok(Contact {
            name,
            roid: self.roid,
            sponsor: self.sponsor,
            created: self.created,
            transferred: self.transferred,
            updated: self.updated,
            statuses,
            secret,
            voice: copied(&self.voice)?,
            mail,
            postal: self.postal.copy()?,
            transfer: self.transfer,
        })
    }

    /// What the registrar sees of it.
    pub fn seen_by(
        &self,
        alloc: Global,
        registrar: RegistrarNo,
        presented: Option<&Text>,
    ) -> Result<Seen<Contact, ContactFace>, AllocError>
        ensures { IfOk result (λ seen. seen ≡ contact_as registrar (option_copied presented.entry)
            self.now) }
    {
        if sight::is_party(registrar, self.sponsor, &self.transfer)
            || self.is_authorized_by(presented)
        {
            return Ok(Seen::Full(self.copy()?));
        }
        Ok(sight::seen_by_outsider(registrar, self.face(alloc)?, &self.transfer))
    }
}

/// The statuses that a contact shows, given whether it is linked.
pub fn shown_contact(
    alloc: Global,
    contact: &Contact,
    linked: bool,
) -> Result<Seq<Status>, AllocError>
    ensures { IfOk result (λ statuses. statuses ≡ spec.contact_shown linked contact.now) }
{
    Ok(Seq::from_vec(shown_among(alloc, contact, linked, &ALL)?))
}

fn shown_among(
    alloc: Global,
    contact: &Contact,
    linked: bool,
    statuses: &[Status],
) -> Result<Vec<Status>, AllocError>
    ensures { IfOk result (λ found. found.items ≡ filter (spec.contact_shows linked contact.now)
        statuses.now) }
{
    statuses
        .iter()
        .copied()
        .filter(|status| contact.shows(linked, *status))
        .collect(alloc)
}
