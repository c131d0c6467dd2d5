//! Updated objects: what an update doesn't give stays.
ghost use Rattle.std.specs.{Prelude.{◌≡◌, ◌-◌, IfOk, Some, option_map}, Option.option_copied};
ghost use Rattle.facts.specs.Facts.{or_else};
ghost use Rattle.decisions.specs.Decisions as spec;

use crate::case::Case;
use crate::created::external_sponsor_of;
use basis::registrar::RegistrarNo;
use basis::text::{Text, copied};
use calendar::Moment;
use facts::amended_names;
use lifecycle::years_to_outlast;
use names::RequestedName;
use objects::{Contact, Deletion, Domain, Host, Links, Postal, amended_statuses};
use protocol::{ContactUpdate, DomainUpdate, HostUpdate};
use std::alloc::{AllocError, Global};

/// A copy of the new text, or of the old one where there is none.
fn or_old(new: &Option<Text>, old: &Text) -> Result<Text, AllocError>
    ensures { IfOk result (λ text. text ≡ spec.or_old new.now old.now) }
{
    match new {
        Some(new) => new.clone(),
        None => old.clone(),
    }
}

fn or_old_postal(new: &Option<Postal>, old: &Postal) -> Result<Postal, AllocError>
    ensures { IfOk result (λ postal. postal ≡ spec.or_old new.now old.now) }
{
    match new {
        Some(new) => new.copy(),
        None => old.copy(),
    }
}

fn or_else(new: &Option<Text>, old: &Option<Text>) -> Result<Option<Text>, AllocError>
    ensures { IfOk result (λ text. text ≡ or_else new.now old.now) }
{
    match new {
        Some(new) => Ok(Some(new.clone()?)),
        None => copied(old),
    }
}

impl<'a> Case<'a> {
    pub(crate) fn updated_contact(
        &self,
        update: &ContactUpdate,
        contact: &Contact,
    ) -> Result<Contact, AllocError>
        ensures { IfOk result (λ updated. updated ≡ spec.updated_contact self.now.moment update.now
            contact.now) }
    {
        let statuses = amended_statuses(
            self.alloc,
            contact.statuses.as_slice(),
            update.rem.as_slice(),
            update.add.as_slice(),
        )?;
        Ok(Contact {
            name: contact.name.clone()?,
            roid: contact.roid,
            sponsor: contact.sponsor,
            created: contact.created,
            transferred: contact.transferred,
            updated: Some(self.moment),
            statuses,
            secret: or_old(&update.secret, &contact.secret)?,
            voice: or_else(&update.voice, &contact.voice)?,
            mail: or_old(&update.mail, &contact.mail)?,
            postal: or_old_postal(&update.postal, &contact.postal)?,
            transfer: contact.transfer,
        })
    }

    pub(crate) fn updated_domain(
        &self,
        update: &DomainUpdate,
        domain: &Domain,
    ) -> Result<Domain, AllocError>
        ensures { IfOk result (λ updated. updated ≡ spec.updated_domain self.now.moment update.now
            domain.now) }
    {
        let statuses = amended_statuses(
            self.alloc,
            domain.statuses.as_slice(),
            update.rem.statuses.as_slice(),
            update.add.statuses.as_slice(),
        )?;
        Ok(Domain {
            name: domain.name.clone()?,
            roid: domain.roid,
            sponsor: domain.sponsor,
            created: domain.created,
            years: domain.years,
            transferred: domain.transferred,
            updated: Some(self.moment),
            statuses,
            secret: or_old(&update.secret, &domain.secret)?,
            links: updated_links(self.alloc, update, &domain.links)?,
            transfer: domain.transfer,
            deletion: domain.deletion,
        })
    }

    pub(crate) fn updated_host(&self, update: &HostUpdate, host: &Host) -> Result<Host, AllocError>
        ensures { IfOk result (λ updated. updated ≡ spec.updated_host self.now.policy.now.zone
            self.now.caller self.now.moment update.now host.now) }
    {
        let statuses = amended_statuses(
            self.alloc,
            host.statuses.as_slice(),
            update.rem.statuses.as_slice(),
            update.add.statuses.as_slice(),
        )?;
        Ok(Host {
            name: update.final_name().clone()?,
            roid: host.roid,
            external_sponsor: self.external_sponsor_after(
                update.new_name.as_ref(),
                host.external_sponsor,
            ),
            created: host.created,
            updated: Some(self.moment),
            statuses,
            addresses: amended_names(
                self.alloc,
                host.addresses.as_slice(),
                update.rem.addresses.as_slice(),
                update.add.addresses.as_slice(),
            )?,
        })
    }

    /// The registrar that gave an external host its name, after an update that may rename it.
    fn external_sponsor_after(
        &self,
        new_name: Option<&RequestedName>,
        old: Option<RegistrarNo>,
    ) -> Option<RegistrarNo>
        ensures { result ≡ spec.external_sponsor_after self.now.policy.now.zone self.now.caller
            (option_copied new_name.entry) old }
    {
        match new_name {
            None => old,
            Some(name) => external_sponsor_of(self.policy.zone(), self.caller, name.text()),
        }
    }
}

fn updated_links(alloc: Global, update: &DomainUpdate, links: &Links) -> Result<Links, AllocError>
    ensures { IfOk result (λ updated. updated ≡ spec.updated_links update.now links.now) }
{
    let (add, rem) = (&update.add, &update.rem);
    Ok(Links {
        registrant: or_old(&update.registrant, &links.registrant)?,
        admin: amended_names(
            alloc,
            links.admin.as_slice(),
            rem.admin.as_slice(),
            add.admin.as_slice(),
        )?,
        tech: amended_names(
            alloc,
            links.tech.as_slice(),
            rem.tech.as_slice(),
            add.tech.as_slice(),
        )?,
        hosts: amended_names(
            alloc,
            links.hosts.as_slice(),
            rem.hosts.as_slice(),
            add.hosts.as_slice(),
        )?,
    })
}

/// So many years more; their number stays at its greatest.
fn more_years(years: u32, more: u32) -> u32
    ensures { result ≡ spec.more_years years more }
{
    years.saturating_add(more)
}

/// The domain, registered for longer.
pub(crate) fn renewed_domain(
    domain: &Domain,
    years: u32,
    moment: Moment,
) -> Result<Domain, AllocError>
    ensures { IfOk result (λ renewed. renewed ≡ spec.renewed_domain moment years domain.now) }
{
    let mut renewed = domain.clone()?;
    renewed.years = more_years(domain.years, years);
    renewed.updated = Some(moment);
    Ok(renewed)
}

/// The years without those that are given back.
fn years_left(years: u32, given: u128) -> u32
    ensures { result ≡ years - given }
{
    match u32::try_from(given) {
        Ok(given) => years.saturating_sub(given),
        Err(_) => 0,
    }
}

/// The domain, deleted at the moment, without the years that are given back.
pub(crate) fn deleted_domain(
    domain: &Domain,
    given: u128,
    moment: Moment,
) -> Result<Domain, AllocError>
    ensures { IfOk result (λ deleted. deleted ≡ spec.deleted_domain moment given domain.now) }
{
    let mut deleted = domain.clone()?;
    deleted.years = years_left(domain.years, given);
    deleted.updated = Some(moment);
    deleted.deletion = Some(Deletion {
        deleted: moment,
        restore_requested: None,
    });
    Ok(deleted)
}

/// The deletion, with a restoration asked for at the moment.
fn with_request(deletion: Option<Deletion>, moment: Moment) -> Option<Deletion>
    ensures { result ≡ option_map (λ (x : Deletion). record x { restore_requested = Some moment })
        deletion }
{
    match deletion {
        None => None,
        Some(deletion) => Some(Deletion {
            deleted: deletion.deleted,
            restore_requested: Some(moment),
        }),
    }
}

/// The domain, whose restoration is asked for at the moment.
pub(crate) fn restoring_domain(domain: &Domain, moment: Moment) -> Result<Domain, AllocError>
    ensures { IfOk result (λ restoring. restoring ≡ spec.restoring_domain moment domain.now) }
{
    let mut restoring = domain.clone()?;
    restoring.updated = Some(moment);
    restoring.deletion = with_request(domain.deletion, moment);
    Ok(restoring)
}

/// The domain, not deleted any more, and registered for the years more with which it expires after
/// the moment.
pub(crate) fn restored_domain(domain: &Domain, moment: Moment) -> Result<Domain, AllocError>
    ensures { IfOk result (λ restored. restored ≡ spec.restored_domain moment domain.now) }
{
    let years = years_to_outlast(domain, moment);
    let mut restored = domain.clone()?;
    restored.years = domain.years + years;
    restored.updated = Some(moment);
    restored.deletion = None;
    Ok(restored)
}
