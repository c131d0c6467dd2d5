//! What of a registry in ordered maps is due.
ghost use Rattle.std.specs.{Prelude.{◌≡◌, IfOk, OnOk}, FinMap.entries};
ghost use Rattle.books.specs.Lookups.{up_to};
ghost use Rattle.lifecycle.specs.DueObjects as spec;
ghost use Rattle.model.specs.DueBy.{due_by};
ghost use Rattle.mapbook.specs.Plain.{registry_in};

use crate::content::Content;
use basis::list::Seq;
use basis::text::Text;
use calendar::Moment;
use lifecycle::{Due, contact_due_by, due_by};
use objects::{Contact, Domain, ObjectKind};
use policy::Policy;
use std::alloc::{AllocError, Global};
use std::collections::BTreeSet;

impl Content {
    /// The objects that time changes or removes up to a moment, in the order in which they lapse. Each
    /// contact and each domain is looked at.
    pub fn due_by(&self, moment: Moment, policy: &Policy) -> Result<Seq<Due>, AllocError>
        ensures { IfOk result (λ due. due ≡ due_by policy.now moment (registry_in self.now)) }
    {
        let mut found = BTreeSet::new(self.alloc);
        self.find_contacts(moment, &mut found)?;
        self.find_domains(moment, policy, &mut found)?;
        listed(self.alloc, found)
    }

    fn find_contacts(&self, moment: Moment, found: &mut BTreeSet<Due>) -> Result<(), AllocError>
        ensures { OnOk result (found.new.keys ≡ spec.found_due (spec.contact_due moment)
            found.old.keys (entries self.now.contacts)) }
    {
        for (name, contact) in self.contacts.iter() {
            put_due(found, contact_due(name, contact, moment)?)?;
        }
        Ok(())
    }

    fn find_domains(
        &self,
        moment: Moment,
        policy: &Policy,
        found: &mut BTreeSet<Due>,
    ) -> Result<(), AllocError>
        ensures { OnOk result (found.new.keys ≡ spec.found_due (spec.domain_due policy.now moment)
            found.old.keys (entries self.now.domains)) }
    {
        for (name, domain) in self.domains.iter() {
            put_due(found, domain_due(name, domain, moment, policy)?)?;
        }
        Ok(())
    }
}

/// An object that is due, if it is.
fn due_then(kind: ObjectKind, name: &Text, due: Option<Moment>) -> Result<Option<Due>, AllocError>
    ensures { IfOk result (λ it. it ≡ spec.due_then kind name.now due) }
{
    match due {
        None => Ok(None),
        Some(due) => Ok(Some(Due {
            due,
            kind,
            name: name.clone()?,
        })),
    }
}

fn contact_due(name: &Text, contact: &Contact, moment: Moment) -> Result<Option<Due>, AllocError>
    ensures { IfOk result (λ due. due ≡ spec.contact_due moment (name.now, contact.now)) }
{
    due_then(ObjectKind::Contact, name, contact_due_by(contact, moment))
}

fn domain_due(
    name: &Text,
    domain: &Domain,
    moment: Moment,
    policy: &Policy,
) -> Result<Option<Due>, AllocError>
    ensures { IfOk result (λ due. due ≡ spec.domain_due policy.now moment (name.now, domain.now)) }
{
    due_then(ObjectKind::Domain, name, due_by(domain, moment, policy))
}

fn put_due(found: &mut BTreeSet<Due>, due: Option<Due>) -> Result<(), AllocError>
    ensures { OnOk result (found.new.keys ≡ spec.with_due due found.old.keys) }
{
    if let Some(due) = due {
        found.insert(due)?;
    }
    Ok(())
}

/// An ordered set as a list.
fn listed(alloc: Global, found: BTreeSet<Due>) -> Result<Seq<Due>, AllocError>
    ensures { IfOk result (λ due. due ≡ found.keys) }
{
    let mut due = Vec::with_capacity(alloc, found.len())?;
    for it in found {
        due.push(it)?;
    }
    Ok(Seq::from_vec(due))
}

/// So many of a list at most, or all of it.
pub(crate) fn cut(due: Seq<Due>, most: Option<u32>) -> Seq<Due>
    ensures { result ≡ up_to most due }
{
    let Some(most) = most else {
        return due;
    };
    let mut due = due.into_vec();
    due.truncate(most as usize);
    Seq::from_vec(due)
}
