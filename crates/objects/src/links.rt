//! What a domain names.
ghost use Rattle.std.specs.Prelude.{◌≡◌, IfOk};
ghost use Rattle.objects.specs.Links as spec;

use crate::domain::Links;
use basis::list::Seq;
use basis::text::Text;
use std::alloc::{AllocError, Global};

/// Whether a list has the name.
pub fn has_name(names: &[Text], name: &Text) -> bool
    ensures { result ≡ spec.has_name names.now name.now }
{
    names.iter().any(|other| *other == *name)
}

impl Links {
    /// Whether the contact is named, as the registrant, an administrative or a technical contact.
    pub fn names_contact(&self, contact: &Text) -> bool
        ensures { result ≡ spec.names_contact contact.now self.now }
    {
        self.registrant == *contact
            || has_name(self.admin.as_slice(), contact)
            || has_name(self.tech.as_slice(), contact)
    }

    /// Whether the host is named.
    pub fn names_host(&self, host: &Text) -> bool
        ensures { result ≡ spec.names_host host.now self.now }
    {
        has_name(self.hosts.as_slice(), host)
    }
}

/// The names in the order of their bytes.
pub fn in_order(alloc: Global, names: &[Text]) -> Result<Seq<Text>, AllocError>
    ensures { IfOk result (λ list. list ≡ spec.in_order names.now) }
{
    Seq::sorted(alloc, copied(alloc, names)?)
}

fn copied(alloc: Global, names: &[Text]) -> Result<Vec<Text>, AllocError>
    ensures { IfOk result (λ copies. copies.items ≡ names.now) }
{
    let mut copies = Vec::new(alloc);
    for name in names {
        copies.push(name.clone()?)?;
    }
    Ok(copies)
}
