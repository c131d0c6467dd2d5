//! An object of the registry, of any kind.
ghost use Rattle.std.specs.Prelude.{◌≡◌};
ghost use Rattle.model.specs.Objects as spec;

use objects::{
    Contact as ContactRecord, Domain as DomainRecord, Host as HostRecord, Status as ObjectStatus,
};

/// An object of the registry.
#[derive(Drop)]
pub enum Object {
    Contact(ContactRecord),
    Domain(DomainRecord),
    Host(HostRecord),
}

impl Object {
    /// The statuses that are set on it.
    pub fn statuses(&self) -> &[ObjectStatus]
        ensures { result.now ≡ spec.statuses_of self.now }
    {
        match self {
            Object::Contact(contact) => contact.statuses.as_slice(),
            Object::Domain(domain) => domain.statuses.as_slice(),
            Object::Host(host) => host.statuses.as_slice(),
        }
    }
}
