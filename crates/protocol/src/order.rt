//! What the operator orders.
ghost use Rattle.std.specs.Prelude.{◌≡◌, ◌≢◌, None, IfOk};
ghost use Rattle.names.specs.declared.fault.NameFault.TheVariants.{Memory};
ghost use Rattle.protocol.specs.Orders as spec;

use basis::list::Seq;
use basis::text::Text;
use names::{DomainName, HostName, NameFault, Zone};
use objects::{ObjectKind, Status as ObjectStatus};
use std::alloc::{AllocError, Global};

/// An order of the operator.
#[derive(Drop)]
pub enum Order {
    /// Statuses of an object are to be set or taken away.
    Status(StatusOrder),
    /// A registrar has paid.
    Deposit {
        /// The registrar's id as it was sent.
        registrar: Text,
        /// In whole cents, as they were sent.
        cents: i64,
    },
}

/// What the operator sends.
#[derive(Drop)]
pub enum OperatorRequest {
    Order(Order),
    /// What is due is to lapse, of so many objects at most.
    Settle { at_most: u32 },
}

/// Which statuses of which object.
#[derive(Drop)]
pub struct StatusOrder {
    pub kind: ObjectKind,
    /// The object's name as it was sent.
    pub name: Text,
    /// Statuses to set.
    pub add: Seq<ObjectStatus>,
    /// Statuses to take away.
    pub rem: Seq<ObjectStatus>,
    /// Whether a text of the lists names no status at all.
    pub has_unknown_status: bool,
}

impl StatusOrder {
    /// The name of its object, or `None` where the text doesn't read as one.
    pub fn object_name(&self, alloc: Global, zone: &Zone) -> Result<Option<Text>, AllocError>
        ensures { IfOk result (λ name. name ≡ spec.name_ordered zone.now self.now) }
    {
        let text = self.name.as_str();
        match self.kind {
            ObjectKind::Contact => Ok(Some(self.name.clone()?)),
            ObjectKind::Domain => match DomainName::read(alloc, text, zone) {
                Ok(name) => Ok(Some(name.into_text())),
                Err(fault) => unread(fault),
            },
            ObjectKind::Host => match HostName::read(alloc, text, zone) {
                Ok(name) => Ok(Some(name.into_text())),
                Err(fault) => unread(fault),
            },
        }
    }
}

/// No name, unless memory ran out.
fn unread(fault: NameFault) -> Result<Option<Text>, AllocError>
    ensures none { IfOk result (λ name. name ≡ None) }
    ensures memory { IfOk result (λ name. fault ≢ Memory) }
{
    match fault {
        NameFault::Memory => Err(AllocError),
        NameFault::Syntax | NameFault::Policy => Ok(None),
    }
}
