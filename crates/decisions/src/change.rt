//! The changes of a registry.
ghost use Rattle.std.specs.Prelude.{◌≡◌, ◌∷◌, [], IfOk};

use basis::registrar::RegistrarNo;
use basis::text::Text;
use calendar::Moment;
use lifecycle::AccountChange;
use objects::{Contact as ContactRecord, Domain as DomainRecord, Host as HostRecord};
use std::alloc::{AllocError, Global};

/// One change of the registry. It has a value for the object that a command names, and is an
/// operation on everything else.
#[derive(Drop)]
pub enum Change {
    /// The contact is under its name.
    PutContact(ContactRecord),
    /// There is no such contact any more.
    DropContact(Text),
    /// The domain is under its name.
    PutDomain(DomainRecord),
    /// There is no such domain any more.
    DropDomain(Text),
    /// The host is under its name.
    PutHost(HostRecord),
    /// There is no such host any more.
    DropHost(Text),
    /// Where there is a host of the one name and none of this one's, this one takes its place, and every domain that
    /// named it by that name names it by its new one.
    RenameHost { from: Text, host: HostRecord },
    /// What time left under a contact's name: the contact, or none.
    LapseContact(Text, Option<ContactRecord>),
    /// What time left under a domain's name: the domain, or none.
    LapseDomain(Text, Option<DomainRecord>),
    /// The moment was seen.
    MoveClock(Moment),
    /// The registrar has an account.
    OpenAccount(RegistrarNo),
    /// The registrar's account is changed.
    Post(RegistrarNo, AccountChange),
}

/// One change and no other.
pub(crate) fn only(alloc: Global, change: Change) -> Result<Vec<Change>, AllocError>
    ensures { IfOk result (λ changes. changes.items ≡ change ∷ []) }
{
    Ok(vec![in alloc; change]?)
}

/// One change, and then another.
pub(crate) fn two(alloc: Global, first: Change, second: Change) -> Result<Vec<Change>, AllocError>
    ensures { IfOk result (λ changes. changes.items ≡ first ∷ second ∷ []) }
{
    Ok(vec![in alloc; first, second]?)
}

pub(crate) fn three(
    alloc: Global,
    first: Change,
    second: Change,
    third: Change,
) -> Result<Vec<Change>, AllocError>
    ensures { IfOk result (λ changes. changes.items ≡ first ∷ second ∷ third ∷ []) }
{
    Ok(vec![in alloc; first, second, third]?)
}
