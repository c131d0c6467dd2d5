//! Values at keys.
ghost use Rattle.std.specs.{Prelude.{◌≡◌, IfOk, OnErr, OnOk}, Option.option_copied};
ghost use Rattle.books.specs.Ledgers.{entry_set};
ghost use Rattle.mapbook.specs.declared.edit.Edit.TheVariants as edits;

use crate::account_edit::AccountEdit;
use accounts::{Account as AccountRecord, Message};
use basis::maps::NameMap;
use basis::registrar::RegistrarNo;
use basis::text::Text;
use calendar::Moment;
use objects::{Contact as ContactRecord, Domain as DomainRecord, Host as HostRecord};
use policy::Terms as BookTerms;
use std::alloc::AllocError;

/// What a key is to have: a value, or none.
#[derive(Drop)]
pub(crate) enum Edit {
    Clock(Moment),
    Account(RegistrarNo, Option<AccountRecord>),
    /// An edit of the account, where there is one.
    Within(RegistrarNo, AccountEdit),
    Contact(Text, Option<ContactRecord>),
    Domain(Text, Option<DomainRecord>),
    Host(Text, Option<HostRecord>),
    Terms(Option<BookTerms>),
}

impl Edit {
    /// The same in memory of its own.
    pub fn copy(&self) -> Result<Edit, AllocError>
        ensures { IfOk result (λ copy. copy ≡ self.now) }
    {
        match self {
            Edit::Clock(moment) => Ok(Edit::Clock(*moment)),
            Edit::Account(registrar, value) => account_put(*registrar, value.as_ref()),
            Edit::Within(registrar, edit) => Ok(Edit::Within(*registrar, edit.copy()?)),
            Edit::Contact(name, value) => contact_put(name, value.as_ref()),
            Edit::Domain(name, value) => domain_put(name, value.as_ref()),
            Edit::Host(name, value) => host_put(name, value.as_ref()),
            Edit::Terms(terms) => terms_put(terms),
        }
    }
}

// ---- edits with what they put, in memory of their own

/// The registrar is to have this account, or none.
pub(crate) fn account_put(
    registrar: RegistrarNo,
    value: Option<&AccountRecord>,
) -> Result<Edit, AllocError>
    ensures { IfOk result (λ it. it ≡ edits.Account registrar (option_copied value.entry)) }
{
    Ok(Edit::Account(registrar, copy_account(value)?))
}

/// The name is to have this contact, or none.
pub(crate) fn contact_put(name: &Text, value: Option<&ContactRecord>) -> Result<Edit, AllocError>
    ensures { IfOk result (λ it. it ≡ edits.Contact name.now (option_copied value.entry)) }
{
    let name = name.clone()?;
    Ok(Edit::Contact(name, copy_contact(value)?))
}

/// The name is to have this domain, or none.
pub(crate) fn domain_put(name: &Text, value: Option<&DomainRecord>) -> Result<Edit, AllocError>
    ensures { IfOk result (λ it. it ≡ edits.Domain name.now (option_copied value.entry)) }
{
    let name = name.clone()?;
    Ok(Edit::Domain(name, copy_domain(value)?))
}

/// The name is to have this host, or none.
pub(crate) fn host_put(name: &Text, value: Option<&HostRecord>) -> Result<Edit, AllocError>
    ensures { IfOk result (λ it. it ≡ edits.Host name.now (option_copied value.entry)) }
{
    let name = name.clone()?;
    Ok(Edit::Host(name, copy_host(value)?))
}

/// These are to be the terms, or none.
pub(crate) fn terms_put(terms: &Option<BookTerms>) -> Result<Edit, AllocError>
    ensures { IfOk result (λ it. it ≡ edits.Terms terms.now) }
{
    Ok(Edit::Terms(copy_terms(terms)?))
}

/// Puts a value under a name, or takes away the one there.
pub(crate) fn put_named<V: Drop>(
    map: &mut NameMap<V>,
    name: Text,
    value: Option<V>,
) -> Result<(), AllocError>
    ensures ok { OnOk result (map.new ≡ entry_set map.old name value) }
    ensures err { OnErr result (map.new ≡ map.old) }
{
    match value {
        None => {
            map.remove(&name);
            Ok(())
        }
        Some(value) => map.insert(name, value),
    }
}

fn copy_account(account: Option<&AccountRecord>) -> Result<Option<AccountRecord>, AllocError>
    ensures { IfOk result (λ copy. copy ≡ option_copied account.entry) }
{
    match account {
        None => Ok(None),
        Some(account) => Ok(Some(account_clone(account)?)),
    }
}

fn account_clone(account: &AccountRecord) -> Result<AccountRecord, AllocError>
    ensures { IfOk result (λ copy. copy ≡ account.now) }
{
    account.clone()
}

pub(crate) fn message_clone(message: &Message) -> Result<Message, AllocError>
    ensures { IfOk result (λ copy. copy ≡ message.now) }
{
    message.clone()
}

/// A copy of a message, if there is one.
pub(crate) fn copy_message(message: Option<&Message>) -> Result<Option<Message>, AllocError>
    ensures { IfOk result (λ copy. copy ≡ option_copied message.entry) }
{
    match message {
        None => Ok(None),
        Some(message) => Ok(Some(message_clone(message)?)),
    }
}

pub(crate) fn copy_contact(
    contact: Option<&ContactRecord>,
) -> Result<Option<ContactRecord>, AllocError>
    ensures { IfOk result (λ copy. copy ≡ option_copied contact.entry) }
{
    match contact {
        None => Ok(None),
        Some(contact) => Ok(Some(contact.copy()?)),
    }
}

pub(crate) fn copy_domain(domain: Option<&DomainRecord>) -> Result<Option<DomainRecord>, AllocError>
    ensures { IfOk result (λ copy. copy ≡ option_copied domain.entry) }
{
    match domain {
        None => Ok(None),
        Some(domain) => Ok(Some(domain_clone(domain)?)),
    }
}

fn domain_clone(domain: &DomainRecord) -> Result<DomainRecord, AllocError>
    ensures { IfOk result (λ copy. copy ≡ domain.now) }
{
    domain.clone()
}

pub(crate) fn copy_host(host: Option<&HostRecord>) -> Result<Option<HostRecord>, AllocError>
    ensures { IfOk result (λ copy. copy ≡ option_copied host.entry) }
{
    match host {
        None => Ok(None),
        Some(host) => Ok(Some(host_clone(host)?)),
    }
}

fn host_clone(host: &HostRecord) -> Result<HostRecord, AllocError>
    ensures { IfOk result (λ copy. copy ≡ host.now) }
{
    host.clone()
}

/// A copy of the terms, if there are any.
pub(crate) fn copy_terms(terms: &Option<BookTerms>) -> Result<Option<BookTerms>, AllocError>
    ensures { IfOk result (λ copy. copy ≡ terms.now) }
{
    match terms {
        None => Ok(None),
        Some(terms) => Ok(Some(terms.clone()?)),
    }
}
