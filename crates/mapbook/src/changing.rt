//! How a registry in ordered maps is edited, and each edit taken back.
ghost use Rattle.std.specs.Prelude.{◌≡◌, IfOk, IfSome, IsSomeAnd, OnOk, OnErr};
ghost use Rattle.std.specs.Option.{option_copied};
ghost use Rattle.books.specs.Ledgers.{changed_if_there, entry_set};
ghost use Rattle.mapbook.specs.Edits as spec;
ghost use Rattle.mapbook.specs.{Edits.edited, Plain.content_of};
ghost use Rattle.mapbook.specs.declared.edit.Edit.TheVariants as edits;
ghost use Rattle.mapbook.specs.inner.Edits as inner_spec;

use crate::account_edit::AccountEdit;
use crate::content::Content;
use crate::edit::{Edit, account_put, contact_put, domain_put, host_put, put_named, terms_put};
use accounts::Account;
use basis::maps::RegistrarMap;
use basis::registrar::RegistrarNo;
use std::alloc::AllocError;

impl Content {
    /// What takes an edit back: once the edit is made, it leads back.
    pub fn inverse(&self, edit: &Edit) -> Result<Edit, AllocError>
        ensures { IfOk result (λ inverse. edited inverse (edited edit.now (content_of self.now))
            ≡ content_of self.now) }
    {
        match edit {
            Edit::Within(registrar, within) => self.inverse_within(*registrar, within),
            _ => self.as_it_was(edit),
        }
    }

    /// What takes an edit of an account back: an edit of it, or the account as it is.
    fn inverse_within(&self, registrar: RegistrarNo, edit: &AccountEdit) -> Result<Edit, AllocError>
        ensures { IfOk result (λ inverse. edited inverse
            (edited (edits.Within registrar edit.now) (content_of self.now)) ≡ content_of self.now) }
    {
        let account = self.accounts.get(registrar);
        match inverse_there(account, edit)? {
            None => account_put(registrar, account),
            Some(back) => Ok(Edit::Within(registrar, back)),
        }
    }

    /// The edit that puts back the value at the key of an edit.
    fn as_it_was(&self, edit: &Edit) -> Result<Edit, AllocError>
        ensures { IfOk result (λ inverse. inverse ≡ inner_spec.inverse edit.now (content_of self.now)) }
    {
        match edit {
            Edit::Clock(_) => Ok(Edit::Clock(self.clock)),
            Edit::Account(registrar, _) | Edit::Within(registrar, _) => {
                account_put(*registrar, self.accounts.get(*registrar))
            }
            Edit::Contact(name, _) => contact_put(name, self.contacts.get(name)),
            Edit::Domain(name, _) => domain_put(name, self.domains.get(name)),
            Edit::Host(name, _) => host_put(name, self.hosts.get(name)),
            Edit::Terms(_) => terms_put(&self.terms),
        }
    }

    /// Makes an edit.
    pub fn set(&mut self, edit: Edit) -> Result<(), AllocError>
        ensures ok { OnOk result (content_of self.new ≡ spec.edited edit (content_of self.old)) }
        ensures err { OnErr result (content_of self.new ≡ content_of self.old) }
    {
        match edit {
            Edit::Clock(moment) => {
                self.clock = moment;
                Ok(())
            }
            Edit::Account(registrar, value) => put_at(&mut self.accounts, registrar, value),
            Edit::Within(registrar, edit) => edit_at(&mut self.accounts, registrar, edit),
            Edit::Contact(name, value) => put_named(&mut self.contacts, name, value),
            Edit::Domain(name, value) => put_named(&mut self.domains, name, value),
            Edit::Host(name, value) => put_named(&mut self.hosts, name, value),
            Edit::Terms(terms) => {
                self.terms = terms;
                Ok(())
            }
        }
    }
}

/// The edit that takes one back in an account, where the account is there and one does.
fn inverse_there(
    account: Option<&Account>,
    edit: &AccountEdit,
) -> Result<Option<AccountEdit>, AllocError>
    ensures { IfOk result (λ back. IfSome back (λ it. IsSomeAnd (option_copied account.entry)
        (λ a. spec.account_edited it (spec.account_edited edit.now a) ≡ a))) }
{
    match account {
        None => Ok(None),
        Some(account) => edit.inverse(account),
    }
}

/// Puts a registrar's account, or takes away the one there.
fn put_at(
    accounts: &mut RegistrarMap<Account>,
    registrar: RegistrarNo,
    value: Option<Account>,
) -> Result<(), AllocError>
    ensures ok { OnOk result (accounts.new ≡ entry_set accounts.old registrar value) }
    ensures err { OnErr result (accounts.new ≡ accounts.old) }
{
    match value {
        None => {
            accounts.remove(registrar);
            Ok(())
        }
        Some(account) => accounts.insert(registrar, account),
    }
}

/// Edits a registrar's account in its place, where there is one.
fn edit_at(
    accounts: &mut RegistrarMap<Account>,
    registrar: RegistrarNo,
    edit: AccountEdit,
) -> Result<(), AllocError>
    ensures ok { OnOk result (accounts.new
        ≡ changed_if_there (spec.account_edited edit) accounts.old registrar) }
    ensures err { OnErr result (accounts.new ≡ accounts.old) }
{
    match accounts.get_mut(registrar) {
        None => Ok(()),
        Some(account) => edit.make(account),
    }
}
