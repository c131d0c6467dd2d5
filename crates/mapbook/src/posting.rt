//! How an account in ordered maps is changed: each change as edits of what is in it.
ghost use Rattle.std.specs.{Prelude.{◌≡◌, ◌∷◌, [], true, IfOk}, Option.option_copied};
ghost use Rattle.accounts.specs.{Entries.{entered, with_lines}, Lines.in_order};
ghost use Rattle.basis.specs.Bag.{remade};
ghost use Rattle.books.specs.{Ledgers.changed_if_there, Tables.{maybe_posted, posted_all}};
ghost use Rattle.lifecycle.specs.Changes.{changed, notified, with_acked};
ghost use Rattle.mapbook.specs.{Edits.{account_edited, all_edited}, Plain.plain_records};
ghost use Rattle.mapbook.specs.inner.Posting.{changed_there};
ghost use Rattle.mapbook.specs.inner.Posting as spec;
ghost use Rattle.states.specs.States.{Makes};

use crate::account_edit::AccountEdit;
use crate::content::Content;
use crate::edit::{Edit, message_clone};
use crate::plain::Plain;
use accounts::{Account, Counters, LapseEntry, LineChange, LineSwap, Message};
use basis::registrar::RegistrarNo;
use basis::text::Text;
use books::Posts;
use lifecycle::{AccountChange, Notification, RefundUnder};
use policy::Policy;
use states::BookFault;
use std::alloc::{AllocError, Global};

impl Plain {
    /// Makes changes of an account, if there are any.
    pub(crate) fn post_if_any(
        &mut self,
        posts: Option<Posts>,
        policy: &Policy,
    ) -> Result<(), BookFault>
        requires { self.old.is_open ≡ true }
        ensures { Makes result (maybe_posted policy.now posts (plain_records self.old).content)
            (plain_records self.old) (plain_records self.new) }
    {
        match posts {
            None => Ok(()),
            Some(posts) => self.post_all(posts, policy),
        }
    }

    /// Makes changes of an account, in their order. What was never opened is opened.
    pub(crate) fn post_all(&mut self, posts: Posts, policy: &Policy) -> Result<(), BookFault>
        requires { self.old.is_open ≡ true }
        ensures { Makes result (posted_all policy.now posts (plain_records self.old).content)
            (plain_records self.old) (plain_records self.new) }
    {
        self.open_account(posts.registrar)?;
        self.change_each(posts.registrar, posts.changes, policy)
    }

    /// The registrar has an account. One that it has stays as it is.
    fn open_account(&mut self, registrar: RegistrarNo) -> Result<(), BookFault>
        requires { self.old.is_open ≡ true }
        ensures { Makes result (spec.account_opened registrar (plain_records self.old).content)
            (plain_records self.old) (plain_records self.new) }
    {
        if self.content.has_account(registrar) {
            return Ok(());
        }
        let account = Account::empty(self.content.alloc);
        self.set(Edit::Account(registrar, Some(account)))
    }

    /// Makes changes of an account, one after another, where it is there.
    fn change_each(
        &mut self,
        registrar: RegistrarNo,
        changes: Vec<AccountChange>,
        policy: &Policy,
    ) -> Result<(), BookFault>
        requires { self.old.is_open ≡ true }
        ensures { Makes result (spec.changed_each registrar (changed policy.now) changes.items
            (plain_records self.old).content) (plain_records self.old) (plain_records self.new) }
    {
        for what in changes {
            self.change(registrar, what, policy)?;
        }
        Ok(())
    }

    /// Makes a change of an account, where it is there.
    fn change(
        &mut self,
        registrar: RegistrarNo,
        what: AccountChange,
        policy: &Policy,
    ) -> Result<(), BookFault>
        requires { self.old.is_open ≡ true }
        ensures { Makes result (changed_there registrar (changed policy.now what)
            (plain_records self.old).content) (plain_records self.old) (plain_records self.new) }
    {
        let edits = self.content.edits_for(registrar, what, policy)?;
        self.edit_each(registrar, edits)
    }

    /// Makes edits of an account, one after another, where it is there.
    fn edit_each(
        &mut self,
        registrar: RegistrarNo,
        edits: Vec<AccountEdit>,
    ) -> Result<(), BookFault>
        requires { self.old.is_open ≡ true }
        ensures { Makes result (spec.changed_each registrar account_edited edits.items
            (plain_records self.old).content) (plain_records self.old) (plain_records self.new) }
    {
        for edit in edits {
            self.set(Edit::Within(registrar, edit))?;
        }
        Ok(())
    }
}

impl Content {
    /// The edits that make a change of an account, where it is there.
    fn edits_for(
        &self,
        registrar: RegistrarNo,
        what: AccountChange,
        policy: &Policy,
    ) -> Result<Vec<AccountEdit>, AllocError>
        ensures { IfOk result (λ edits. changed_if_there (all_edited edits.items) self.now.accounts registrar
            ≡ changed_if_there (changed policy.now what) self.now.accounts registrar) }
    {
        match self.accounts.get(registrar) {
            None => Ok(Vec::new(self.alloc)),
            Some(account) => edits_of(self.alloc, account, what, policy),
        }
    }
}

/// The edits that make a change of an account.
fn edits_of(
    alloc: Global,
    account: &Account,
    what: AccountChange,
    policy: &Policy,
) -> Result<Vec<AccountEdit>, AllocError>
    ensures { IfOk result (λ edits. all_edited edits.items account.now
        ≡ changed policy.now what account.now) }
{
    match what {
        AccountChange::Charge(line) => only(alloc, AccountEdit::AddLine(line)),
        AccountChange::RefundRunning(refund) => {
            lines_changed(alloc, account, &RefundUnder { refund, policy })
        }
        AccountChange::RefundTransfer(refund) => lines_changed(alloc, account, &refund),
        AccountChange::Lapse(what) => entered(alloc, account, what),
        AccountChange::Notify(notification) => notified(alloc, account, notification),
        AccountChange::Ack(id) => acknowledged(alloc, account, &id),
        AccountChange::CountCommand => {
            only(
                alloc,
                AccountEdit::Count(Counters::of(account).next_command()),
            )
        }
        AccountChange::TakeSerial => {
            only(
                alloc,
                AccountEdit::Count(Counters::of(account).next_serial()),
            )
        }
    }
}

/// One edit and no other.
fn only(alloc: Global, edit: AccountEdit) -> Result<Vec<AccountEdit>, AllocError>
    ensures { IfOk result (λ edits. edits.items ≡ edit ∷ []) }
{
    Ok(vec![in alloc; edit]?)
}

/// The edits that enter what time brings.
fn entered(
    alloc: Global,
    account: &Account,
    what: LapseEntry,
) -> Result<Vec<AccountEdit>, AllocError>
    ensures { IfOk result (λ edits. all_edited edits.items account.now ≡ entered what account.now) }
{
    match what {
        LapseEntry::Renewal(renewal) => only(alloc, AccountEdit::AddLine(renewal.line())),
        LapseEntry::Start(start) => lines_changed(alloc, account, &start),
        LapseEntry::Notice(message) => only(alloc, AccountEdit::AddMessage(message)),
    }
}

/// The edits that change a domain's lines.
fn lines_changed<C: LineChange>(
    alloc: Global,
    account: &Account,
    change: &C,
) -> Result<Vec<AccountEdit>, AllocError>
    ensures { IfOk result (λ edits. all_edited edits.items account.now
        ≡ with_lines (remade in_order (C.changed change.now)) account.now) }
{
    let swaps = account.lines.swaps(change)?;
    each_swapped(alloc, swaps)
}

/// One line for another, for each of these.
fn each_swapped(alloc: Global, swaps: Vec<LineSwap>) -> Result<Vec<AccountEdit>, AllocError>
    ensures { IfOk result (λ edits. edits.items ≡ spec.swap_edits swaps.items) }
{
    let mut edits = Vec::new(alloc);
    for swap in swaps {
        edits.push(AccountEdit::TakeLine(swap.from))?;
        edits.push(AccountEdit::AddLine(swap.to))?;
    }
    Ok(edits)
}

/// The edits that put a command's message into the queue, and count it.
fn notified(
    alloc: Global,
    account: &Account,
    notification: Notification,
) -> Result<Vec<AccountEdit>, AllocError>
    ensures { IfOk result (λ edits. all_edited edits.items account.now
        ≡ notified notification account.now) }
{
    let counters = Counters::of(account).next_message();
    let message = notification.numbered(counters.messages);
    Ok(vec![in alloc;
        AccountEdit::AddMessage(message),
        AccountEdit::Count(counters),
    ]?)
}

/// The edits that take the oldest message out, where it has this identifier.
fn acknowledged(alloc: Global, account: &Account, id: &Text) -> Result<Vec<AccountEdit>, AllocError>
    ensures { IfOk result (λ edits. all_edited edits.items account.now ≡ with_acked id.now account.now) }
{
    taken_if_named(alloc, account.queue.oldest(), id)
}

/// The edits that take a message out, where it has this identifier.
fn taken_if_named(
    alloc: Global,
    oldest: Option<&Message>,
    id: &Text,
) -> Result<Vec<AccountEdit>, AllocError>
    ensures { IfOk result (λ edits. edits.items ≡ spec.ack_edits id.now (option_copied oldest.entry)) }
{
    let Some(message) = oldest else {
        return Ok(Vec::new(alloc));
    };
    if message.id(alloc)? != *id {
        return Ok(Vec::new(alloc));
    }
    only(alloc, AccountEdit::TakeMessage(message_clone(message)?))
}
