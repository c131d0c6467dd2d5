//! How an account is edited in its place, and each edit taken back. No edit copies what it leaves.
ghost use Rattle.std.specs.Prelude.{◌≡◌, IfOk, IfSome, OnErr, OnOk};
ghost use Rattle.mapbook.specs.Edits.{account_edited};

use crate::edit::message_clone;
use accounts::{Account, Counters, Line, Message};
use std::alloc::AllocError;

/// What is done to an account that is there.
#[derive(Drop)]
pub(crate) enum AccountEdit {
    /// It counts this.
    Count(Counters),
    /// A line more.
    AddLine(Line),
    /// A line less, which was added.
    TakeLine(Line),
    /// A message more.
    AddMessage(Message),
    /// A message less, which was put in.
    TakeMessage(Message),
}

impl AccountEdit {
    /// The same in memory of its own.
    pub fn copy(&self) -> Result<AccountEdit, AllocError>
        ensures { IfOk result (λ copy. copy ≡ self.now) }
    {
        match self {
            AccountEdit::Count(counters) => Ok(AccountEdit::Count(*counters)),
            AccountEdit::AddLine(line) => Ok(AccountEdit::AddLine(*line)),
            AccountEdit::TakeLine(line) => Ok(AccountEdit::TakeLine(*line)),
            AccountEdit::AddMessage(message) => {
                Ok(AccountEdit::AddMessage(message_clone(message)?))
            }
            AccountEdit::TakeMessage(message) => {
                Ok(AccountEdit::TakeMessage(message_clone(message)?))
            }
        }
    }

    /// The edit that takes this one back in an account, where there is one.
    pub fn inverse(&self, account: &Account) -> Result<Option<AccountEdit>, AllocError>
        ensures { IfOk result (λ back. IfSome back
            (λ it. account_edited it (account_edited self.now account.now) ≡ account.now)) }
    {
        match self {
            AccountEdit::Count(_) => Ok(Some(AccountEdit::Count(Counters::of(account)))),
            AccountEdit::AddLine(line) => Ok(Some(AccountEdit::TakeLine(*line))),
            AccountEdit::TakeLine(line) if account.lines.has(line) => {
                Ok(Some(AccountEdit::AddLine(*line)))
            }
            AccountEdit::AddMessage(message) if !account.queue.has(message) => {
                Ok(Some(AccountEdit::TakeMessage(message_clone(message)?)))
            }
            AccountEdit::TakeMessage(message) if account.queue.has(message) => {
                Ok(Some(AccountEdit::AddMessage(message_clone(message)?)))
            }
            _ => Ok(None),
        }
    }

    /// Makes the edit.
    pub fn make(self, account: &mut Account) -> Result<(), AllocError>
        ensures ok { OnOk result (account.new ≡ account_edited self account.old) }
        ensures err { OnErr result (account.new ≡ account.old) }
    {
        match self {
            AccountEdit::Count(counters) => {
                counters.give(account);
                Ok(())
            }
            AccountEdit::AddLine(line) => account.lines.add(line),
            AccountEdit::TakeLine(line) => {
                account.lines.take_back(&line);
                Ok(())
            }
            AccountEdit::AddMessage(message) => account.queue.push(message),
            AccountEdit::TakeMessage(message) => {
                account.queue.take_back(&message);
                Ok(())
            }
        }
    }
}
