//! What of the accounts in ordered maps is asked.
ghost use Rattle.std.specs.Prelude.{◌≡◌, [], length, slice_get, IfOk, is_some, unwrap_or};
ghost use Rattle.std.specs.{List.filter, Option.option_copied};
ghost use Rattle.std.specs.FinMap as map;
ghost use Rattle.accounts.specs.{Counters.counters_of, Lines.in_order};
ghost use Rattle.accounts.specs.Lines as lines;
ghost use Rattle.basis.specs.Bag.{bag_of};
ghost use Rattle.mapbook.specs.Plain.{registry_in};
ghost use Rattle.model.specs.Registry.{account_of};

use crate::content::Content;
use crate::edit::copy_message;
use accounts::{Counters, Line, Lines, Message, Queue};
use basis::registrar::RegistrarNo;
use objects::Roid;
use std::alloc::{AllocError, Global};

impl Content {
    /// Whether a registrar has an account.
    pub fn has_account(&self, registrar: RegistrarNo) -> bool
        ensures { result ≡ is_some (map.get self.now.accounts registrar) }
    {
        self.accounts.get(registrar).is_some()
    }

    /// A registrar's lines, if it has an account.
    fn lines_held(&self, registrar: RegistrarNo) -> Option<&Lines>
        ensures { unwrap_or (option_copied result) []
            ≡ (account_of registrar (registry_in self.now)).lines }
    {
        match self.accounts.get(registrar) {
            None => None,
            Some(account) => Some(&account.lines),
        }
    }

    /// The messages that wait for a registrar, if it has an account.
    fn queue(&self, registrar: RegistrarNo) -> Option<&Queue>
        ensures { unwrap_or (option_copied result) []
            ≡ (account_of registrar (registry_in self.now)).queue }
    {
        match self.accounts.get(registrar) {
            None => None,
            Some(account) => Some(&account.queue),
        }
    }

    /// What a registrar's account counts: 0 where it was never opened.
    pub fn counters(&self, registrar: RegistrarNo) -> Counters
        ensures { result ≡ counters_of (account_of registrar (registry_in self.now)) }
    {
        match self.accounts.get(registrar) {
            None => Counters::none(),
            Some(account) => Counters::of(account),
        }
    }

    /// What a registrar's account has, in whole cents.
    #[tactic(auto, unfolding(accounts::specs::Lines::balance))]
    pub fn balance(&self, registrar: RegistrarNo) -> i128
        ensures { result ≡ lines.balance (account_of registrar (registry_in self.now)).lines }
    {
        match self.lines_held(registrar) {
            None => 0,
            Some(lines) => lines.balance(),
        }
    }

    /// A registrar's lines.
    pub fn lines(&self, registrar: RegistrarNo) -> Result<Lines, AllocError>
        ensures { IfOk result (λ lines. lines
            ≡ (account_of registrar (registry_in self.now)).lines) }
    {
        match self.lines_held(registrar) {
            None => Ok(Lines::new(self.alloc)),
            Some(lines) => lines_clone(lines),
        }
    }

    /// A registrar's lines on a domain.
    pub fn lines_on(&self, registrar: RegistrarNo, roid: &Roid) -> Result<Lines, AllocError>
        ensures { IfOk result (λ on. on ≡ filter (lines.is_on roid.now)
            (account_of registrar (registry_in self.now)).lines) }
    {
        match self.lines_held(registrar) {
            None => Ok(Lines::new(self.alloc)),
            Some(lines) => bag_of(self.alloc, lines.on(roid)),
        }
    }

    /// The message that has waited longest for a registrar.
    pub fn oldest(&self, registrar: RegistrarNo) -> Result<Option<Message>, AllocError>
        ensures { IfOk result (λ oldest. oldest
            ≡ slice_get (account_of registrar (registry_in self.now)).queue 0) }
    {
        match self.queue(registrar) {
            None => Ok(None),
            Some(queue) => copy_message(queue.oldest()),
        }
    }

    /// How many messages wait for a registrar.
    pub fn waiting(&self, registrar: RegistrarNo) -> u64
        ensures { result ≡ length (account_of registrar (registry_in self.now)).queue }
    {
        match self.queue(registrar) {
            None => 0,
            Some(queue) => queue.waiting() as u64,
        }
    }
}

fn lines_clone(lines: &Lines) -> Result<Lines, AllocError>
    ensures { IfOk result (λ copy. copy ≡ lines.now) }
{
    lines.clone()
}

/// Lines as a bag.
fn bag_of(alloc: Global, lines: &[Line]) -> Result<Lines, AllocError>
    ensures { IfOk result (λ bag. bag ≡ bag_of in_order lines.now) }
{
    let mut bag = Lines::new(alloc);
    for line in lines {
        bag.add(*line)?;
    }
    Ok(bag)
}
