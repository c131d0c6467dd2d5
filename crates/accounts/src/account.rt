//! A registrar's account.
ghost use Rattle.std.specs.Prelude.{◌≡◌};
ghost use Rattle.accounts.specs.Account.{empty_account, saturating_next};

use crate::lines::Lines;
use crate::queue::Queue;
use std::alloc::Global;

/// What belongs to one registrar alone. Each counter stays at its greatest value.
#[derive(Clone, Drop)]
pub struct Account {
    /// Deposits and charges.
    pub lines: Lines,
    /// The messages that wait, in their order.
    pub queue: Queue,
    /// The commands that were answered.
    pub commands: u64,
    /// The messages that commands brought.
    pub messages: u64,
    /// The objects that the registrar created.
    pub serial: u64,
}

/// The next value of a counter, which stays at its greatest.
pub fn saturating_next(counter: u64) -> u64
    ensures { result ≡ saturating_next counter }
{
    counter.saturating_add(1)
}

impl Account {
    /// An account with nothing in it.
    pub fn empty(alloc: Global) -> Account
        ensures { result ≡ empty_account }
    {
        Account {
            lines: Lines::new(alloc),
            queue: Queue::new(alloc),
            commands: 0,
            messages: 0,
            serial: 0,
        }
    }
}
