//! What an account counts, apart from the account.
ghost use Rattle.std.specs.Prelude.{◌≡◌};
ghost use Rattle.accounts.specs.Account.{empty_account};
ghost use Rattle.accounts.specs.Counters as spec;

use crate::account::{Account, saturating_next};

/// What an account counts: commands that were answered, messages that commands brought, and objects
/// that the registrar created.
#[derive(Clone, Copy, Debug, PartialEq, Eq, Drop)]
pub struct Counters {
    pub commands: u64,
    pub messages: u64,
    pub serial: u64,
}

impl Counters {
    /// Those of an account.
    pub fn of(account: &Account) -> Counters
        ensures { result ≡ spec.counters_of account.now }
    {
        Counters {
            commands: account.commands,
            messages: account.messages,
            serial: account.serial,
        }
    }

    /// Those of an account that was never opened.
    pub fn none() -> Counters
        ensures { result ≡ spec.counters_of empty_account }
    {
        Counters {
            commands: 0,
            messages: 0,
            serial: 0,
        }
    }

    /// With one command more.
    pub fn next_command(self) -> Counters
        ensures { result ≡ spec.next_command self }
    {
        Counters {
            commands: saturating_next(self.commands),
            ..self
        }
    }

    /// With one message more.
    pub fn next_message(self) -> Counters
        ensures { result ≡ spec.next_message self }
    {
        Counters {
            messages: saturating_next(self.messages),
            ..self
        }
    }

    /// With one object more.
    pub fn next_serial(self) -> Counters
        ensures { result ≡ spec.next_serial self }
    {
        Counters {
            serial: saturating_next(self.serial),
            ..self
        }
    }

    /// Gives them to an account.
    pub fn give(self, account: &mut Account)
        ensures { account.new ≡ spec.with_counters self account.old }
    {
        account.commands = self.commands;
        account.messages = self.messages;
        account.serial = self.serial;
    }
}
