//! A connection to a registry.
ghost use Rattle.std.specs.Prelude.{◌≡◌, None, IfSome};
ghost use Rattle.policy.specs.Rules.{IsRegistrar};
ghost use Rattle.std.proofs.Props.{props};

use crate::answer::{answer_before_login, answer_registrar};
use basis::registrar::RegistrarNo;
use books::Book;
use calendar::Moment;
use frames::{Answer, Peer};
use policy::Passwords;
use registry::Registry;
use std::alloc::Global;

/// A registry, the passwords by which one logs in, and who is logged in on the connection to it.
#[derive(Drop)]
pub struct Connection<'p, B: Book> {
    registry: Registry<B>,
    passwords: &'p Passwords,
    caller: Option<RegistrarNo>,
    alloc: Global,
    ghost known: { IfSome caller (IsRegistrar registry.policy) } by { Prim.hlevel props },
}

impl<'p, B: Book + Drop> Connection<'p, B> {
    /// A connection on which nobody is logged in.
    pub fn new(alloc: Global, registry: Registry<B>, passwords: &'p Passwords) -> Connection<'p, B>
        ensures registry { result.registry ≡ registry }
        ensures passwords { result.passwords.now ≡ passwords.now }
        ensures caller { result.caller ≡ None }
    {
        Connection {
            registry,
            passwords,
            caller: None,
            alloc,
        }
    }

    /// The registry, once the connection is closed.
    pub fn into_registry(self) -> Registry<B>
        ensures { result ≡ self.entry.registry }
    {
        self.registry
    }
}

impl<'p, B: Book + Drop> Peer for Connection<'p, B> {
    ghost use Rattle.std.specs.Prelude.{◌≡◌};
    ghost use Rattle.eppwire.specs.Answers.{Answers};

    ghost answers = { λ old moment payload outcome new.
        Answers old.registry.policy old.passwords.now old.caller payload moment (B.state old.registry.book) outcome (B.state new.registry.book) new.caller
        × (new.registry.policy ≡ old.registry.policy) × (new.passwords.now ≡ old.passwords.now) };

    fn answer(&mut self, payload: &[u8], moment: Moment) -> Answer {
        match self.caller {
            Some(caller) => {
                answer_registrar(self.alloc, &mut self.registry, caller, payload, moment)
            }
            None => {
                let (answer, caller) = answer_before_login(
                    self.alloc,
                    &mut self.registry,
                    self.passwords,
                    payload,
                    moment,
                );
                self.caller = caller;
                answer
            }
        }
    }
}
