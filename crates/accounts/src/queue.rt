//! A registrar's queue of messages (RFC 5730, 2.9.2.3) as contracts see it: a list in their order.
ghost use Rattle.std.specs.Prelude.{◌≡◌, ◌==◌, [], true, length, slice_get, IfOk, OnOk, OnErr};
ghost use Rattle.std.specs.Option.{option_copied};
ghost use Rattle.accounts.specs.Queue as spec;

use crate::message::Message;
use basis::text::Text;
use std::alloc::{AllocError, Global};
use std::collections::BTreeSet;
use std::marker::Model;

/// An ordered set of messages. To put one in or to take the oldest out takes time in the logarithm of
/// their number.
#[derive(Clone, Drop)]
pub struct Queue {
    messages: BTreeSet<Message>,
}

impl Model for Queue {
    ghost use Rattle.std.specs.Prelude.{List};
    ghost use Rattle.accounts.specs.declared.message.Message.{Message};

    ghost Value = { List Message };

    ghost view = { λ q. q.messages.keys };
}

impl Queue {
    pub fn new(alloc: Global) -> Queue
        ensures { result ≡ [] }
    {
        Queue {
            messages: BTreeSet::new(alloc),
        }
    }

    /// How many messages wait.
    pub fn waiting(&self) -> usize
        ensures { result ≡ length self.now }
    {
        self.messages.len()
    }

    /// The message that a poll shows.
    pub fn oldest(&self) -> Option<&Message>
        ensures { option_copied result ≡ slice_get self.now 0 }
    {
        self.messages.first()
    }

    /// Puts a message where it belongs, unless it is there.
    pub fn push(&mut self, message: Message) -> Result<(), AllocError>
        ensures ok { OnOk result (self.new ≡ spec.put message self.old) }
        ensures err { OnErr result (self.new ≡ self.old) }
    {
        self.messages.insert(message)?;
        Ok(())
    }

    /// Whether a message is there, so that it can be taken out and put back.
    pub fn has(&self, message: &Message) -> bool
        ensures there { result ≡ spec.has message.now self.now }
        ensures back { result ≡ true
            → spec.put message.now (spec.dropped message.now self.now) ≡ self.now }
    {
        self.messages.len() > 0 && self.messages.contains(message)
    }

    /// Takes a message back that was put in.
    pub fn take_back(&mut self, message: &Message)
        ensures { self.new ≡ spec.dropped message.now self.old }
    {
        self.messages.remove(message);
    }

    /// Takes the oldest message out where it has this identifier, and returns whether it has.
    pub fn ack(&mut self, alloc: Global, id: &Text) -> Result<bool, AllocError>
        ensures answer { IfOk result (λ done. done ≡ spec.is_oldest id.now self.old) }
        ensures ok { OnOk result (self.new ≡ spec.acked id.now self.old) }
        ensures err { OnErr result (self.new ≡ self.old) }
    {
        if !self.is_oldest(alloc, id)? {
            return Ok(false);
        }
        let _ = self.messages.pop_first();
        Ok(true)
    }

    /// Whether the oldest message has this identifier.
    pub fn is_oldest(&self, alloc: Global, id: &Text) -> Result<bool, AllocError>
        ensures { IfOk result (λ found. found ≡ spec.is_oldest id.now self.now) }
    {
        match self.oldest() {
            None => Ok(false),
            Some(message) => Ok(message.id(alloc)? == *id),
        }
    }
}
