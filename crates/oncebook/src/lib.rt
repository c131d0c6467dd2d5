//! For tests: a book that refuses one call.
#![tactic(auto)]

ghost use Rattle.std.specs.Prelude.{◌≡◌, ◌≢◌, ◌↔◌, ◌+◌, ◌&&◌, min, nat_eq, true, IsTrue, Err};
ghost use Rattle.oncebook.specs.Once.{RefusesOnce, with_refusals};

use accounts::Lines;
use basis::list::Seq;
use basis::registrar::RegistrarNo;
use basis::text::Text;
use books::Book;
use calendar::Moment;
use decisions::Change;
use facts::Facts;
use lifecycle::Due;
use model::Object;
use objects::{ContactFace, DomainFace, HostFace, ObjectKind, ZoneData};
use policy::{Policy, Terms};
use protocol::Command;
use states::{BookFault, Ready};

/// A book over another one, of which one call answers Store, whatever it is, and all others what the other
/// book answers. With it tests show that nothing is left of a call in which any one step was refused. What
/// it refused itself had no cause, so from then on it doesn't say that it is honest.
#[derive(Drop)]
pub struct OnceBook<B> {
    inner: B,
    place: u64,
    calls: u64,
    refused: u64,
}

impl<B> OnceBook<B> {
    /// A book that refuses one call, after so many others; with `u64::MAX` none.
    pub fn new(inner: B, place: u64) -> OnceBook<B>
        ensures inner { result.inner ≡ inner }
        ensures place { result.place ≡ place }
        ensures calls { result.calls ≡ 0 }
        ensures refused { result.refused ≡ 0 }
    {
        OnceBook {
            inner,
            place,
            calls: 0,
            refused: 0,
        }
    }

    /// How many calls were made so far that could have been refused.
    pub fn calls(&self) -> u64
        ensures { result ≡ self.now.calls }
    {
        self.calls
    }

    /// Whether it has refused its call.
    pub fn has_refused(&self) -> bool
        ensures { IsTrue result ↔ self.now.refused ≢ 0 }
    {
        self.refused > 0
    }

    /// The book below, as it is.
    pub fn into_inner(self) -> B
        ensures { result ≡ self.inner }
    {
        self.inner
    }

    /// Whether the call that begins is the one.
    fn is_next(&mut self) -> bool
        ensures inner { self.new.inner ≡ self.old.inner }
        ensures place { self.new.place ≡ self.old.place }
        ensures refused { self.new.refused ≡ self.old.refused }
        ensures counted { self.new.calls ≡ min (self.old.calls + 1) 0xFFFF_FFFF_FFFF_FFFF }
        ensures next { result ≡ (nat_eq self.old.calls self.old.place
            && nat_eq self.old.refused 0) }
    {
        let is_next = self.calls == self.place && self.refused == 0;
        self.calls = self.calls.saturating_add(1);
        is_next
    }
}

impl<B: Book> OnceBook<B> {
    /// Goes back, and counts a refusal.
    fn rollback_and_count<T>(&mut self) -> Result<T, BookFault>
        ensures fault { result ≡ Err BookFault.Store }
        ensures back { RefusesOnce (with_refusals self.old.refused (B.state self.old.inner))
            (with_refusals self.new.refused (B.state self.new.inner)) }
    {
        if self.inner.active() {
            self.inner.back();
        }
        self.refused = self.refused.saturating_add(1);
        Err(BookFault::Store)
    }
}

/// What the other book answers, unless the call that begins is the one that is refused.
macro_rules! unless_next {
    ($book:ident, $answer:expr) => {
        if $book.is_next() {
            $book.rollback_and_count()
        } else {
            $answer
        }
    };
}

impl<B: Book> Book for OnceBook<B> {
    ghost use Rattle.std.specs.Prelude.{true};
    ghost use Rattle.books.specs.Kept.{none_refused};
    ghost use Rattle.oncebook.specs.Once.{with_refusals};

    ghost state = { λ b. with_refusals b.refused (B.state b.inner) };

    ghost refuses = { true };

    ghost silent = { λ b e. none_refused true (with_refusals b.refused (B.state b.inner)).refused e };

    fn active(&self) -> bool {
        self.inner.active()
    }

    fn refusals(&self) -> u64 {
        self.inner.refusals().saturating_add(self.refused)
    }

    fn ready(&mut self) -> Result<Ready, BookFault> {
        unless_next!(self, self.inner.ready())
    }

    fn clock(&mut self) -> Result<Moment, BookFault> {
        unless_next!(self, self.inner.clock())
    }

    fn terms(&mut self) -> Result<Option<Terms>, BookFault> {
        unless_next!(self, self.inner.terms())
    }

    fn facts_for(
        &mut self,
        caller: RegistrarNo,
        command: &Command,
        policy: &Policy,
    ) -> Result<Facts, BookFault> {
        unless_next!(self, self.inner.facts_for(caller, command, policy))
    }

    fn object_at(&mut self, kind: ObjectKind, name: &Text) -> Result<Option<Object>, BookFault> {
        unless_next!(self, self.inner.object_at(kind, name))
    }

    fn domain_face(
        &mut self,
        name: &Text,
        policy: &Policy,
    ) -> Result<Option<DomainFace>, BookFault> {
        unless_next!(self, self.inner.domain_face(name, policy))
    }

    fn host_face(&mut self, name: &Text, policy: &Policy) -> Result<Option<HostFace>, BookFault> {
        unless_next!(self, self.inner.host_face(name, policy))
    }

    fn contact_face(&mut self, name: &Text) -> Result<Option<ContactFace>, BookFault> {
        unless_next!(self, self.inner.contact_face(name))
    }

    fn zone_data(&mut self, policy: &Policy) -> Result<ZoneData, BookFault> {
        unless_next!(self, self.inner.zone_data(policy))
    }

    fn lines(&mut self, registrar: RegistrarNo) -> Result<Lines, BookFault> {
        unless_next!(self, self.inner.lines(registrar))
    }

    fn due(
        &mut self,
        moment: Moment,
        most: Option<u32>,
        policy: &Policy,
    ) -> Result<Seq<Due>, BookFault> {
        unless_next!(self, self.inner.due(moment, most, policy))
    }

    fn due_for(
        &mut self,
        caller: Option<RegistrarNo>,
        command: &Command,
        moment: Moment,
        policy: &Policy,
    ) -> Result<Seq<Due>, BookFault> {
        unless_next!(self, self.inner.due_for(caller, command, moment, policy))
    }

    fn due_at(
        &mut self,
        kind: ObjectKind,
        name: &Text,
        moment: Moment,
        policy: &Policy,
    ) -> Result<Seq<Due>, BookFault> {
        unless_next!(self, self.inner.due_at(kind, name, moment, policy))
    }

    fn begin(&mut self) -> Result<(), BookFault> {
        unless_next!(self, self.inner.begin())
    }

    fn apply(&mut self, changes: Seq<Change>, policy: &Policy) -> Result<(), BookFault> {
        unless_next!(self, self.inner.apply(changes, policy))
    }

    fn keep_terms(&mut self, terms: Terms) -> Result<(), BookFault> {
        unless_next!(self, self.inner.keep_terms(terms))
    }

    fn commit(&mut self) -> Result<(), BookFault> {
        unless_next!(self, self.inner.commit())
    }

    fn back(&mut self) {
        self.inner.back();
    }
}
