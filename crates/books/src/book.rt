//! The trait of a place where a registry is kept.
ghost use Rattle.std.specs.Prelude.{◌≡◌, Bool, true, false, None};
ghost use Rattle.books.specs.Book.{BookBegins, BookEnds, BookFinds, BookFindsIn, BookMakesOf};
ghost use Rattle.books.specs.Book.{Follows, IsBack, LeavesHeld, BookLeavesSame, NoRefusal};
ghost use Rattle.books.specs.Book.{with_changes, with_terms};
ghost use Rattle.books.specs.Faces.{contact_face_at, domain_face_at, host_face_at};
ghost use Rattle.books.specs.Lookups.{first_due};
ghost use Rattle.concerns.specs.{Names.{named_by, named_of}, DueFor.due_for};
ghost use Rattle.facts.specs.Facts.{facts};
ghost use Rattle.model.specs.{Objects.object_at, Registry.account_of, Zone.zone_data};

use accounts::Lines;
use basis::list::Seq;
use basis::registrar::RegistrarNo;
use basis::text::Text;
use calendar::Moment;
use decisions::Change;
use facts::Facts;
use lifecycle::Due;
use model::Object;
use objects::{ContactFace, DomainFace, HostFace, ObjectKind, ZoneData};
use policy::{Policy, Terms};
use protocol::Command;
use states::{BookFault, Ready};

/// A place where a registry is kept, with the terms under which it was opened. Changes are made in a
/// transaction. After a fault the content is as it was when the transaction began, and none is open.
pub trait Book {
    ghost use Rattle.books.specs.Book.{BookState};

    /// Its state.
    ghost state: { Self → BookState };

    /// Whether what keeps it may refuse a call.
    ghost refuses: { Bool };

    /// What can't refuse never did, and since a fault of Store is counted, no call on it answers one.
    ghost silent: { (b : Self) → refuses ≡ false → (state b).refused ≡ 0 };

    /// Whether a transaction is open.
    fn active(&self) -> bool
        ensures { result ≡ (state self.now).is_open };

    /// How often what keeps the book refused.
    fn refusals(&self) -> u64
        ensures { result ≡ (state self.now).refused };

    /// Whether there is a book in what keeps it.
    fn ready(&mut self) -> Result<Ready, BookFault>
        ensures { BookFinds result (state self.old).readiness (state self.old) (state self.new) };

    /// The latest moment that was seen.
    fn clock(&mut self) -> Result<Moment, BookFault>
        ensures { BookFindsIn result (λ s. s.clock) (state self.old) (state self.new) };

    /// The terms under which it was opened, if it was.
    fn terms(&mut self) -> Result<Option<Terms>, BookFault>
        ensures { BookFinds result (state self.old).content.terms (state self.old) (state self.new) };

    /// The facts that bear on a registrar's command, under the policy that the book was opened with.
    fn facts_for(
        &mut self,
        caller: RegistrarNo,
        command: &Command,
        policy: &Policy,
    ) -> Result<Facts, BookFault>
        ensures { BookFindsIn result (facts policy.now caller command.now)
            (state self.old) (state self.new) };

    /// The object of a kind under a name.
    fn object_at(&mut self, kind: ObjectKind, name: &Text) -> Result<Option<Object>, BookFault>
        ensures { BookFindsIn result (λ s. object_at s kind name.now)
            (state self.old) (state self.new) };

    /// What everyone may know of the domain under a name, under the policy that the book was opened
    /// with.
    fn domain_face(&mut self, name: &Text, policy: &Policy) -> Result<Option<DomainFace>, BookFault>
        ensures { BookFindsIn result (λ s. domain_face_at policy.now s name.now)
            (state self.old) (state self.new) };

    /// The same of a host.
    fn host_face(&mut self, name: &Text, policy: &Policy) -> Result<Option<HostFace>, BookFault>
        ensures { BookFindsIn result (λ s. host_face_at policy.now s name.now)
            (state self.old) (state self.new) };

    /// The same of a contact, which shows whether it is linked.
    fn contact_face(&mut self, name: &Text) -> Result<Option<ContactFace>, BookFault>
        ensures { BookFindsIn result (λ s. contact_face_at s name.now)
            (state self.old) (state self.new) };

    /// What a zone has: every domain is read for it.
    fn zone_data(&mut self, policy: &Policy) -> Result<ZoneData, BookFault>
        ensures { BookFindsIn result (zone_data policy.now.zone) (state self.old) (state self.new) };

    /// The lines of a registrar's account: none where it was never opened.
    fn lines(&mut self, registrar: RegistrarNo) -> Result<Lines, BookFault>
        ensures { BookFindsIn result (λ s. (account_of registrar s).lines)
            (state self.old) (state self.new) };

    /// The objects that time changes or removes up to a moment, so many at most if a number is given,
    /// by the moment of the first change, then contacts first, then by name.
    fn due(
        &mut self,
        moment: Moment,
        most: Option<u32>,
        policy: &Policy,
    ) -> Result<Seq<Due>, BookFault>
        ensures { BookFindsIn result (first_due policy.now moment most)
            (state self.old) (state self.new) };

    /// Of what is due by a moment, in the same order, the part that concerns a command. That is what its
    /// caller, if one is given, sponsors, and what a pending transfer brings to it or takes away. It is
    /// also what the command names, the domains that name such a contact or host, and the superordinate
    /// domains of such hosts.
    fn due_for(
        &mut self,
        caller: Option<RegistrarNo>,
        command: &Command,
        moment: Moment,
        policy: &Policy,
    ) -> Result<Seq<Due>, BookFault>
        ensures { BookFindsIn result (due_for policy.now caller (named_by command.now) moment)
            (state self.old) (state self.new) };

    /// The same of an info of an object, whoever asks.
    fn due_at(
        &mut self,
        kind: ObjectKind,
        name: &Text,
        moment: Moment,
        policy: &Policy,
    ) -> Result<Seq<Due>, BookFault>
        ensures { BookFindsIn result (due_for policy.now None (named_of kind name.now) moment)
            (state self.old) (state self.new) };

    /// Opens a transaction.
    fn begin(&mut self) -> Result<(), BookFault>
        requires { (state self.old).is_open ≡ false }
        ensures { BookBegins result (state self.old) (state self.new) };

    /// Makes changes in the open transaction, one after another, under the policy that the book is
    /// opened with.
    fn apply(&mut self, changes: Seq<Change>, policy: &Policy) -> Result<(), BookFault>
        requires { (state self.old).is_open ≡ true }
        ensures { BookMakesOf result (with_changes policy.now changes)
            (state self.old) (state self.new) };

    /// Puts down the terms under which it is opened, in the open transaction.
    fn keep_terms(&mut self, terms: Terms) -> Result<(), BookFault>
        requires { (state self.old).is_open ≡ true }
        ensures { BookMakesOf result (with_terms terms) (state self.old) (state self.new) };

    /// Keeps what the transaction did.
    fn commit(&mut self) -> Result<(), BookFault>
        requires { (state self.old).is_open ≡ true }
        ensures ends { BookEnds result (state self.old) (state self.new) }
        ensures leaves { LeavesHeld result (state self.old) (state self.new) };

    /// Goes back to where the transaction began. Where that is refused, the next call goes back first,
    /// and it is that call which counts the refusal.
    fn back(&mut self)
        requires { (state self.old).is_open ≡ true }
        ensures back { IsBack (state self.old) (state self.new) }
        ensures silent { NoRefusal (state self.old) (state self.new) }
        ensures follows { Follows (state self.old) (state self.new) }
        ensures leaves { BookLeavesSame (state self.old) (state self.new) };
}
