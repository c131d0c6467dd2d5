//! A book that is made of records.
ghost use Rattle.std.specs.Prelude.{◌≡◌, ◌≤◌};
ghost use Rattle.books.specs.{Book.HasRefused, Kept.{GaveUp, book_state, state_of}};
ghost use Rattle.books.specs.Kept as spec;

use crate::book::Book;
use crate::records::Records;
use crate::zone::zone_data;
use crate::{applying, concerning, faces, finding};
use accounts::Lines;
use basis::list::Seq;
use basis::registrar::RegistrarNo;
use basis::text::Text;
use calendar::Moment;
use decisions::Change;
use facts::Facts;
use lifecycle::Due;
use model::Object;
use objects::{ContactFace, DomainFace, HostFace, ObjectKind, ZoneData};
use policy::{Policy, Terms};
use protocol::Command;
use states::{BookFault, Ready};

/// A book over records. It counts what they refuse, and goes back after each fault.
#[derive(Drop)]
pub struct Kept<R> {
    records: R,
    refused: u64,
}

impl<R> Kept<R> {
    /// A book over records of which none was refused yet.
    pub fn over(records: R) -> Self
        ensures records { result.records ≡ records }
        ensures refused { result.refused ≡ 0 }
    {
        Kept {
            records,
            refused: 0,
        }
    }

    /// Gives the records back, as they are.
    pub fn into_records(self) -> R
        ensures { result ≡ self.records }
    {
        self.records
    }
}

impl<R: Records> Kept<R> {
    /// One refusal more.
    fn count(&mut self)
        ensures same { self.new.records ≡ self.old.records }
        ensures counted { self.old.refused ≤ self.new.refused }
        ensures refused { HasRefused (book_state (R.kept self.old.records) self.old.refused)
            (book_state (R.kept self.new.records) self.new.refused) }
    {
        self.refused = self.refused.saturating_add(1);
    }

    /// Goes back because of a fault, and counts a refusal. What can't refuse gives up for want of memory,
    /// whatever it says. Gives what is to be answered.
    #[tactic(auto, using(crate::proofs::KeptLemmas::counts))]
    fn rollback_and_count(&mut self, fault: BookFault) -> BookFault
        ensures { GaveUp result (state_of (R.kept self.old.records) R.REFUSES self.old.refused)
            (state_of (R.kept self.new.records) R.REFUSES self.new.refused) }
    {
        self.records.back();
        if !R::REFUSES {
            return BookFault::Memory;
        }
        match fault {
            BookFault::Memory => {}
            BookFault::Store => self.count(),
        }
        fault
    }
}

/// How often what keeps a book refused, where it can refuse at all.
fn refusals_of(refuses: bool, refused: u64) -> u64
    ensures { result ≡ spec.refusals_of refuses refused }
{
    if refuses { refused } else { 0 }
}

/// What the records answer. After a fault of theirs the book goes back.
macro_rules! answered {
    ($book:ident, $answer:expr) => {
        match $answer {
            Ok(answer) => Ok(answer),
            Err(fault) => Err($book.rollback_and_count(fault)),
        }
    };
}

impl<R: Records> Book for Kept<R> {
    ghost use Rattle.books.specs.Kept.{none_refused, state_of};

    ghost state = { λ b. state_of (R.kept b.records) R.REFUSES b.refused };

    ghost refuses = { R.REFUSES };

    ghost silent = { λ b e. none_refused R.REFUSES b.refused e };

    fn active(&self) -> bool {
        self.records.is_open()
    }

    fn refusals(&self) -> u64 {
        refusals_of(R::REFUSES, self.refused)
    }

    fn ready(&mut self) -> Result<Ready, BookFault> {
        answered!(self, self.records.ready())
    }

    fn clock(&mut self) -> Result<Moment, BookFault> {
        answered!(self, self.records.clock())
    }

    fn terms(&mut self) -> Result<Option<Terms>, BookFault> {
        answered!(self, self.records.terms())
    }

    fn facts_for(
        &mut self,
        caller: RegistrarNo,
        command: &Command,
        policy: &Policy,
    ) -> Result<Facts, BookFault> {
        answered!(
            self,
            finding::facts_for(&mut self.records, caller, command, policy)
        )
    }

    fn object_at(&mut self, kind: ObjectKind, name: &Text) -> Result<Option<Object>, BookFault> {
        answered!(self, finding::object_at(&mut self.records, kind, name))
    }

    fn domain_face(
        &mut self,
        name: &Text,
        policy: &Policy,
    ) -> Result<Option<DomainFace>, BookFault> {
        answered!(self, faces::domain_face(&mut self.records, name, policy))
    }

    fn host_face(&mut self, name: &Text, policy: &Policy) -> Result<Option<HostFace>, BookFault> {
        answered!(self, faces::host_face(&mut self.records, name, policy))
    }

    fn contact_face(&mut self, name: &Text) -> Result<Option<ContactFace>, BookFault> {
        answered!(self, faces::contact_face(&mut self.records, name))
    }

    fn zone_data(&mut self, policy: &Policy) -> Result<ZoneData, BookFault> {
        answered!(self, zone_data(&mut self.records, policy.zone()))
    }

    fn lines(&mut self, registrar: RegistrarNo) -> Result<Lines, BookFault> {
        answered!(self, self.records.lines(registrar))
    }

    fn due(
        &mut self,
        moment: Moment,
        most: Option<u32>,
        policy: &Policy,
    ) -> Result<Seq<Due>, BookFault> {
        answered!(self, self.records.due(moment, most, policy))
    }

    fn due_for(
        &mut self,
        caller: Option<RegistrarNo>,
        command: &Command,
        moment: Moment,
        policy: &Policy,
    ) -> Result<Seq<Due>, BookFault> {
        answered!(
            self,
            concerning::due_for(&mut self.records, caller, command, moment, policy)
        )
    }

    fn due_at(
        &mut self,
        kind: ObjectKind,
        name: &Text,
        moment: Moment,
        policy: &Policy,
    ) -> Result<Seq<Due>, BookFault> {
        answered!(
            self,
            concerning::due_at(&mut self.records, kind, name, moment, policy)
        )
    }

    fn begin(&mut self) -> Result<(), BookFault> {
        answered!(self, self.records.begin())
    }

    fn apply(&mut self, changes: Seq<Change>, policy: &Policy) -> Result<(), BookFault> {
        answered!(self, applying::apply(&mut self.records, changes, policy))
    }

    fn keep_terms(&mut self, terms: Terms) -> Result<(), BookFault> {
        answered!(self, self.records.set_terms(terms))
    }

    fn commit(&mut self) -> Result<(), BookFault> {
        answered!(self, self.records.commit())
    }

    fn back(&mut self) {
        self.records.back();
    }
}
