//! What a book keeps, by key.
ghost use Rattle.std.specs.Prelude.{◌≡◌, Bool, true, false, nat_le, length, slice_get, Some, None};
ghost use Rattle.std.specs.List.{filter};
ghost use Rattle.std.specs.FinMap as finmap;
ghost use Rattle.accounts.specs.Lines as lines;
ghost use Rattle.facts.specs.Facts as facts;
ghost use Rattle.model.specs.{Registry.account_of, Zone.{delegations, host_addresses_at}};
ghost use Rattle.books.specs.Book.{with_terms};
ghost use Rattle.books.specs.Lookups.{first_due, has_contact, has_host, superordinate_at};
ghost use Rattle.books.specs.Records.{FindsIn, FindsSomeIn, IsDueNear, MakesOf};
ghost use Rattle.accounts.specs.Counters.{counters_of};
ghost use Rattle.states.specs.States.{Begins, Closes, Ends, Finds};
ghost use Rattle.books.specs.Tables as tables;

use accounts::{Counters, Lines, Message};
use basis::list::Seq;
use basis::registrar::RegistrarNo;
use basis::text::Text;
use calendar::Moment;
use concerns::Names;
use facts::{HOLDING_LIMIT, Superordinate};
use lifecycle::{AccountChange, Due};
use objects::{Contact, Delegation, Domain, Host, Roid};
use policy::{Policy, Terms};
use states::{BookFault, Ready};
use std::alloc::Global;

/// What is done to a registrar's account, in this order.
#[derive(Drop)]
pub struct Posts {
    pub registrar: RegistrarNo,
    pub changes: Vec<AccountChange>,
}

/// The records of a registry, by key: what a book is made of. A call that fails says nothing of the
/// content but where `back` leads. Each question is answered by a key or an index, and each change is
/// one row put or dropped, but where its text says that all records are gone through.
pub trait Records {
    ghost use Rattle.books.specs.Records.{RecordsState};
    ghost use Rattle.states.specs.States.{IsIdle};

    /// Their state.
    ghost kept: { Self → RecordsState };

    ghost idle: { (r : Self) → IsIdle (kept r) };

    ghost REFUSES: { Bool };

    /// Whether what keeps them may refuse a call, as a database may and ordered maps can't.
    const REFUSES: bool;

    /// Where answers are put.
    fn alloc(&self) -> Global;

    /// Whether a transaction is open.
    fn is_open(&self) -> bool
        ensures { result ≡ (kept self.now).is_open };

    /// Whether there is a book in what keeps them.
    fn ready(&mut self) -> Result<Ready, BookFault>
        ensures { Finds result (kept self.old).readiness (kept self.old) (kept self.new) };

    fn clock(&mut self) -> Result<Moment, BookFault>
        ensures { FindsIn result (λ s. s.clock) (kept self.old) (kept self.new) };

    fn terms(&mut self) -> Result<Option<Terms>, BookFault>
        ensures { Finds result (kept self.old).content.terms (kept self.old) (kept self.new) };

    // ---- accounts

    /// What a registrar's account counts: 0 where it was never opened.
    fn counters(&mut self, registrar: RegistrarNo) -> Result<Counters, BookFault>
        ensures { FindsIn result (λ s. counters_of (account_of registrar s))
            (kept self.old) (kept self.new) };

    /// What a registrar's account has, in whole cents.
    fn balance(&mut self, registrar: RegistrarNo) -> Result<i128, BookFault>
        ensures { FindsIn result (λ s. lines.balance (account_of registrar s).lines)
            (kept self.old) (kept self.new) };

    /// The lines of a registrar's account on a domain.
    fn lines_on(&mut self, registrar: RegistrarNo, roid: &Roid) -> Result<Lines, BookFault>
        ensures { FindsIn result (λ s. filter (lines.is_on roid.now) (account_of registrar s).lines)
            (kept self.old) (kept self.new) };

    /// All lines of a registrar's account: none where it was never opened. Each line is gone through.
    fn lines(&mut self, registrar: RegistrarNo) -> Result<Lines, BookFault>
        ensures { FindsIn result (λ s. (account_of registrar s).lines)
            (kept self.old) (kept self.new) };

    /// The message that has waited longest for a registrar.
    fn oldest(&mut self, registrar: RegistrarNo) -> Result<Option<Message>, BookFault>
        ensures { FindsIn result (λ s. slice_get (account_of registrar s).queue 0)
            (kept self.old) (kept self.new) };

    /// How many messages wait for a registrar.
    fn waiting(&mut self, registrar: RegistrarNo) -> Result<u64, BookFault>
        ensures { FindsIn result (λ s. length (account_of registrar s).queue)
            (kept self.old) (kept self.new) };

    // ---- objects

    fn contact(&mut self, name: &Text) -> Result<Option<Contact>, BookFault>
        ensures { FindsIn result (λ s. finmap.get s.contacts name.now)
            (kept self.old) (kept self.new) };

    fn domain(&mut self, name: &Text) -> Result<Option<Domain>, BookFault>
        ensures { FindsIn result (λ s. finmap.get s.domains name.now)
            (kept self.old) (kept self.new) };

    fn host(&mut self, name: &Text) -> Result<Option<Host>, BookFault>
        ensures { FindsIn result (λ s. finmap.get s.hosts name.now)
            (kept self.old) (kept self.new) };

    fn has_contact(&mut self, name: &Text) -> Result<bool, BookFault>
        ensures { FindsIn result (λ s. has_contact s name.now) (kept self.old) (kept self.new) };

    fn has_host(&mut self, name: &Text) -> Result<bool, BookFault>
        ensures { FindsIn result (λ s. has_host s name.now) (kept self.old) (kept self.new) };

    /// Of a domain, what its hosts depend on.
    fn superordinate(&mut self, domain: &Text) -> Result<Option<Superordinate>, BookFault>
        ensures { FindsIn result (λ s. superordinate_at s domain.now)
            (kept self.old) (kept self.new) };

    /// The addresses of the host under a name.
    fn host_addresses(&mut self, name: &Text) -> Result<Option<Seq<Text>>, BookFault>
        ensures { FindsIn result (λ s. host_addresses_at s name.now)
            (kept self.old) (kept self.new) };

    /// What a zone has of each domain, in the order of their names. Every domain is read for it.
    fn delegations(&mut self) -> Result<Seq<Delegation>, BookFault>
        ensures { FindsIn result delegations (kept self.old) (kept self.new) };

    /// Whether a domain names the contact.
    fn is_linked_contact(&mut self, name: &Text) -> Result<bool, BookFault>
        ensures { FindsIn result (λ s. facts.is_linked_contact s name.now)
            (kept self.old) (kept self.new) };

    /// Whether a domain names the host.
    fn is_linked_host(&mut self, name: &Text) -> Result<bool, BookFault>
        ensures { FindsIn result (λ s. facts.is_linked_host s name.now)
            (kept self.old) (kept self.new) };

    /// The hosts below a domain, in the order of their names.
    fn hosts_below(&mut self, domain: &Text) -> Result<Seq<Text>, BookFault>
        ensures { FindsIn result (λ s. facts.subordinate s domain.now)
            (kept self.old) (kept self.new) };

    /// Whether the registrar holds as many domains as it may.
    fn is_at_holding_limit(&mut self, registrar: RegistrarNo) -> Result<bool, BookFault>
        ensures { FindsIn result (λ s. nat_le HOLDING_LIMIT (facts.held registrar s))
            (kept self.old) (kept self.new) };

    /// The objects that time changes or removes up to a moment, so many at most if a number is given, by
    /// the moment of the first change, then contacts first, then by name.
    fn due(
        &mut self,
        moment: Moment,
        most: Option<u32>,
        policy: &Policy,
    ) -> Result<Seq<Due>, BookFault>
        ensures { FindsIn result (first_due policy.now moment most)
            (kept self.old) (kept self.new) };

    /// Some of what is due by a moment, in the same order: all that concerns a registrar, if one is given,
    /// and some names is among it. What isn't near these isn't looked at, where there is a way around it.
    fn due_near(
        &mut self,
        caller: Option<RegistrarNo>,
        names: &Names,
        moment: Moment,
        policy: &Policy,
    ) -> Result<Seq<Due>, BookFault>
        ensures { FindsSomeIn result (IsDueNear policy.now caller names.now moment)
            (kept self.old) (kept self.new) };

    // ---- changes

    fn set_clock(&mut self, moment: Moment) -> Result<(), BookFault>
        requires { (kept self.old).is_open ≡ true }
        ensures { MakesOf result (tables.clock_set moment) (kept self.old) (kept self.new) };

    fn set_terms(&mut self, terms: Terms) -> Result<(), BookFault>
        requires { (kept self.old).is_open ≡ true }
        ensures { MakesOf result (with_terms terms) (kept self.old) (kept self.new) };

    /// Makes changes of an account, in their order. What was never opened is opened. Over rows the account's row
    /// is read once and written once, however many changes there are.
    fn post(&mut self, posts: Posts, policy: &Policy) -> Result<(), BookFault>
        requires { (kept self.old).is_open ≡ true }
        ensures { MakesOf result (tables.posted_all policy.now posts)
            (kept self.old) (kept self.new) };

    /// The contact is under this name.
    fn put_contact(&mut self, name: Text, contact: Contact) -> Result<(), BookFault>
        requires { (kept self.old).is_open ≡ true }
        ensures { MakesOf result (tables.contact_set name (Some contact))
            (kept self.old) (kept self.new) };

    fn drop_contact(&mut self, name: Text) -> Result<(), BookFault>
        requires { (kept self.old).is_open ≡ true }
        ensures { MakesOf result (tables.contact_set name None) (kept self.old) (kept self.new) };

    /// The domain is under this name, or none is. Changes of an account are made before it, if there are any. Over
    /// rows the account's row, which counts the domains that it holds, is read once and written once for both.
    fn set_domain(
        &mut self,
        posts: Option<Posts>,
        name: Text,
        domain: Option<Domain>,
        policy: &Policy,
    ) -> Result<(), BookFault>
        requires { (kept self.old).is_open ≡ true }
        ensures { MakesOf result (λ s. tables.domain_set name domain
            (tables.maybe_posted policy.now posts s)) (kept self.old) (kept self.new) };

    /// The host is under its name.
    fn put_host(&mut self, host: Host) -> Result<(), BookFault>
        requires { (kept self.old).is_open ≡ true }
        ensures { MakesOf result (tables.host_set host.name (Some host))
            (kept self.old) (kept self.new) };

    fn drop_host(&mut self, name: Text) -> Result<(), BookFault>
        requires { (kept self.old).is_open ≡ true }
        ensures { MakesOf result (tables.host_set name None) (kept self.old) (kept self.new) };

    /// A host goes from one name to that of its own, and each domain that named it names it by that. Where there is
    /// no host of the one name, or one of the other, nothing is changed.
    fn rename_host(&mut self, from: Text, host: Host, policy: &Policy) -> Result<(), BookFault>
        requires { (kept self.old).is_open ≡ true }
        ensures { MakesOf result (tables.host_renamed_if_there from host) (kept self.old) (kept self.new) };

    // ---- transactions

    /// Opens a transaction.
    fn begin(&mut self) -> Result<(), BookFault>
        requires { (kept self.old).is_open ≡ false }
        ensures { Begins result (kept self.old) (kept self.new) };

    /// Keeps what the transaction did.
    fn commit(&mut self) -> Result<(), BookFault>
        requires { (kept self.old).is_open ≡ true }
        ensures { Ends result (kept self.old) (kept self.new) };

    /// Goes back to where the transaction began, if one is open. Where that is refused, the next call
    /// goes back first.
    fn back(&mut self)
        ensures { Closes (kept self.old).before (kept self.old) (kept self.new) };
}
