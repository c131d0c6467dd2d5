//! The records of a registry in the rows of a database.
ghost use Rattle.std.specs.Prelude.{◌≡◌, true};
ghost use Rattle.states.specs.States.{IsIdle};
ghost use Rattle.sqlbook.specs.{Meaning.are_right, BetweenCalls.{UndoneIfFault, IsBetweenCalls}};

use crate::provenance::Provenance;
use crate::{changed_accounts, changed_domains, changed_terms, questions, renaming};
use accounts::{Counters, Lines, Message};
use basis::list::Seq;
use basis::registrar::RegistrarNo;
use basis::text::Text;
use books::{Posts, Records};
use calendar::Moment;
use concerns::Names;
use facts::{HOLDING_LIMIT, Superordinate};
use lifecycle::Due;
use objects::{Contact, Delegation, Domain, Host, Roid};
use policy::{Policy, Terms};
use sqlite::Alter;
use sqltables::RowStore;
use states::{BookFault, Ready};
use std::alloc::Global;

/// The records of a registry in the tables of a database. After a fault no transaction is open:
/// what was begun is undone at once.
#[derive(Drop)]
pub struct SqlRecords<S: Alter, O: Provenance<S>> {
    pub(crate) store: RowStore<S>,
    pub(crate) alloc: Global,
    pub(crate) provenance: O,
    ghost steady: { IsBetweenCalls O.is_made are_right store },
}

impl<S: Alter, O: Provenance<S> + Drop> SqlRecords<S, O> {
    /// Gives the rows back, as they are.
    pub fn into_rows(self) -> RowStore<S>
        ensures { result ≡ self.store }
    {
        self.store
    }
}

/// What a call on rows said. After a fault the transaction is undone.
fn rollback_on_fault<S: Alter, O: Provenance<S>, T>(
    store: &mut RowStore<S>,
    said: Result<T, BookFault>,
) -> Result<T, BookFault>
    ensures same { result ≡ said }
    ensures on { UndoneIfFault said store.old store.new }
    ensures idle { IsIdle store.new }
    ensures clean { O.is_made ≡ true → store.new.is_clean ≡ true }
{
    if said.is_err() {
        store.back();
    }
    store.show_rest();
    O::show_clean(store);
    said
}

impl<S: Alter, O: Provenance<S>> Records for SqlRecords<S, O> {
    ghost use Rattle.sqlbook.specs.Meaning.{are_right, stored_of};
    ghost use Rattle.sqlbook.specs.AsBook.{as_book};

    ghost kept = { λ r. as_book stored_of are_right r.store };

    ghost idle = { λ r e i. stored_of (r.steady.idle e i) };

    ghost REFUSES = { true };

    const REFUSES: bool = true;

    fn alloc(&self) -> Global {
        self.alloc
    }

    fn is_open(&self) -> bool {
        self.store.is_open()
    }

    fn back(&mut self) {
        let store = &mut self.store;
        store.back();
        store.show_rest();
        O::show_clean(store);
    }

    fn ready(&mut self) -> Result<Ready, BookFault> {
        let said = self.store.ready();
        rollback_on_fault::<S, O, _>(&mut self.store, said)
    }

    fn clock(&mut self) -> Result<Moment, BookFault> {
        let said = sqlterms::clock(&mut self.store);
        rollback_on_fault::<S, O, _>(&mut self.store, said)
    }

    fn terms(&mut self) -> Result<Option<Terms>, BookFault> {
        let said = sqlterms::terms(&mut self.store, self.alloc);
        rollback_on_fault::<S, O, _>(&mut self.store, said)
    }

    fn counters(&mut self, registrar: RegistrarNo) -> Result<Counters, BookFault> {
        let said = sqlaccounts::counts(&mut self.store, registrar);
        rollback_on_fault::<S, O, _>(&mut self.store, said)
    }

    fn balance(&mut self, registrar: RegistrarNo) -> Result<i128, BookFault> {
        let said = sqlaccounts::balance(&mut self.store, registrar);
        rollback_on_fault::<S, O, _>(&mut self.store, said)
    }

    fn lines_on(&mut self, registrar: RegistrarNo, roid: &Roid) -> Result<Lines, BookFault> {
        let said = sqlaccounts::lines_on(&mut self.store, self.alloc, registrar, roid);
        rollback_on_fault::<S, O, _>(&mut self.store, said)
    }

    fn lines(&mut self, registrar: RegistrarNo) -> Result<Lines, BookFault> {
        let said = sqlaccounts::lines(&mut self.store, self.alloc, registrar);
        rollback_on_fault::<S, O, _>(&mut self.store, said)
    }

    fn oldest(&mut self, registrar: RegistrarNo) -> Result<Option<Message>, BookFault> {
        let said = sqlaccounts::oldest(&mut self.store, registrar);
        rollback_on_fault::<S, O, _>(&mut self.store, said)
    }

    fn waiting(&mut self, registrar: RegistrarNo) -> Result<u64, BookFault> {
        let said = sqlaccounts::waiting(&mut self.store, registrar);
        rollback_on_fault::<S, O, _>(&mut self.store, said)
    }

    fn contact(&mut self, name: &Text) -> Result<Option<Contact>, BookFault> {
        let said = sqlobjects::contact(&mut self.store, self.alloc, name);
        rollback_on_fault::<S, O, _>(&mut self.store, said)
    }

    fn domain(&mut self, name: &Text) -> Result<Option<Domain>, BookFault> {
        let said = sqldomains::domain(&mut self.store, self.alloc, name);
        rollback_on_fault::<S, O, _>(&mut self.store, said)
    }

    fn host(&mut self, name: &Text) -> Result<Option<Host>, BookFault> {
        let said = sqlobjects::host(&mut self.store, self.alloc, name);
        rollback_on_fault::<S, O, _>(&mut self.store, said)
    }

    fn has_contact(&mut self, name: &Text) -> Result<bool, BookFault> {
        let said = sqlobjects::has_contact(&mut self.store, self.alloc, name);
        rollback_on_fault::<S, O, _>(&mut self.store, said)
    }

    fn has_host(&mut self, name: &Text) -> Result<bool, BookFault> {
        let said = sqlobjects::has_host(&mut self.store, self.alloc, name);
        rollback_on_fault::<S, O, _>(&mut self.store, said)
    }

    fn superordinate(&mut self, domain: &Text) -> Result<Option<Superordinate>, BookFault> {
        let said = questions::superordinate(&mut self.store, self.alloc, domain);
        rollback_on_fault::<S, O, _>(&mut self.store, said)
    }

    fn host_addresses(&mut self, name: &Text) -> Result<Option<Seq<Text>>, BookFault> {
        let said = sqlobjects::host_addresses(&mut self.store, self.alloc, name);
        rollback_on_fault::<S, O, _>(&mut self.store, said)
    }

    fn delegations(&mut self) -> Result<Seq<Delegation>, BookFault> {
        let said = sqldomains::delegations(&mut self.store, self.alloc);
        rollback_on_fault::<S, O, _>(&mut self.store, said)
    }

    fn is_linked_contact(&mut self, name: &Text) -> Result<bool, BookFault> {
        let said = sqldomains::is_linked_contact(&mut self.store, self.alloc, name);
        rollback_on_fault::<S, O, _>(&mut self.store, said)
    }

    fn is_linked_host(&mut self, name: &Text) -> Result<bool, BookFault> {
        let said = sqldomains::is_linked_host(&mut self.store, self.alloc, name);
        rollback_on_fault::<S, O, _>(&mut self.store, said)
    }

    fn hosts_below(&mut self, domain: &Text) -> Result<Seq<Text>, BookFault> {
        let said = sqldomains::hosts_below(&mut self.store, self.alloc, domain);
        rollback_on_fault::<S, O, _>(&mut self.store, said)
    }

    fn is_at_holding_limit(&mut self, registrar: RegistrarNo) -> Result<bool, BookFault> {
        let said = sqlderived::is_at_holding_limit(&mut self.store, registrar, HOLDING_LIMIT);
        rollback_on_fault::<S, O, _>(&mut self.store, said)
    }

    fn due(
        &mut self,
        moment: Moment,
        most: Option<u32>,
        policy: &Policy,
    ) -> Result<Seq<Due>, BookFault> {
        let said = questions::due(&mut self.store, self.alloc, moment, most, policy);
        rollback_on_fault::<S, O, _>(&mut self.store, said)
    }

    fn due_near(
        &mut self,
        caller: Option<RegistrarNo>,
        names: &Names,
        moment: Moment,
        policy: &Policy,
    ) -> Result<Seq<Due>, BookFault> {
        let said = sqlderived::due_near(&mut self.store, self.alloc, caller, names, moment, policy);
        rollback_on_fault::<S, O, _>(&mut self.store, said)
    }

    #[tactic(auto, using(crate::proofs::TermLemmas::clock_made))]
    fn set_clock(&mut self, moment: Moment) -> Result<(), BookFault> {
        let said = sqlterms::set_clock(&mut self.store, self.alloc, moment);
        rollback_on_fault::<S, O, _>(&mut self.store, said)
    }

    fn set_terms(&mut self, terms: Terms) -> Result<(), BookFault> {
        let said = changed_terms::set_terms(&mut self.store, self.alloc, terms);
        rollback_on_fault::<S, O, _>(&mut self.store, said)
    }

    fn post(&mut self, posts: Posts, policy: &Policy) -> Result<(), BookFault> {
        let said = changed_accounts::post(&mut self.store, self.alloc, posts, policy);
        rollback_on_fault::<S, O, _>(&mut self.store, said)
    }

    #[tactic(auto, using(crate::proofs::ObjectLemmas::contact_made))]
    fn put_contact(&mut self, name: Text, contact: Contact) -> Result<(), BookFault> {
        let said = sqlobjects::put_contact(&mut self.store, self.alloc, name, contact);
        rollback_on_fault::<S, O, _>(&mut self.store, said)
    }

    #[tactic(auto, using(crate::proofs::ObjectLemmas::contact_made))]
    fn drop_contact(&mut self, name: Text) -> Result<(), BookFault> {
        let said = sqlobjects::drop_contact(&mut self.store, self.alloc, name);
        rollback_on_fault::<S, O, _>(&mut self.store, said)
    }

    fn set_domain(
        &mut self,
        posts: Option<Posts>,
        name: Text,
        domain: Option<Domain>,
        policy: &Policy,
    ) -> Result<(), BookFault> {
        let said = changed_domains::set_domain(
            &mut self.store,
            self.alloc,
            posts,
            name,
            domain,
            policy,
        );
        rollback_on_fault::<S, O, _>(&mut self.store, said)
    }

    #[tactic(auto, using(crate::proofs::ObjectLemmas::host_made))]
    fn put_host(&mut self, host: Host) -> Result<(), BookFault> {
        let said = sqlobjects::put_host(&mut self.store, self.alloc, host);
        rollback_on_fault::<S, O, _>(&mut self.store, said)
    }

    #[tactic(auto, using(crate::proofs::ObjectLemmas::host_made))]
    fn drop_host(&mut self, name: Text) -> Result<(), BookFault> {
        let said = sqlobjects::drop_host(&mut self.store, self.alloc, name);
        rollback_on_fault::<S, O, _>(&mut self.store, said)
    }

    fn rename_host(&mut self, from: Text, host: Host, _policy: &Policy) -> Result<(), BookFault> {
        let said = renaming::rename_host(&mut self.store, self.alloc, &from, &host);
        rollback_on_fault::<S, O, _>(&mut self.store, said)
    }

    fn begin(&mut self) -> Result<(), BookFault> {
        let said = self.store.begin();
        rollback_on_fault::<S, O, _>(&mut self.store, said)
    }

    fn commit(&mut self) -> Result<(), BookFault> {
        let said = self.store.commit();
        rollback_on_fault::<S, O, _>(&mut self.store, said)
    }
}
