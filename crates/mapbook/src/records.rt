//! Records in ordered maps.
ghost use Rattle.std.specs.Prelude.{◌≡◌, false};
ghost use Rattle.mapbook.specs.Plain as spec;

use crate::edit::{Edit, copy_contact, copy_domain, copy_host, copy_terms};
use crate::lapsing::cut;
use crate::plain::Plain;
use accounts::{Counters, Lines, Message};
use basis::list::Seq;
use basis::registrar::RegistrarNo;
use basis::text::Text;
use books::{Posts, Records};
use calendar::Moment;
use concerns::Names;
use facts::Superordinate;
use lifecycle::Due;
use objects::{Contact, Delegation, Domain, Host, Roid};
use policy::{Policy, Terms};
use states::{BookFault, Ready};
use std::alloc::Global;

/// Records in ordered maps are a book's once a transaction was kept.
fn readiness_of(is_used: bool) -> Ready
    ensures { result ≡ spec.readiness_if_used is_used }
{
    if is_used { Ready::Used } else { Ready::Empty }
}

impl Records for Plain {
    ghost use Rattle.mapbook.specs.Plain.{at_begin, plain_records};

    ghost kept = { plain_records };

    ghost idle = { λ b e. rw e (λ i. at_begin b) };

    ghost REFUSES = { false };

    const REFUSES: bool = false;

    fn alloc(&self) -> Global {
        self.content.alloc
    }

    fn is_open(&self) -> bool {
        self.is_open
    }

    fn ready(&mut self) -> Result<Ready, BookFault> {
        self.settle()?;
        Ok(readiness_of(self.is_used))
    }

    fn clock(&mut self) -> Result<Moment, BookFault> {
        self.settle()?;
        Ok(self.content.clock)
    }

    fn terms(&mut self) -> Result<Option<Terms>, BookFault> {
        self.settle()?;
        Ok(copy_terms(&self.content.terms)?)
    }

    fn counters(&mut self, registrar: RegistrarNo) -> Result<Counters, BookFault> {
        self.settle()?;
        Ok(self.content.counters(registrar))
    }

    fn balance(&mut self, registrar: RegistrarNo) -> Result<i128, BookFault> {
        self.settle()?;
        Ok(self.content.balance(registrar))
    }

    fn lines_on(&mut self, registrar: RegistrarNo, roid: &Roid) -> Result<Lines, BookFault> {
        self.settle()?;
        Ok(self.content.lines_on(registrar, roid)?)
    }

    fn lines(&mut self, registrar: RegistrarNo) -> Result<Lines, BookFault> {
        self.settle()?;
        Ok(self.content.lines(registrar)?)
    }

    fn oldest(&mut self, registrar: RegistrarNo) -> Result<Option<Message>, BookFault> {
        self.settle()?;
        Ok(self.content.oldest(registrar)?)
    }

    fn waiting(&mut self, registrar: RegistrarNo) -> Result<u64, BookFault> {
        self.settle()?;
        Ok(self.content.waiting(registrar))
    }

    fn contact(&mut self, name: &Text) -> Result<Option<Contact>, BookFault> {
        self.settle()?;
        Ok(copy_contact(self.content.contacts.get(name))?)
    }

    fn domain(&mut self, name: &Text) -> Result<Option<Domain>, BookFault> {
        self.settle()?;
        Ok(copy_domain(self.content.domains.get(name))?)
    }

    fn host(&mut self, name: &Text) -> Result<Option<Host>, BookFault> {
        self.settle()?;
        Ok(copy_host(self.content.hosts.get(name))?)
    }

    fn has_contact(&mut self, name: &Text) -> Result<bool, BookFault> {
        self.settle()?;
        Ok(self.content.contacts.get(name).is_some())
    }

    fn has_host(&mut self, name: &Text) -> Result<bool, BookFault> {
        self.settle()?;
        Ok(self.content.hosts.get(name).is_some())
    }

    fn superordinate(&mut self, domain: &Text) -> Result<Option<Superordinate>, BookFault> {
        self.settle()?;
        Ok(self.content.superordinate(domain))
    }

    fn host_addresses(&mut self, name: &Text) -> Result<Option<Seq<Text>>, BookFault> {
        self.settle()?;
        Ok(self.content.host_addresses(name)?)
    }

    fn delegations(&mut self) -> Result<Seq<Delegation>, BookFault> {
        self.settle()?;
        Ok(self.content.delegations()?)
    }

    fn is_linked_contact(&mut self, name: &Text) -> Result<bool, BookFault> {
        self.settle()?;
        Ok(self.content.is_linked_contact(name))
    }

    fn is_linked_host(&mut self, name: &Text) -> Result<bool, BookFault> {
        self.settle()?;
        Ok(self.content.is_linked_host(name))
    }

    fn hosts_below(&mut self, domain: &Text) -> Result<Seq<Text>, BookFault> {
        self.settle()?;
        Ok(self.content.subordinate(domain)?)
    }

    fn is_at_holding_limit(&mut self, registrar: RegistrarNo) -> Result<bool, BookFault> {
        self.settle()?;
        Ok(self.content.is_at_holding_limit(registrar))
    }

    /// All that is due is found, and then cut.
    fn due(
        &mut self,
        moment: Moment,
        most: Option<u32>,
        policy: &Policy,
    ) -> Result<Seq<Due>, BookFault> {
        let due = self.all_due(moment, policy)?;
        Ok(cut(due, most))
    }

    /// All that is due: each object is looked at in any case.
    fn due_near(
        &mut self,
        _caller: Option<RegistrarNo>,
        _names: &Names,
        moment: Moment,
        policy: &Policy,
    ) -> Result<Seq<Due>, BookFault> {
        self.all_due(moment, policy)
    }

    fn set_clock(&mut self, moment: Moment) -> Result<(), BookFault> {
        self.set(Edit::Clock(moment))
    }

    fn set_terms(&mut self, terms: Terms) -> Result<(), BookFault> {
        self.set(Edit::Terms(Some(terms)))
    }

    /// Each line and each message is put in or taken out in its place.
    fn post(&mut self, posts: Posts, policy: &Policy) -> Result<(), BookFault> {
        self.post_all(posts, policy)
    }

    fn put_contact(&mut self, name: Text, contact: Contact) -> Result<(), BookFault> {
        self.set(Edit::Contact(name, Some(contact)))
    }

    fn drop_contact(&mut self, name: Text) -> Result<(), BookFault> {
        self.set(Edit::Contact(name, None))
    }

    fn set_domain(
        &mut self,
        posts: Option<Posts>,
        name: Text,
        domain: Option<Domain>,
        policy: &Policy,
    ) -> Result<(), BookFault> {
        self.post_if_any(posts, policy)?;
        self.set(Edit::Domain(name, domain))
    }

    fn put_host(&mut self, host: Host) -> Result<(), BookFault> {
        self.put_named(host)
    }

    fn drop_host(&mut self, name: Text) -> Result<(), BookFault> {
        self.set(Edit::Host(name, None))
    }

    fn rename_host(&mut self, from: Text, host: Host, _policy: &Policy) -> Result<(), BookFault> {
        self.rename(from, host)
    }

    fn begin(&mut self) -> Result<(), BookFault> {
        self.settle()?;
        self.is_open = true;
        Ok(())
    }

    fn commit(&mut self) -> Result<(), BookFault> {
        self.undo = Seq::new(self.content.alloc);
        self.is_open = false;
        self.is_used = true;
        Ok(())
    }

    fn back(&mut self) {
        self.is_open = false;
        let _ = self.undo_all();
    }
}
