//! Rows that names lead to: what they name, domains of the same identifier, and domains that name the contacts
//! and the hosts.
ghost use Rattle.sqlderived.specs.inner.Near as spec;
ghost use Rattle.states.specs.States.{Finds};

use crate::finding::number;
use crate::joining::{Way, each_of, joined};
use basis::list::Seq;
use basis::text::Text;
use calendar::Moment;
use concerns::Names;
use sqlite::Alter;
use sqlobjects::NamedRow;
use sqlrows::Number;
use sqltables::{ContactRow, DomainRow, HostRow, LinkRow, RowStore};
use states::BookFault;
use std::alloc::Global;
use std::marker::PhantomData;

pub(crate) fn domains_by_names<S: Alter>(
    store: &mut RowStore<S>,
    alloc: Global,
    names: &Names,
    moment: Moment,
) -> Result<Seq<DomainRow>, BookFault>
    ensures { Finds result (spec.domains_by_names names.now moment store.old.content) store.old
        store.new }
{
    let domains: Seq<DomainRow> = each_named(store, alloc, names.domains.as_slice())?;
    let alike = each_of(store, alloc, &Alike, domains.as_slice())?;
    let contacts: Seq<ContactRow> = each_named(store, alloc, names.contacts.as_slice())?;
    let to_contacts = each_of(store, alloc, &ToContact { moment }, contacts.as_slice())?;
    let hosts: Seq<HostRow> = each_named(store, alloc, names.hosts.as_slice())?;
    let to_hosts = each_of(store, alloc, &ToHost { moment }, hosts.as_slice())?;
    let found = joined(to_contacts, to_hosts)?;
    Ok(joined(alike, found)?)
}

/// The rows of these names.
pub(crate) fn each_named<R: NamedRow, S: Alter>(
    store: &mut RowStore<S>,
    alloc: Global,
    names: &[Text],
) -> Result<Seq<R>, BookFault>
    ensures { Finds result (spec.each_named R.table store.old.content names.now) store.old store.new }
{
    each_of(store, alloc, &Named(PhantomData), names)
}

/// The rows of a name.
#[derive(Drop)]
struct Named<R>(PhantomData<R>);

impl<R: NamedRow> Way for Named<R> {
    ghost use Rattle.sqlobjects.specs.inner.Stages.{rows_named};

    type From = Text;

    type Row = R;

    ghost rows = { λ way xs name. rows_named R.table name xs };

    fn rows<S: Alter>(
        &self,
        store: &mut RowStore<S>,
        _alloc: Global,
        name: &Text,
    ) -> Result<Seq<R>, BookFault> {
        R::by_name(store, name.as_str())
    }
}

/// The domains with the identifier of one.
#[derive(Drop)]
struct Alike;

impl Way for Alike {
    type From = DomainRow;

    type Row = DomainRow;

    ghost rows = { λ way. spec.domains_alike };

    fn rows<S: Alter>(
        &self,
        store: &mut RowStore<S>,
        _alloc: Global,
        row: &DomainRow,
    ) -> Result<Seq<DomainRow>, BookFault> {
        store.domains_by_roid(Number::new(row.creator), Number::new(row.serial))
    }
}

/// The domains that may be due by a moment and name a contact.
#[derive(Drop)]
struct ToContact {
    moment: Moment,
}

impl Way for ToContact {
    type From = ContactRow;

    type Row = DomainRow;

    ghost rows = { λ way. spec.domains_to_contact way.moment };

    fn rows<S: Alter>(
        &self,
        store: &mut RowStore<S>,
        alloc: Global,
        row: &ContactRow,
    ) -> Result<Seq<DomainRow>, BookFault> {
        let (id, due) = (Number::new(row.id), number(self.moment));
        let registered = store.domains_by_registrant_until_due(id, due)?;
        let links = store.links_by_contact_until_due(id, due)?;
        let linked = each_of(store, alloc, &Linked, links.as_slice())?;
        Ok(joined(registered, linked)?)
    }
}

/// The domains that may be due by a moment and name a host.
#[derive(Drop)]
struct ToHost {
    moment: Moment,
}

impl Way for ToHost {
    type From = HostRow;

    type Row = DomainRow;

    ghost rows = { λ way. spec.domains_to_host way.moment };

    fn rows<S: Alter>(
        &self,
        store: &mut RowStore<S>,
        alloc: Global,
        row: &HostRow,
    ) -> Result<Seq<DomainRow>, BookFault> {
        let links = store.links_by_host_until_due(Number::new(row.id), number(self.moment))?;
        each_of(store, alloc, &Linked, links.as_slice())
    }
}

/// The domain to which a link belongs.
#[derive(Drop)]
struct Linked;

impl Way for Linked {
    type From = LinkRow;

    type Row = DomainRow;

    ghost rows = { λ way. spec.domain_of_link };

    fn rows<S: Alter>(
        &self,
        store: &mut RowStore<S>,
        _alloc: Global,
        row: &LinkRow,
    ) -> Result<Seq<DomainRow>, BookFault> {
        store.domains_by_id(Number::new(row.domain))
    }
}
