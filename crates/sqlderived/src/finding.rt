//! What is due by a moment.
ghost use Rattle.std.specs.Prelude.{◌≡◌, [], Some, IfOk};
ghost use Rattle.sqlcolumns.specs.Numbers.{moment_column};
ghost use Rattle.sqlrows.specs.Meanings.{FindsIfRight};
ghost use Rattle.sqlderived.specs.Dues.{dues_are_right};
ghost use Rattle.sqlderived.specs.inner.Finding as spec;
ghost use Rattle.lifecycle.specs.DueObjects as dues;
ghost use Rattle.lifecycle.specs.Periods.{passed};
ghost use Rattle.model.specs.DueBy as model;
ghost use Rattle.states.specs.States.{FindsSome};

use crate::checking::due_in;
use crate::length::have_days;
use basis::list::Seq;
use basis::text::Text;
use calendar::Moment;
use lifecycle::{Due, contact_due_by, due_by};
use objects::{Contact, Domain, ObjectKind};
use policy::Policy;
use sqldomains::domain_of;
use sqlite::Alter;
use sqlobjects::contact_of;
use sqlrows::Number;
use sqltables::{ContactRow, DomainRow, RowStore};
use states::BookFault;
use std::alloc::{AllocError, Global};
use std::collections::BTreeSet;

/// The contacts and domains that time changes or removes up to a moment, in the order in which they
/// lapse. Only rows whose column is no later than the moment are looked at, and of domains nothing else
/// is. A contact that doesn't read is refused, and so is a policy that has other days than the rows.
pub fn due<S: Alter>(
    store: &mut RowStore<S>,
    alloc: Global,
    moment: Moment,
    policy: &Policy,
) -> Result<Seq<Due>, BookFault>
    ensures { FindsIfRight result (dues_are_right store.old.content)
        (model.due_by policy.now moment (spec.objects_in store.old.content)) store.old store.new }
{
    have_days(store, alloc, policy)?;
    store.show_consistent();
    due_until(store, alloc, moment, policy)
}

/// The same, by the columns of domains.
fn due_until<S: Alter>(
    store: &mut RowStore<S>,
    alloc: Global,
    moment: Moment,
    policy: &Policy,
) -> Result<Seq<Due>, BookFault>
    ensures { FindsSome result (λ due. spec.AreDue policy.now moment store.old.content (spec.contacts_until moment store.old.content)
        (spec.domains_until moment store.old.content) due) store.old store.new }
{
    let contacts = store.contacts_until_due(number(moment))?;
    let domains = store.domains_until_due(number(moment))?;
    due_of(store, alloc, moment, policy, contacts, domains)
}

/// What is due of these rows, by the columns of the domains.
pub(crate) fn due_of<S: Alter>(
    store: &mut RowStore<S>,
    alloc: Global,
    moment: Moment,
    policy: &Policy,
    contacts: Seq<ContactRow>,
    domains: Seq<DomainRow>,
) -> Result<Seq<Due>, BookFault>
    ensures { FindsSome result (λ due. spec.AreDue policy.now moment store.old.content contacts domains due)
        store.old store.new }
{
    let found = of_contacts(store, alloc, moment, contacts)?;
    let all = with_domains(store, alloc, moment, policy, found, domains)?;
    Ok(listed(alloc, all)?)
}

/// Those of these rows' contacts that are due.
fn of_contacts<S: Alter>(
    store: &mut RowStore<S>,
    alloc: Global,
    moment: Moment,
    rows: Seq<ContactRow>,
) -> Result<BTreeSet<Due>, BookFault>
    ensures { FindsSome result (λ found. spec.with_rows (spec.contact_due_in_row moment store.old.content) []
        rows ≡ Some found.keys) store.old store.new }
{
    let mut found = BTreeSet::new(alloc);
    for row in rows.into_vec() {
        found = with_contact(store, alloc, moment, found, row)?;
    }
    Ok(found)
}

fn with_contact<S: Alter>(
    store: &mut RowStore<S>,
    alloc: Global,
    moment: Moment,
    found: BTreeSet<Due>,
    row: ContactRow,
) -> Result<BTreeSet<Due>, BookFault>
    ensures { FindsSome result (λ more. spec.with_row found.keys
        (spec.contact_due_in_row moment store.old.content row) ≡ Some more.keys) store.old store.new }
{
    let contact = contact_of(store, alloc, row)?;
    let due = contact_due_by(&contact, moment);
    Ok(with_due(found, ObjectKind::Contact, name_of_contact(contact), due)?)
}

fn name_of_contact(contact: Contact) -> Text
    ensures { result ≡ contact.name }
{
    contact.name
}

/// With those of these rows' domains that are due, by the rows' columns.
fn with_domains<S: Alter>(
    store: &mut RowStore<S>,
    alloc: Global,
    moment: Moment,
    policy: &Policy,
    found: BTreeSet<Due>,
    rows: Seq<DomainRow>,
) -> Result<BTreeSet<Due>, BookFault>
    ensures { FindsSome result
        (λ all. spec.with_rows (spec.domain_due_shown policy.now moment store.old.content) found.keys rows
        ≡ Some all.keys) store.old store.new }
{
    let mut found = found;
    for row in rows.into_vec() {
        found = with_domain(store, alloc, moment, policy, found, row)?;
    }
    Ok(found)
}

/// A right column says when the domain is due. At the last moment it may stand for a later one: then the
/// domain is read.
fn with_domain<S: Alter>(
    store: &mut RowStore<S>,
    alloc: Global,
    moment: Moment,
    policy: &Policy,
    found: BTreeSet<Due>,
    row: DomainRow,
) -> Result<BTreeSet<Due>, BookFault>
    ensures { FindsSome result
        (λ more. spec.with_row found.keys (spec.domain_due_shown policy.now moment store.old.content row)
        ≡ Some more.keys) store.old store.new }
{
    let column = due_in(&row)?;
    if column < Moment::last() {
        return Ok(with_due(found, ObjectKind::Domain, row.name, come(column, moment))?);
    }
    with_domain_read(store, alloc, moment, policy, found, row)
}

/// The first moment, if it is no later than the second.
fn come(due: Moment, moment: Moment) -> Option<Moment>
    ensures { result ≡ passed moment due }
{
    if moment < due { None } else { Some(due) }
}

fn with_domain_read<S: Alter>(
    store: &mut RowStore<S>,
    alloc: Global,
    moment: Moment,
    policy: &Policy,
    found: BTreeSet<Due>,
    row: DomainRow,
) -> Result<BTreeSet<Due>, BookFault>
    ensures { FindsSome result (λ more. spec.with_row found.keys (spec.domain_due_in_row policy.now moment
        store.old.content row) ≡ Some more.keys) store.old store.new }
{
    let domain = domain_of(store, alloc, row)?;
    let due = due_by(&domain, moment, policy);
    Ok(with_due(found, ObjectKind::Domain, name_of_domain(domain), due)?)
}

fn name_of_domain(domain: Domain) -> Text
    ensures { result ≡ domain.name }
{
    domain.name
}

/// With one more, if it is due.
fn with_due(
    found: BTreeSet<Due>,
    kind: ObjectKind,
    name: Text,
    due: Option<Moment>,
) -> Result<BTreeSet<Due>, AllocError>
    ensures { IfOk result (λ more. more.keys ≡ dues.with_due (dues.due_then kind name due)
        found.keys) }
{
    let Some(due) = due else {
        return Ok(found);
    };
    let mut found = found;
    found.insert(Due { due, kind, name })?;
    Ok(found)
}

pub(crate) fn number(moment: Moment) -> Number
    ensures { result ≡ moment_column moment }
{
    Number::new(moment.secs())
}

/// An ordered set as a list.
fn listed(alloc: Global, found: BTreeSet<Due>) -> Result<Seq<Due>, AllocError>
    ensures { IfOk result (λ due. due ≡ found.keys) }
{
    let mut due = Vec::with_capacity(alloc, found.len())?;
    for it in found {
        due.push(it)?;
    }
    Ok(Seq::from_vec(due))
}
