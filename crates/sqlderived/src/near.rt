//! What is due of that which concerns a registrar and some names, found by indexes.
ghost use Rattle.std.specs.Prelude.{◌≡◌, true, filter};
ghost use Rattle.sqlcolumns.specs.Numbers.{moment_column};
ghost use Rattle.sqlderived.specs.{Dues.dues_are_right, inner.Finding.AreDue};
ghost use Rattle.sqlderived.specs.inner.Near as spec;
ghost use Rattle.sqltables.specs.{Contact.contact_within_due, Domain.domain_within_due};
ghost use Rattle.states.specs.States.{Finds, FindsSome};

use crate::by_names::{domains_by_names, each_named};
use crate::by_registrar::{
    TransferredContact, TransferredDomain, contacts_sponsored, domains_sponsored, pending_of,
};
use crate::finding::{due_of, number};
use crate::joining::{each_of, joined};
use crate::length::have_days;
use basis::list::Seq;
use basis::registrar::RegistrarNo;
use calendar::Moment;
use concerns::Names;
use lifecycle::Due;
use policy::Policy;
use sqlite::Alter;
use sqltables::{ContactRow, DomainRow, RowStore, TransferRow};
use states::BookFault;
use std::alloc::Global;

/// Part of what is due by a moment, in the order in which it lapses: all that concerns a registrar, if one is
/// given, and some names is in it. Where no column says that anything is due, nothing else is looked at; else
/// what the registrar and the names lead to by indexes, and of that only rows that may be due are looked at. A
/// contact that doesn't read is refused, and so is a policy that has other days than the rows.
pub fn due_near<S: Alter>(
    store: &mut RowStore<S>,
    alloc: Global,
    caller: Option<RegistrarNo>,
    names: &Names,
    moment: Moment,
    policy: &Policy,
) -> Result<Seq<Due>, BookFault>
    ensures { FindsSome result (λ due. dues_are_right store.old.content ≡ true
        → spec.HasAllNear policy.now caller names.now moment store.old.content due) store.old
        store.new }
{
    have_days(store, alloc, policy)?;
    store.show_consistent();
    let behind = is_behind(store, moment)?;
    if !behind {
        return Ok(Seq::new(alloc));
    }
    found_near(store, alloc, &caller, names, moment, policy)
}

/// Whether anything is due at all.
fn is_behind<S: Alter>(store: &mut RowStore<S>, moment: Moment) -> Result<bool, BookFault>
    ensures { Finds result (spec.is_behind moment store.old.content) store.old store.new }
{
    let contacts = store.first_contacts_until_due(number(moment), 1)?;
    if !contacts.is_empty() {
        return Ok(true);
    }
    let domains = store.first_domains_until_due(number(moment), 1)?;
    Ok(!domains.is_empty())
}

// ---- what is found by the registrar and the names

/// What is due of the rows that are found, by the columns of domains.
fn found_near<S: Alter>(
    store: &mut RowStore<S>,
    alloc: Global,
    caller: &Option<RegistrarNo>,
    names: &Names,
    moment: Moment,
    policy: &Policy,
) -> Result<Seq<Due>, BookFault>
    ensures { FindsSome result (λ due. AreDue policy.now moment store.old.content
        (spec.contacts_near caller.now names.now moment store.old.content)
        (spec.domains_near caller.now names.now moment store.old.content) due) store.old store.new }
{
    let pending = pending_of(store, alloc, caller)?;
    let contacts = contacts_near(store, alloc, caller, pending.as_slice(), names, moment)?;
    let domains = domains_near(store, alloc, caller, pending.as_slice(), names, moment)?;
    due_of(store, alloc, moment, policy, contacts, domains)
}

/// The rows of contacts that may be due, of those that the registrar, its pending transfers and the names
/// lead to.
fn contacts_near<S: Alter>(
    store: &mut RowStore<S>,
    alloc: Global,
    caller: &Option<RegistrarNo>,
    pending: &[TransferRow],
    names: &Names,
    moment: Moment,
) -> Result<Seq<ContactRow>, BookFault>
    ensures { Finds result (filter (contact_within_due (moment_column moment))
        (spec.contacts_led caller.now pending.now names.now moment store.old.content)) store.old
        store.new }
{
    let sponsored = contacts_sponsored(store, alloc, caller, moment)?;
    let transferred = each_of(store, alloc, &TransferredContact, pending)?;
    let named = each_named(store, alloc, names.contacts.as_slice())?;
    let found = joined(transferred, named)?;
    Ok(contacts_until(joined(sponsored, found)?, moment))
}

/// The same of domains.
fn domains_near<S: Alter>(
    store: &mut RowStore<S>,
    alloc: Global,
    caller: &Option<RegistrarNo>,
    pending: &[TransferRow],
    names: &Names,
    moment: Moment,
) -> Result<Seq<DomainRow>, BookFault>
    ensures { Finds result (filter (domain_within_due (moment_column moment))
        (spec.domains_led caller.now pending.now names.now moment store.old.content)) store.old
        store.new }
{
    let sponsored = domains_sponsored(store, alloc, caller, moment)?;
    let transferred = each_of(store, alloc, &TransferredDomain, pending)?;
    let named = domains_by_names(store, alloc, names, moment)?;
    let found = joined(transferred, named)?;
    Ok(domains_until(joined(sponsored, found)?, moment))
}

// ---- those of these rows that may be due

fn contacts_until(rows: Seq<ContactRow>, moment: Moment) -> Seq<ContactRow>
    ensures { result ≡ filter (contact_within_due (moment_column moment)) rows }
{
    let mut rows = rows.into_vec();
    rows.retain(|row| is_contact_until(row, moment));
    Seq::from_vec(rows)
}

fn is_contact_until(row: &ContactRow, moment: Moment) -> bool
    ensures { result ≡ contact_within_due (moment_column moment) row.now }
{
    match row.due {
        None => false,
        Some(due) => 0 <= due && due <= moment.secs(),
    }
}

fn domains_until(rows: Seq<DomainRow>, moment: Moment) -> Seq<DomainRow>
    ensures { result ≡ filter (domain_within_due (moment_column moment)) rows }
{
    let mut rows = rows.into_vec();
    rows.retain(|row| is_domain_until(row, moment));
    Seq::from_vec(rows)
}

fn is_domain_until(row: &DomainRow, moment: Moment) -> bool
    ensures { result ≡ domain_within_due (moment_column moment) row.now }
{
    row.due <= moment.secs()
}
