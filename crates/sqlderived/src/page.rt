//! What is due first: as many objects as are asked for, and of the rows no more than a page.
ghost use Rattle.std.specs.Prelude.{◌≡◌, ◌≤◌, ⊤, nat_le, length, take};
ghost use Rattle.sqlrows.specs.Meanings.{FindsIfRight};
ghost use Rattle.sqlderived.specs.Dues.{dues_are_right};
ghost use Rattle.sqlderived.specs.inner.Finding as spec;
ghost use Rattle.model.specs.DueBy as model;
ghost use Rattle.states.specs.States.{FindsSome};

use crate::finding::{due, number};
use basis::list::Seq;
use calendar::Moment;
use lifecycle::Due;
use policy::Policy;
use sqlcolumns::moment_of_column;
use sqlite::Alter;
use sqltables::{ContactRow, DomainRow, RowStore};
use states::BookFault;
use std::alloc::Global;

/// The first so many of what is due by a moment, in the order in which it lapses. Looked at are the rows up to
/// the moment when so many are due, and no others.
pub fn first_due<S: Alter>(
    store: &mut RowStore<S>,
    alloc: Global,
    moment: Moment,
    most: u32,
    policy: &Policy,
) -> Result<Seq<Due>, BookFault>
    ensures { FindsIfRight result (dues_are_right store.old.content)
        (take most (model.due_by policy.now moment (spec.objects_in store.old.content))) store.old
        store.new }
{
    match page_end(store, moment, most)? {
        None => first_of_all(store, alloc, moment, most, policy),
        Some(end) => { first_until(store, alloc, earlier_of(end, moment), moment, most, policy) }
    }
}

/// The earlier of two moments.
fn earlier_of(end: Moment, moment: Moment) -> Moment
    ensures { result ≤ moment }
{
    if end < moment { end } else { moment }
}

/// The same, with a look at all that is due by the moment.
fn first_of_all<S: Alter>(
    store: &mut RowStore<S>,
    alloc: Global,
    moment: Moment,
    most: u32,
    policy: &Policy,
) -> Result<Seq<Due>, BookFault>
    ensures { FindsIfRight result (dues_are_right store.old.content)
        (take most (model.due_by policy.now moment (spec.objects_in store.old.content))) store.old
        store.new }
{
    let all = due(store, alloc, moment, policy)?;
    Ok(first_of(all, most))
}

/// The same, with a look at what is due by an earlier moment, if that is as much.
fn first_until<S: Alter>(
    store: &mut RowStore<S>,
    alloc: Global,
    end: Moment,
    moment: Moment,
    most: u32,
    policy: &Policy,
) -> Result<Seq<Due>, BookFault>
    requires { end ≤ moment }
    ensures { FindsIfRight result (dues_are_right store.old.content)
        (take most (model.due_by policy.now moment (spec.objects_in store.old.content))) store.old
        store.new }
{
    let page = due(store, alloc, end, policy)?;
    if is_full(&page, most) {
        return Ok(first_of(page, most));
    }
    first_of_all(store, alloc, moment, most, policy)
}

fn is_full(page: &Seq<Due>, most: u32) -> bool
    ensures { result ≡ nat_le most (length page.now) }
{
    page.as_slice().len() >= most as usize
}

/// The first so many of a list.
fn first_of(due: Seq<Due>, most: u32) -> Seq<Due>
    ensures { result ≡ take most due }
{
    let mut due = due.into_vec();
    due.truncate(most as usize);
    Seq::from_vec(due)
}

// ---- the end of a page

/// A moment by which so many rows are due, if there are as many by this one.
fn page_end<S: Alter>(
    store: &mut RowStore<S>,
    moment: Moment,
    most: u32,
) -> Result<Option<Moment>, BookFault>
    ensures { FindsSome result (λ end. ⊤) store.old store.new }
{
    let contacts = store.first_contacts_until_due(number(moment), most)?;
    let contacts = end_of_contacts(contacts.as_slice(), most);
    let domains = store.first_domains_until_due(number(moment), most)?;
    let domains = end_of_domains(domains.as_slice(), most);
    Ok(earlier(contacts, domains))
}

/// When the last of so many rows is due, if they are so many.
fn end_of_contacts(rows: &[ContactRow], most: u32) -> Option<Moment> {
    let last = rows.get((most as usize).checked_sub(1)?)?;
    moment_of_column(last.due?)
}

fn end_of_domains(rows: &[DomainRow], most: u32) -> Option<Moment> {
    let last = rows.get((most as usize).checked_sub(1)?)?;
    moment_of_column(last.due)
}

/// The earlier of two moments, or the one that there is.
fn earlier(one: Option<Moment>, other: Option<Moment>) -> Option<Moment> {
    match (one, other) {
        (Some(one), Some(other)) => Some(earlier_of(one, other)),
        (None, end) | (end, None) => end,
    }
}
