//! Domains, put and dropped in a book over rows.
ghost use Rattle.std.specs.Prelude.{◌≡◌, true, IfOk, IfSome};
ghost use Rattle.calendar.specs.Moment.{capped};
ghost use Rattle.lifecycle.specs.{Lapse.due_at, Periods.rules_with};
ghost use Rattle.books.specs.Tables as tables;
ghost use Rattle.sqlrows.specs.Meanings.{Changes};
ghost use Rattle.states.specs.States.{FindsSome};
ghost use Rattle.sqlbook.specs.Meaning.{are_right, stored_of};
ghost use Rattle.sqlbook.specs.inner.Posting.{HaveEnds, IsReplacedPosting};
ghost use Rattle.sqlbook.specs.inner.Replacing.{IsCheckedDomain, IsReplaced, IsUnderDays, due_with};
ghost use Rattle.sqlbook.specs.AsBook.{MakesAs};
ghost use Rattle.sqlderived.specs.inner.Recounts.{IsUnwritten, with_unwritten};
ghost use Rattle.sqlderived.specs.Dues.{has_right_due};
ghost use Rattle.sqldomains.specs.inner.Changes.{IsDomainPut, sponsor_in};

use crate::changed_accounts::maybe_posted;
use basis::registrar::RegistrarNo;
use basis::text::Text;
use books::Posts;
use calendar::Moment;
use objects::Domain;
use policy::Policy;
use sqlderived::{Unwritten, checked_domain, due_of_domain, recount, same_days};
use sqlite::Alter;
use sqlobjects::set_sponsor_below;
use sqltables::RowStore;
use states::BookFault;
use std::alloc::Global;

/// The domain is under this name, which has to be its own, or none is. Changes of an account are made with it, if
/// there are any: its row is written once, with its count of domains. Refused is a policy with other days than
/// those that were put down.
pub fn set_domain<S: Alter>(
    store: &mut RowStore<S>,
    alloc: Global,
    posts: Option<Posts>,
    name: Text,
    domain: Option<Domain>,
    policy: &Policy,
) -> Result<(), BookFault>
    requires { store.old.is_open ≡ true }
    ensures made { MakesAs result stored_of are_right (tables.domain_set name domain
        (tables.maybe_posted policy.now posts (stored_of store.old.content))) store.old store.new }
    ensures ends { IfOk result (λ done. store.new.is_clean ≡ true
        → HaveEnds store.old.content store.new.content) }
{
    let due = due_of(&domain, policy);
    let before = found(store, alloc, &name, policy)?;
    let replaced = replace_posting(store, alloc, posts, &name, &before, &domain, due, policy);
    drop(before);
    drop(domain);
    replaced?;
    Ok(())
}

/// When a domain is due, if there is one.
fn due_of(domain: &Option<Domain>, policy: &Policy) -> Moment
    ensures { IfSome domain.now (λ d. result ≡ capped (due_at (rules_with policy.now.days) d)) }
{
    match domain {
        None => Moment::first(),
        Some(domain) => due_of_domain(domain, policy),
    }
}

/// The domain under a name, whose row was right, under the days that were put down.
fn found<S: Alter>(
    store: &mut RowStore<S>,
    alloc: Global,
    name: &Text,
    policy: &Policy,
) -> Result<Option<Domain>, BookFault>
    ensures { FindsSome result (λ domain. IsUnderDays policy.now.days store.old.content
        × IsCheckedDomain name.now has_right_due store.old.content domain) store.old store.new }
{
    same_days(store, alloc, policy.schedule())?;
    checked_domain(store, alloc, name, policy)
}

/// Changes of an account are made, if there are any, and one domain, or none, takes the place of another, or of none.
fn replace_posting<S: Alter>(
    store: &mut RowStore<S>,
    alloc: Global,
    posts: Option<Posts>,
    name: &Text,
    before: &Option<Domain>,
    after: &Option<Domain>,
    due: Moment,
    policy: &Policy,
) -> Result<(), BookFault>
    requires { store.old.is_open ≡ true }
    ensures { Changes result (IsReplacedPosting name.now (tables.maybe_posted policy.now posts) before.now
        after.now due) store.old store.new }
{
    let unwritten = maybe_posted(store, alloc, posts, policy)?;
    replace(store, alloc, unwritten, name, before, after, due)?;
    Ok(())
}

/// One domain, or none, takes the place of another, or of none, and the hosts below have its sponsor. An account's
/// row that isn't written yet is written.
pub(crate) fn replace<S: Alter>(
    store: &mut RowStore<S>,
    alloc: Global,
    unwritten: Option<Unwritten>,
    name: &Text,
    before: &Option<Domain>,
    after: &Option<Domain>,
    due: Moment,
) -> Result<(), BookFault>
    requires open { store.old.is_open ≡ true }
    requires own { store.old.is_clean ≡ true → IsUnwritten unwritten store.old.content }
    ensures { Changes result (λ old new. IsReplaced name.now before.now after.now due
        (with_unwritten unwritten old) new) store.old store.new }
{
    set_sponsor_below(store, name, sponsor_of(after))?;
    recount(store, unwritten, before, after)?;
    put(store, alloc, name, after, due)?;
    Ok(())
}

fn sponsor_of(domain: &Option<Domain>) -> Option<RegistrarNo>
    ensures { result ≡ sponsor_in domain.now }
{
    match domain {
        None => None,
        Some(domain) => Some(domain.sponsor),
    }
}

fn put<S: Alter>(
    store: &mut RowStore<S>,
    alloc: Global,
    name: &Text,
    domain: &Option<Domain>,
    due: Moment,
) -> Result<(), BookFault>
    requires { store.old.is_open ≡ true }
    ensures { Changes result (IsDomainPut name.now domain.now (due_with domain.now due)) store.old
        store.new }
{
    match domain {
        Some(domain) => sqldomains::put_domain(store, alloc, name, domain, due),
        None => sqldomains::drop_domain(store, name),
    }
}
