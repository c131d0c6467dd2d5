//! How what is due lapses in an open transaction.
ghost use Rattle.std.specs.Prelude.{◌≡◌, ◌++◌, true, map, IfOk};
ghost use Rattle.registry.specs.Lapsing as spec;
ghost use Rattle.registry.specs.inner.Posting.{HasLapsed, lapse_changes, lapse_postings};
ghost use Rattle.registry.specs.inner.Steps.{Does};
ghost use Rattle.books.specs.Book.{BookMakes, BookMakesOf, with_changes};
ghost use Rattle.decisions.specs.Changes.{posting_change};

use crate::transaction::{one, or_rollback};
use accounts::Posting;
use basis::list::Seq;
use basis::text::Text;
use books::{Book, BookFault};
use calendar::Moment;
use decisions::Change;
use lifecycle::{AccountChange, Due, Lapsed, lapse, lapse_contact};
use model::Object;
use policy::Policy;
use std::alloc::{AllocError, Global};

/// Lets objects lapse up to a moment, one after another. What that posts into accounts is posted behind them, so
/// that each account is changed once.
pub(crate) fn lapse_each<B: Book>(
    book: &mut B,
    alloc: Global,
    due: Seq<Due>,
    moment: Moment,
    policy: &Policy,
) -> Result<(), BookFault>
    requires { (B.state book.old).is_open ≡ true }
    ensures { BookMakes result (spec.with_dues_lapsed policy.now moment due
        (B.state book.old).content) (B.state book.old) (B.state book.new) }
{
    let mut postings = Vec::new(alloc);
    for it in due.into_vec() {
        lapse_one(book, alloc, &it, moment, policy, &mut postings)?;
    }
    post(book, alloc, postings, policy)
}

/// Posts this into accounts, by one call, or by none if it is nothing.
fn post<B: Book>(
    book: &mut B,
    alloc: Global,
    postings: Vec<Posting>,
    policy: &Policy,
) -> Result<(), BookFault>
    requires { (B.state book.old).is_open ≡ true }
    ensures { BookMakesOf result (with_changes policy.now (map posting_change postings.items))
        (B.state book.old) (B.state book.new) }
{
    if postings.is_empty() {
        return Ok(());
    }
    let posts = or_rollback(book, posts_of(alloc, postings))?;
    book.apply(posts, policy)
}

/// Has the object under a name lapse. What that posts comes to the postings.
fn lapse_one<B: Book>(
    book: &mut B,
    alloc: Global,
    due: &Due,
    moment: Moment,
    policy: &Policy,
    postings: &mut Vec<Posting>,
) -> Result<(), BookFault>
    requires { (B.state book.old).is_open ≡ true }
    ensures { Does result (λ done. HasLapsed policy.now moment due.now postings.old.items postings.new.items
        (B.state book.old) (B.state book.new)) (B.state book.old) (B.state book.new) }
{
    let object = book.object_at(due.kind, &due.name)?;
    let changes = changes_of(alloc, &due.name, &object, moment, policy, postings);
    drop(object);
    let changes = or_rollback(book, changes)?;
    book.apply(changes, policy)
}

/// What becomes of the object under a name. What that posts comes to the postings.
fn changes_of(
    alloc: Global,
    name: &Text,
    object: &Option<Object>,
    moment: Moment,
    policy: &Policy,
    postings: &mut Vec<Posting>,
) -> Result<Seq<Change>, AllocError>
    ensures changes { IfOk result (λ changes. changes ≡ lapse_changes policy.now moment name.now object.now) }
    ensures postings { IfOk result (λ changes. postings.new.items
        ≡ postings.old.items ++ lapse_postings policy.now moment object.now) }
{
    match object {
        Some(Object::Contact(contact)) => {
            let Lapsed {
                object,
                postings: more,
            } = lapse_contact(alloc, contact, moment)?;
            postings.append(&mut more.into_vec())?;
            one(alloc, Change::LapseContact(name.clone()?, object))
        }
        Some(Object::Domain(domain)) => {
            let Lapsed {
                object,
                postings: more,
            } = lapse(alloc, domain, moment, policy)?;
            postings.append(&mut more.into_vec())?;
            one(alloc, Change::LapseDomain(name.clone()?, object))
        }
        Some(Object::Host(_)) | None => Ok(Seq::new(alloc)),
    }
}

/// What is posted, as changes.
fn posts_of(alloc: Global, postings: Vec<Posting>) -> Result<Seq<Change>, AllocError>
    ensures { IfOk result (λ changes. changes ≡ map posting_change postings.items) }
{
    let mut posts = Vec::new(alloc);
    for it in postings {
        posts.push(Change::Post(it.registrar, AccountChange::Lapse(it.what)))?;
    }
    Ok(Seq::from_vec(posts))
}
