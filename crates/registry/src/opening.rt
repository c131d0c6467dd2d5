//! How a book is opened under a policy.
ghost use Rattle.std.specs.Prelude.{◌≡◌, true, false, IfOk};
ghost use Rattle.policy.specs.Terms.{terms_of};
ghost use Rattle.registry.specs.Opening as spec;
ghost use Rattle.registry.specs.inner.Steps.{OpensAny, OpensOurs, TakesUp};
ghost use Rattle.books.specs.Book.{BookMakes};

use crate::fault::OpenFault;
use crate::transaction::or_rollback;
use basis::list::Seq;
use basis::registrar::RegistrarNo;
use books::{Book, BookFault, Ready};
use calendar::Moment;
use decisions::Change;
use policy::{Policy, Terms};
use std::alloc::{AllocError, Global};

/// Opens a book, unless what keeps it is another's.
#[tactic(auto, using(crate::proofs::OpeningLemmas::is_others, crate::proofs::CrashLemmas::leaving))]
pub(crate) fn open_in<B: Book>(
    book: &mut B,
    alloc: Global,
    policy: &Policy,
) -> Result<(), OpenFault>
    requires { (B.state book.old).is_open ≡ false }
    ensures { OpensAny result policy.now (B.state book.old) (B.state book.new) }
{
    match book.ready() {
        Ok(Ready::Other) => Err(OpenFault::Schema),
        Ok(Ready::Empty | Ready::Used) => open_ours(book, alloc, policy),
        Err(fault) => Err(OpenFault::from(fault)),
    }
}

/// Opens a book in one transaction.
#[tactic(auto, using(crate::proofs::CrashLemmas::leaving))]
fn open_ours<B: Book>(book: &mut B, alloc: Global, policy: &Policy) -> Result<(), OpenFault>
    requires { (B.state book.old).is_open ≡ false }
    ensures { OpensOurs result policy.now (B.state book.old) (B.state book.new) }
{
    book.begin()?;
    if !take_up(book, alloc, policy)? {
        return Err(OpenFault::Policy);
    }
    match book.commit() {
        Ok(()) => Ok(()),
        Err(BookFault::Memory) => Err(OpenFault::Memory),
        Err(BookFault::Store) => Err(OpenFault::Store),
    }
}

/// Takes a book up in an open transaction, or goes back where the policy doesn't continue the terms
/// that it was used under.
fn take_up<B: Book>(book: &mut B, alloc: Global, policy: &Policy) -> Result<bool, BookFault>
    requires { (B.state book.old).is_open ≡ true }
    ensures { TakesUp result policy.now (B.state book.old) (B.state book.new) }
{
    let clock = book.clock()?;
    let earlier = book.terms()?;
    let own = or_rollback(book, policy.terms(alloc))?;
    let goes_on = continues_earlier(&own, &earlier, clock);
    drop(earlier);
    if !goes_on {
        drop(own);
        book.back();
        return Ok(false);
    }
    install(book, alloc, policy, own)?;
    Ok(true)
}

/// Whether a book that was used under the earlier terms, if there are any, goes on under these.
fn continues_earlier(terms: &Terms, earlier: &Option<Terms>, clock: Moment) -> bool
    ensures { result ≡ spec.continues_earlier clock terms.now earlier.now }
{
    match earlier {
        None => true,
        Some(earlier) => terms.continues(earlier, clock),
    }
}

/// Opens the registrars' accounts, and puts down the terms.
fn install<B: Book>(
    book: &mut B,
    alloc: Global,
    policy: &Policy,
    own: Terms,
) -> Result<(), BookFault>
    requires open { (B.state book.old).is_open ≡ true }
    requires own { own ≡ terms_of policy.now }
    ensures { BookMakes result (spec.opened policy.now (B.state book.old).content)
        (B.state book.old) (B.state book.new) }
{
    let accounts = or_rollback(book, openings(alloc, policy.registrars()))?;
    book.apply(accounts, policy)?;
    book.keep_terms(own)
}

/// An account for each of the first registrars.
#[tactic(auto, using(crate::proofs::OpeningLemmas::openings_zero, crate::proofs::OpeningLemmas::openings_next))]
fn openings(alloc: Global, count: u32) -> Result<Seq<Change>, AllocError>
    ensures { IfOk result (λ changes. changes ≡ spec.openings count) }
{
    let mut changes = Seq::new(alloc);
    for place in 0..count {
        changes.push(Change::OpenAccount(RegistrarNo::of_place(place + 1)))?;
    }
    Ok(changes)
}
