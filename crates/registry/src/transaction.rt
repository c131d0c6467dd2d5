//! What may go wrong in a transaction for want of memory, and how its clock moves.
ghost use Rattle.std.specs.Prelude.{◌≡◌, ◌∷◌, [], true, IfOk, Ok};
ghost use Rattle.registry.specs.inner.Steps.{Does, HasMoved, Works};

use basis::list::Seq;
use books::{Book, BookFault};
use calendar::Moment;
use decisions::Change;
use policy::Policy;
use std::alloc::{AllocError, Global};

/// What was made, or back to where the transaction began where memory ran out.
pub(crate) fn or_rollback<B: Book, T>(
    book: &mut B,
    made: Result<T, AllocError>,
) -> Result<T, BookFault>
    requires { (B.state book.old).is_open ≡ true }
    ensures { Does result (λ value. (made ≡ Ok value) × (book.new ≡ book.old)) (B.state book.old)
        (B.state book.new) }
{
    match made {
        Ok(value) => Ok(value),
        Err(error) => {
            book.back();
            Err(BookFault::from(error))
        }
    }
}

/// Moves the clock in an open transaction, and gives it.
pub(crate) fn move_clock<B: Book>(
    book: &mut B,
    alloc: Global,
    moment: Moment,
    policy: &Policy,
) -> Result<Moment, BookFault>
    requires { (B.state book.old).is_open ≡ true }
    ensures { Works result (HasMoved moment) (B.state book.old) (B.state book.new) }
{
    let passing = or_rollback(book, one(alloc, Change::MoveClock(moment)))?;
    book.apply(passing, policy)?;
    book.clock()
}

/// A list of one change.
pub(crate) fn one(alloc: Global, change: Change) -> Result<Seq<Change>, AllocError>
    ensures { IfOk result (λ changes. changes ≡ change ∷ []) }
{
    Ok(Seq::from_vec(vec![in alloc; change]?))
}
