//! The lengths of periods that the columns were written under.
ghost use Rattle.std.specs.Prelude.{◌≡◌, Some, IfSome};
ghost use Rattle.sqlterms.specs.Terms as terms;
ghost use Rattle.states.specs.States.{FindsSome};

use policy::{Policy, Schedule};
use sqlite::Alter;
use sqltables::RowStore;
use sqlterms::days;
use states::BookFault;
use std::alloc::Global;

/// Refuses other days than those of the rows, where these have any.
pub fn same_days<S: Alter>(
    store: &mut RowStore<S>,
    alloc: Global,
    these: &Schedule,
) -> Result<(), BookFault>
    ensures { FindsSome result (λ done. IfSome (terms.days_of_rows store.old.content) (λ days. days
        ≡ these.now)) store.old store.new }
{
    let Some(days) = days(store, alloc)? else {
        return Ok(());
    };
    if !days.is_same(these) {
        return Err(BookFault::Store);
    }
    Ok(())
}

/// Refuses rows without days, and a policy that has others.
pub(crate) fn have_days<S: Alter>(
    store: &mut RowStore<S>,
    alloc: Global,
    policy: &Policy,
) -> Result<(), BookFault>
    ensures { FindsSome result (λ done. terms.days_of_rows store.old.content ≡ Some policy.now.days)
        store.old store.new }
{
    let Some(days) = days(store, alloc)? else {
        return Err(BookFault::Store);
    };
    if !days.is_same(policy.schedule()) {
        return Err(BookFault::Store);
    }
    Ok(())
}
