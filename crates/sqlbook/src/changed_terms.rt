//! Terms, put down in a book over rows.
ghost use Rattle.std.specs.Prelude.{◌≡◌, true, [], IfOk, Some};
ghost use Rattle.books.specs.Book.{with_terms};
ghost use Rattle.sqlrows.specs.Meanings.{Changes};
ghost use Rattle.states.specs.States.{FindsSome};
ghost use Rattle.sqlbook.specs.{Meaning.{are_right, stored_of}, AsBook.MakesAs, Suiting.AreRedated};
ghost use Rattle.sqlbook.specs.inner.Suiting.{IsSetDown, IsSetOver};
ghost use Rattle.sqlterms.specs.Terms.{days_of_rows};

use crate::redating::redate;
use policy::{Schedule, Terms};
use sqlderived::ends_are;
use sqlite::Alter;
use sqltables::RowStore;
use states::BookFault;
use std::alloc::Global;

/// Puts terms down. Under other days than those that were put down before, it is computed anew when the
/// deleted domains are due. Domains without days are refused.
pub fn set_terms<S: Alter>(
    store: &mut RowStore<S>,
    alloc: Global,
    terms: Terms,
) -> Result<(), BookFault>
    requires { store.old.is_open ≡ true }
    ensures held { MakesAs result stored_of are_right
        (with_terms terms (stored_of store.old.content)) store.old store.new }
    ensures lines { IfOk result (λ done. store.new.is_clean ≡ true
        → store.new.content.lines ≡ store.old.content.lines) }
    ensures ends { IfOk result (λ done. store.new.is_clean ≡ true
        → AreRedated (days_of_rows store.old.content) terms.days store.new.content) }
{
    let before = sqlterms::days(store, alloc)?;
    let set = set_over(store, alloc, &before, &terms);
    drop(before);
    set?;
    Ok(())
}

/// The same, given which days were put down before.
fn set_over<S: Alter>(
    store: &mut RowStore<S>,
    alloc: Global,
    before: &Option<Schedule>,
    terms: &Terms,
) -> Result<(), BookFault>
    requires { store.old.is_open ≡ true }
    ensures { Changes result (λ old new. days_of_rows old ≡ before.now
        → IsSetOver before.now terms.now old new) store.old store.new }
{
    let Some(before) = before else {
        return set_first(store, alloc, terms);
    };
    if before.is_same(&terms.days) {
        return sqlterms::set_terms(store, alloc, terms);
    }
    set_others(store, alloc, before, terms)
}

/// Puts terms down where no days are and no domains.
fn set_first<S: Alter>(
    store: &mut RowStore<S>,
    alloc: Global,
    terms: &Terms,
) -> Result<(), BookFault>
    requires { store.old.is_open ≡ true }
    ensures { Changes result (IsSetDown terms.now) store.old store.new }
{
    no_domains(store)?;
    sqlterms::set_terms(store, alloc, terms)?;
    Ok(())
}

fn no_domains<S: Alter>(store: &mut RowStore<S>) -> Result<(), BookFault>
    ensures { FindsSome result (λ done. store.old.content.domains ≡ []) store.old store.new }
{
    let domains = store.all_domains()?;
    if domains.as_slice().is_empty() {
        Ok(())
    } else {
        Err(BookFault::Store)
    }
}

/// Puts terms down under other days. Before, each column of a deleted domain has to be its end by the days that
/// were put down; afterwards it is the end by the others.
fn set_others<S: Alter>(
    store: &mut RowStore<S>,
    alloc: Global,
    before: &Schedule,
    terms: &Terms,
) -> Result<(), BookFault>
    requires { store.old.is_open ≡ true }
    ensures { Changes result (λ old new. days_of_rows old ≡ Some before.now
        → IsSetOver (Some before.now) terms.now old new) store.old store.new }
{
    ends_are(store, before)?;
    redate(store, alloc, &terms.days)?;
    sqlterms::set_terms(store, alloc, terms)?;
    ends_are(store, &terms.days)?;
    Ok(())
}
