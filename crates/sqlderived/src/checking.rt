//! Whether the column of a domain's row is the moment when it is due.
ghost use Rattle.std.specs.{Prelude.{◌≡◌, ◌==◌, true, IfOk, Some}, FinMap.get};
ghost use Rattle.calendar.specs.Moment.{capped};
ghost use Rattle.sqlcolumns.specs.Numbers as numbers;
ghost use Rattle.lifecycle.specs.Lapse as lapse;
ghost use Rattle.lifecycle.specs.Periods.{rules_with};
ghost use Rattle.sqldomains.specs.Domains as domains;
ghost use Rattle.sqlderived.specs.Dues.{is_due_right};
ghost use Rattle.sqlite_rules.specs.Lists.{Has};
ghost use Rattle.sqltables.specs.declared.domain.DomainRow.{DomainRow};
ghost use Rattle.states.specs.States.{FindsSome};

use basis::text::Text;
use calendar::Moment;
use lifecycle::due_by;
use objects::Domain;
use policy::Policy;
use sqlcolumns::moment_of_column;
use sqldomains::domain_of;
use sqlite::Alter;
use sqlobjects::row_named;
use sqlrows::or_fault;
use sqltables::{DomainRow, RowStore};
use states::BookFault;
use std::alloc::Global;

/// When a domain's row is due: when the domain is, or at the last moment where that lies past it.
pub fn due_of_domain(domain: &Domain, policy: &Policy) -> Moment
    ensures { result ≡ capped (lapse.due_at (rules_with policy.now.days) domain.now) }
{
    let last = Moment::last();
    match due_by(domain, last, policy) {
        None => last,
        Some(moment) => moment,
    }
}

/// The domain under a name. Refused is a row whose column says another moment than the domain is due.
pub fn checked_domain<S: Alter>(
    store: &mut RowStore<S>,
    alloc: Global,
    name: &Text,
    policy: &Policy,
) -> Result<Option<Domain>, BookFault>
    ensures { FindsSome result (λ domain. (get (domains.domains_of store.old.content) name.now ≡ domain)
        × ((row : DomainRow) → Has store.old.content.domains row → row.name ≡ name.now
        → is_due_right policy.now.days store.old.content row ≡ true)) store.old store.new }
{
    match row_named::<DomainRow, S>(store, name)? {
        None => Ok(None),
        Some(row) => Ok(Some(right_domain(store, alloc, row, policy)?)),
    }
}

/// The domain of a row whose column is when it is due.
fn right_domain<S: Alter>(
    store: &mut RowStore<S>,
    alloc: Global,
    row: DomainRow,
    policy: &Policy,
) -> Result<Domain, BookFault>
    ensures { FindsSome result (λ domain. (domains.domain_read store.old.content row ≡ Some domain)
        × (is_due_right policy.now.days store.old.content row ≡ true)) store.old store.new }
{
    let due = due_in(&row)?;
    let domain = domain_of(store, alloc, row)?;
    if !is_due_then(due, &domain, policy) {
        return Err(BookFault::Store);
    }
    Ok(domain)
}

/// The moment in a row's column. One that is none is refused.
pub(crate) fn due_in(row: &DomainRow) -> Result<Moment, BookFault>
    ensures { IfOk result (λ due. row.now.due ≡ numbers.moment_column due) }
{
    or_fault(moment_of_column(row.due))
}

fn is_due_then(due: Moment, domain: &Domain, policy: &Policy) -> bool
    ensures { result ≡ (due == capped (lapse.due_at (rules_with policy.now.days) domain.now)) }
{
    due == due_of_domain(domain, policy)
}
