//! Domains put under their names and dropped.
ghost use Rattle.std.specs.Prelude.{◌≡◌, true, pos, Some, None, IfOk};
ghost use Rattle.sqlrows.specs.{Meanings.Changes, Read.rows_of};
ghost use Rattle.states.specs.States.{FindsSome};
ghost use Rattle.sqlobjects.specs.Changes.{contact_name_by_number};
ghost use Rattle.sqlobjects.specs.inner.Stages.{named_domains, rows_named};
ghost use Rattle.sqldomains.specs.inner.Changes.{IsDomainPut};
ghost use Rattle.sqldomains.specs.inner.Stages.{ArePartsPut, HasNoParts, row_beside};

use crate::link_rows::{number_there, put_links};
use crate::links::number_of;
use crate::names;
use basis::text::Text;
use calendar::Moment;
use objects::Domain;
use sqlcolumns::{domain_row, is_domain};
use sqlite::Alter;
use sqlobjects::{Transferable, clear_transfer, place_row, put_last_transfer, row_named};
use sqlrows::or_fault;
use sqltables::{ContactRow, DomainRow, RowStore};
use states::BookFault;
use std::alloc::Global;

/// What a domain's row has that the domain hasn't: the number of its registrant, and when it is due.
#[derive(Clone, Copy, Drop)]
pub(crate) struct DerivedColumns {
    pub registrant: i64,
    pub due: Moment,
}

/// The domain is under this name, which has to be its own, and its row is due at this moment. What
/// it names has to be there.
pub fn put_domain<S: Alter>(
    store: &mut RowStore<S>,
    alloc: Global,
    name: &Text,
    domain: &Domain,
    due: Moment,
) -> Result<(), BookFault>
    requires { store.old.is_open ≡ true }
    ensures { Changes result (IsDomainPut name.now (Some domain.now) (Some due)) store.old store.new }
{
    if domain.name.as_str() != name.as_str() {
        return Err(BookFault::Store);
    }
    let found = row_named(store, &domain.name)?;
    let registrant = registrant_number(store, &found, domain)?;
    let beside = DerivedColumns { registrant, due };
    put_beside(store, alloc, &beside, found, domain)
}

/// The number of the domain's registrant. It is looked for by its name only where the row that was
/// found has another one's.
fn registrant_number<S: Alter>(
    store: &mut RowStore<S>,
    found: &Option<DomainRow>,
    domain: &Domain,
) -> Result<i64, BookFault>
    ensures { FindsSome result (λ id. contact_name_by_number store.old.content id
        ≡ Some domain.now.links.registrant) store.old store.new }
{
    match found {
        None => number_there::<ContactRow, S>(store, &domain.links.registrant),
        Some(row) => number_or(store, row.registrant, &domain.links.registrant),
    }
}

/// The number of the contact of this name: this one, if it is.
fn number_or<S: Alter>(store: &mut RowStore<S>, id: i64, name: &Text) -> Result<i64, BookFault>
    ensures { FindsSome result (λ id. contact_name_by_number store.old.content id ≡ Some name.now)
        store.old store.new }
{
    let there = names::contact_name(store, id)?;
    let is_same = there.as_str() == name.as_str();
    drop(there);
    if !is_same {
        return number_there::<ContactRow, S>(store, name);
    }
    Ok(id)
}

/// The same, given its registrant's number. One that wouldn't be read back is refused.
fn put_beside<S: Alter>(
    store: &mut RowStore<S>,
    alloc: Global,
    beside: &DerivedColumns,
    found: Option<DomainRow>,
    domain: &Domain,
) -> Result<(), BookFault>
    requires { store.old.is_open ≡ true }
    ensures { Changes result (λ old new.
        rows_named named_domains domain.now.name old ≡ rows_of found
        → contact_name_by_number old beside.now.registrant ≡ Some domain.now.links.registrant
        → IsDomainPut domain.now.name (Some domain.now) (Some beside.now.due) old new) store.old
        store.new }
{
    if !is_domain(domain) {
        return Err(BookFault::Store);
    }
    let is_new = found.is_none();
    store.show_consistent();
    let bare = row_of(alloc, beside, domain)?;
    let row = place_row(store, found, bare)?;
    store.show_consistent();
    put_parts(store, alloc, &row, domain, is_new)?;
    store.show_consistent();
    Ok(())
}

/// A domain's row, but for its number, its links and its transfer. One that can't be written is refused.
fn row_of(alloc: Global, beside: &DerivedColumns, domain: &Domain) -> Result<DomainRow, BookFault>
    ensures { IfOk result (λ row. row_beside (pos 0) beside.now domain.now ≡ Some row) }
{
    or_fault(domain_row(alloc, 0, beside.registrant, beside.due, domain)?)
}

/// The domain in this row has its links and its transfer. To a new row nothing leads, so nothing is
/// looked for.
fn put_parts<S: Alter>(
    store: &mut RowStore<S>,
    alloc: Global,
    row: &DomainRow,
    domain: &Domain,
    is_new: bool,
) -> Result<(), BookFault>
    requires { store.old.is_open ≡ true }
    ensures { Changes result (λ old new. (is_new ≡ true → HasNoParts row.now.id old)
        → ArePartsPut row.now.id row.now.due domain.now old new) store.old store.new }
{
    put_links(store, alloc, row, &domain.links, is_new)?;
    put_last_transfer(
        store,
        Transferable::of_domain(row),
        &domain.transfer,
        is_new,
    )?;
    Ok(())
}

/// No domain is under this name, and no link and no transfer is of the one that was.
pub fn drop_domain<S: Alter>(store: &mut RowStore<S>, name: &Text) -> Result<(), BookFault>
    requires { store.old.is_open ≡ true }
    ensures { Changes result (IsDomainPut name.now None None) store.old store.new }
{
    store.show_consistent();
    let Some(row) = row_named::<DomainRow, S>(store, name)? else {
        return Ok(());
    };
    let number = number_of(&row);
    store.remove_links_by_domain(number)?;
    clear_transfer(store, Transferable::of_domain(&row))?;
    store.remove_domains_by_id(number)?;
    store.show_consistent();
    Ok(())
}
