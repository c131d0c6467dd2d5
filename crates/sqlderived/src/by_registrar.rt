//! Rows that a registrar leads to: what it sponsors, and what a pending transfer brings to it or takes from it.
ghost use Rattle.std.specs.Prelude.{◌≡◌, Some};
ghost use Rattle.sqlcolumns.specs.Numbers.{registrar_column};
ghost use Rattle.sqlderived.specs.inner.Near as spec;
ghost use Rattle.states.specs.States.{Finds};

use crate::finding::number;
use crate::joining::{Way, joined};
use basis::list::Seq;
use basis::registrar::RegistrarNo;
use calendar::Moment;
use sqlite::Alter;
use sqlrows::Number;
use sqltables::{ContactRow, DomainRow, RowStore, TransferRow};
use states::BookFault;
use std::alloc::Global;

// ---- what it sponsors

pub(crate) fn contacts_sponsored<S: Alter>(
    store: &mut RowStore<S>,
    alloc: Global,
    caller: &Option<RegistrarNo>,
    moment: Moment,
) -> Result<Seq<ContactRow>, BookFault>
    ensures { Finds result (spec.contacts_sponsored caller.now moment store.old.content) store.old
        store.new }
{
    match caller {
        None => Ok(Seq::new(alloc)),
        Some(registrar) => {
            store.contacts_by_sponsor_until_due(account_number(*registrar), number(moment))
        }
    }
}

pub(crate) fn domains_sponsored<S: Alter>(
    store: &mut RowStore<S>,
    alloc: Global,
    caller: &Option<RegistrarNo>,
    moment: Moment,
) -> Result<Seq<DomainRow>, BookFault>
    ensures { Finds result (spec.domains_sponsored caller.now moment store.old.content) store.old
        store.new }
{
    match caller {
        None => Ok(Seq::new(alloc)),
        Some(registrar) => {
            store.domains_by_sponsor_until_due(account_number(*registrar), number(moment))
        }
    }
}

fn account_number(registrar: RegistrarNo) -> Number
    ensures { result ≡ registrar_column registrar }
{
    Number::new(sqlcolumns::registrar_column(registrar))
}

// ---- its pending transfers

/// The transfers that are pending, which the registrar asked for or which take something away from it.
pub(crate) fn pending_of<S: Alter>(
    store: &mut RowStore<S>,
    alloc: Global,
    caller: &Option<RegistrarNo>,
) -> Result<Seq<TransferRow>, BookFault>
    ensures { Finds result (spec.pending_of caller.now store.old.content) store.old store.new }
{
    match caller {
        None => Ok(Seq::new(alloc)),
        Some(registrar) => pending_with(store, *registrar),
    }
}

fn pending_with<S: Alter>(
    store: &mut RowStore<S>,
    registrar: RegistrarNo,
) -> Result<Seq<TransferRow>, BookFault>
    ensures { Finds result (spec.pending_of (Some registrar) store.old.content) store.old
        store.new }
{
    let number = account_number(registrar);
    let asked = store.pending_transfers_by_requester(number)?;
    let lost = store.pending_transfers_by_losing(number)?;
    Ok(joined(asked, lost)?)
}

/// The contact that a transfer is of, if it is of one.
#[derive(Drop)]
pub(crate) struct TransferredContact;

impl Way for TransferredContact {
    type From = TransferRow;

    type Row = ContactRow;

    ghost rows = { λ way. spec.contact_of_transfer };

    fn rows<S: Alter>(
        &self,
        store: &mut RowStore<S>,
        alloc: Global,
        row: &TransferRow,
    ) -> Result<Seq<ContactRow>, BookFault> {
        match row.contact {
            None => Ok(Seq::new(alloc)),
            Some(id) => store.contacts_by_id(Number::new(id)),
        }
    }
}

/// The domain that a transfer is of, if it is of one.
#[derive(Drop)]
pub(crate) struct TransferredDomain;

impl Way for TransferredDomain {
    type From = TransferRow;

    type Row = DomainRow;

    ghost rows = { λ way. spec.domain_of_transfer };

    fn rows<S: Alter>(
        &self,
        store: &mut RowStore<S>,
        alloc: Global,
        row: &TransferRow,
    ) -> Result<Seq<DomainRow>, BookFault> {
        match row.domain {
            None => Ok(Seq::new(alloc)),
            Some(id) => store.domains_by_id(Number::new(id)),
        }
    }
}
