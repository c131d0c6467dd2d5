//! Transfers as rows.
ghost use Rattle.std.specs.Prelude.{◌≡◌, ◌↔◌, IsTrue, Some, IfSome};
ghost use Rattle.objects.specs.declared.transfer.Transfer.{Transfer};
ghost use Rattle.sqlcolumns.specs.Transfers as spec;

use crate::code::Coded;
use crate::moment::{moment_column, moment_of_column, show_moment};
use crate::number::{is_place, registrar_column, registrar_of_column};
use objects::{Transfer, TransferState};
use sqltables::TransferRow;

/// The row of a transfer, under its number, of the contact or the domain with this one.
pub fn transfer_row(
    id: i64,
    contact: Option<i64>,
    domain: Option<i64>,
    transfer: &Transfer,
) -> TransferRow
    ensures { result ≡ spec.row_of_transfer id contact domain transfer.now }
{
    TransferRow {
        id,
        contact,
        domain,
        requester: registrar_column(transfer.requester),
        losing: registrar_column(transfer.losing_registrar),
        requested: moment_column(transfer.requested),
        ac_date: moment_column(transfer.ac_date),
        state: transfer.state.column(),
        due: due_column(transfer),
    }
}

/// Whether a transfer's registrars have places: such a transfer is read back from its row.
pub fn is_transfer(transfer: &Transfer) -> bool
    ensures { IsTrue result ↔ spec.IsStorableTransfer transfer.now }
{
    show_moment(transfer.requested);
    show_moment(transfer.ac_date);
    is_place(transfer.requester) && is_place(transfer.losing_registrar)
}

/// When the server approves it while it is pending, else NULL.
fn due_column(transfer: &Transfer) -> Option<i64>
    ensures { result ≡ spec.due_column transfer.now }
{
    if transfer.is_pending() {
        Some(moment_column(transfer.ac_date))
    } else {
        None
    }
}

/// The same of an object whose last transfer is this.
pub(crate) fn maybe_due_column(transfer: &Option<Transfer>) -> Option<i64>
    ensures { result ≡ spec.maybe_due_column transfer.now }
{
    due_column(transfer.as_ref()?)
}

/// The transfer of a row, if each column reads, and it's due when it says.
#[tactic(auto, using(crate::proofs::TransferLemmas::transfer_written, crate::proofs::TransferLemmas::transfer_back))]
pub fn transfer_of_row(row: &TransferRow) -> Option<Transfer>
    ensures value { result ≡ spec.transfer_of_columns row.now }
    ensures found { IfSome result (λ t. spec.row_of_transfer row.now.id row.now.contact row.now.domain
        t ≡ row.now) }
    ensures only { (t : Transfer) → spec.IsStorableTransfer t
        → spec.row_of_transfer row.now.id row.now.contact row.now.domain t ≡ row.now
        → result ≡ Some t }
{
    let transfer = Transfer {
        requester: registrar_of_column(row.requester)?,
        losing_registrar: registrar_of_column(row.losing)?,
        requested: moment_of_column(row.requested)?,
        ac_date: moment_of_column(row.ac_date)?,
        state: TransferState::of_column(row.state)?,
    };
    if is_same(due_column(&transfer), row.due) {
        Some(transfer)
    } else {
        None
    }
}

/// Two columns that may have no number are the same.
pub fn is_same(a: Option<i64>, b: Option<i64>) -> bool
    ensures { result ≡ spec.is_same a b }
{
    a == b
}
