//! Changes of a registrar's account: its row, which the caller writes, and the rows of its lines and messages.
ghost use Rattle.std.specs.Prelude.{◌≡◌, true};
ghost use Rattle.accounts.specs.Entries.{entered};
ghost use Rattle.lifecycle.specs.Changes.{all_changed, changed, notified};
ghost use Rattle.sqlaccounts.specs.inner.Posting.{IsReady, IsRowOf, PostsNoLine, PostsTo};

use crate::counting::{counted_in, with_command, with_counters, with_serial};
use crate::line::add_line;
use crate::queue::{acknowledge, put_message};
use crate::swapping::swap_lines;
use accounts::LapseEntry;
use basis::registrar::RegistrarNo;
use lifecycle::{AccountChange, Notification, RefundUnder};
use policy::{Policy, Schedule};
use sqlite::Alter;
use sqltables::{AccountRow, RowStore};
use states::BookFault;
use std::alloc::Global;

/// Makes changes of a registrar's account, in their order, and gives its row as they leave it. The caller
/// writes that row; until then the store has the account's old one. Each row of a line that is new has the
/// end of the line's grace by these lengths of periods.
///
/// Refused with `Store` are a line that no row can have (on another object than a domain, or of 2 ^ 63
/// cents or more), a balance that 128 bits don't hold, and a message with a number of 2 ^ 63 or more.
/// After an error the row is gone, and some of the changes may have been made.
pub fn posted<S: Alter>(
    store: &mut RowStore<S>,
    alloc: Global,
    registrar: RegistrarNo,
    row: AccountRow,
    changes: Vec<AccountChange>,
    policy: &Policy,
    days: &Option<Schedule>,
) -> Result<AccountRow, BookFault>
    requires begun { store.old.is_open ≡ true }
    requires there { store.old.is_clean ≡ true → IsRowOf registrar row store.old.content }
    ensures { PostsTo result days.now registrar (all_changed policy.now changes.items) row store.old
        store.new }
{
    let mut row = row;
    for what in changes {
        row = post(store, alloc, registrar, row, what, policy, days)?;
    }
    Ok(row)
}

/// Makes one change.
fn post<S: Alter>(
    store: &mut RowStore<S>,
    alloc: Global,
    registrar: RegistrarNo,
    row: AccountRow,
    what: AccountChange,
    policy: &Policy,
    days: &Option<Schedule>,
) -> Result<AccountRow, BookFault>
    requires { IsReady registrar row store.old }
    ensures { PostsTo result days.now registrar (changed policy.now what) row store.old store.new }
{
    match what {
        AccountChange::Charge(line) => add_line(store, registrar, row, line, days),
        AccountChange::RefundRunning(refund) => {
            let change = RefundUnder { refund, policy };
            swap_lines(store, alloc, registrar, row, &change, days)
        }
        AccountChange::RefundTransfer(refund) => {
            swap_lines(store, alloc, registrar, row, &refund, days)
        }
        AccountChange::Lapse(what) => enter(store, alloc, registrar, row, what, days),
        AccountChange::Notify(notification) => notify(store, registrar, row, notification),
        AccountChange::Ack(id) => acknowledge(store, alloc, registrar, row, &id),
        AccountChange::CountCommand => Ok(with_command(row)),
        AccountChange::TakeSerial => Ok(with_serial(row)),
    }
}

/// Enters what time brings.
fn enter<S: Alter>(
    store: &mut RowStore<S>,
    alloc: Global,
    registrar: RegistrarNo,
    row: AccountRow,
    what: LapseEntry,
    days: &Option<Schedule>,
) -> Result<AccountRow, BookFault>
    requires { IsReady registrar row store.old }
    ensures { PostsTo result days.now registrar (entered what) row store.old store.new }
{
    match what {
        LapseEntry::Renewal(renewal) => add_line(store, registrar, row, renewal.line(), days),
        LapseEntry::Start(start) => swap_lines(store, alloc, registrar, row, &start, days),
        LapseEntry::Notice(message) => put_message(store, registrar, row, message),
    }
}

/// Puts a command's message into the queue, and counts it.
fn notify<S: Alter>(
    store: &mut RowStore<S>,
    registrar: RegistrarNo,
    row: AccountRow,
    notification: Notification,
) -> Result<AccountRow, BookFault>
    requires { IsReady registrar row store.old }
    ensures { PostsNoLine result registrar (notified notification) row
        store.old store.new }
{
    let counters = counted_in(&row).next_message();
    let message = notification.numbered(counters.messages);
    let row = put_message(store, registrar, row, message)?;
    Ok(with_counters(row, counters))
}
