//! The queue of a registrar's messages, and how many wait in the row of an account.
ghost use Rattle.std.specs.Prelude.{◌≡◌, ◌<ℤ◌, pos, negsuc, true, slice_get, IfOk, OnErr};
ghost use Rattle.std.specs.{FinMap.get, Option.unwrap_or, Str.bytes_eq};
ghost use Rattle.accounts.specs.{Account.empty_account, Entries.with_queue, Messages.message_id};
ghost use Rattle.accounts.specs.Queue as queue;
ghost use Rattle.lifecycle.specs.Changes.{with_acked};
ghost use Rattle.sqlaccounts.specs.{Accounts.accounts_of, inner.Posting.{IsReady, PostsNoLine}};
ghost use Rattle.sqlaccounts.specs.inner.Queue.{IsFound, IsWaitingMore, IsWritten};
ghost use Rattle.sqlcolumns.specs.Numbers.{registrar_column};
ghost use Rattle.sqltables.specs.Message as table;
ghost use Rattle.states.specs.States.{Finds, FindsSome};

use crate::account::number_of;
use accounts::Message;
use basis::list::Seq;
use basis::registrar::RegistrarNo;
use basis::text::Text;
use sqlcolumns::{message_of_row, message_row, registrar_column};
use sqlite::Alter;
use sqlrows::{Number, only, or_fault};
use sqltables::{AccountRow, MessageRow, RowStore};
use states::BookFault;
use std::alloc::{AllocError, Global};

/// The message that a poll shows: the oldest of a registrar's, if any waits.
pub fn oldest<S: Alter>(
    store: &mut RowStore<S>,
    registrar: RegistrarNo,
) -> Result<Option<Message>, BookFault>
    ensures { Finds result (slice_get (unwrap_or (get (accounts_of store.old.content) registrar)
        empty_account).queue 0) store.old store.new }
{
    let id = number_of(registrar)?;
    let row = first_row(store, id)?;
    store.show_consistent();
    let Some(row) = row else {
        return Ok(None);
    };
    let message = or_fault(message_of_row(row))?;
    Ok(Some(message))
}

/// The first row of a queue, if there is one.
fn first_row<S: Alter>(store: &mut RowStore<S>, id: Number) -> Result<Option<MessageRow>, BookFault>
    ensures { Finds result (slice_get (table.queue_of id store.old.content.messages) 0) store.old
        store.new }
{
    let rows = store.first_messages_by_account(id)?;
    only(rows)
}

/// The row of a message, and the rows that are the message's already.
#[derive(Drop)]
struct Found {
    row: MessageRow,
    same: Seq<MessageRow>,
}

/// Looks for a message.
fn look<S: Alter>(
    store: &mut RowStore<S>,
    registrar: RegistrarNo,
    message: &Message,
) -> Result<Found, BookFault>
    ensures { FindsSome result (IsFound store.old.content registrar message.now) store.old store.new }
{
    let row = written(registrar, message)?;
    let same = store.same_messages(&row)?;
    Ok(Found { row, same })
}

/// Puts a message where it belongs in a registrar's queue, unless it is there.
pub(crate) fn put_message<S: Alter>(
    store: &mut RowStore<S>,
    registrar: RegistrarNo,
    account: AccountRow,
    message: Message,
) -> Result<AccountRow, BookFault>
    requires { IsReady registrar account store.old }
    ensures { PostsNoLine result registrar
        (with_queue (queue.put message)) account store.old store.new }
{
    let Found { row, same } = look(store, registrar, &message)?;
    drop(message);
    let is_there = !same.is_empty();
    drop(same);
    if is_there {
        drop(row);
        return Ok(account);
    }
    let account = one_more(account)?;
    store.append_message(&row)?;
    Ok(account)
}

/// Takes a message out of a registrar's queue, if it is there.
pub(crate) fn take_message<S: Alter>(
    store: &mut RowStore<S>,
    registrar: RegistrarNo,
    account: AccountRow,
    message: Message,
) -> Result<AccountRow, BookFault>
    requires { IsReady registrar account store.old }
    ensures { PostsNoLine result registrar
        (with_queue (queue.dropped message)) account store.old store.new }
{
    let Found { row, same } = look(store, registrar, &message)?;
    drop(message);
    drop(row);
    store.show_consistent();
    let Some(row) = only(same)? else {
        return Ok(account);
    };
    let account = one_less(account)?;
    store.remove_messages_by_id(number_of_row(&row))?;
    Ok(account)
}

fn number_of_row(row: &MessageRow) -> Number
    ensures { result ≡ row.now.id }
{
    Number::new(row.id)
}

/// Takes the oldest message out of a registrar's queue, where it has this identifier.
pub(crate) fn acknowledge<S: Alter>(
    store: &mut RowStore<S>,
    alloc: Global,
    registrar: RegistrarNo,
    row: AccountRow,
    id: &Text,
) -> Result<AccountRow, BookFault>
    requires { IsReady registrar row store.old }
    ensures { PostsNoLine result registrar (with_acked id.now) row
        store.old store.new }
{
    let Some(message) = oldest(store, registrar)? else {
        return Ok(row);
    };
    let is_named = has_id(alloc, &message, id)?;
    if is_named {
        return take_message(store, registrar, row, message);
    }
    Ok(row)
}

/// Whether a message has this identifier.
fn has_id(alloc: Global, message: &Message, id: &Text) -> Result<bool, AllocError>
    ensures { IfOk result (λ is. is ≡ bytes_eq (message_id message.now) id.now) }
{
    let own = message.id(alloc)?;
    Ok(own == *id)
}

/// The row of a message, under its registrar's number. A message whose number doesn't fit is refused.
fn written(registrar: RegistrarNo, message: &Message) -> Result<MessageRow, BookFault>
    ensures { IfOk result (λ row. IsWritten (registrar_column registrar) message.now row) }
{
    // Shows the prover the moment, and so that it is one.
    let _secs = message.moment.secs();
    Ok(or_fault(message_row(0, registrar_column(registrar), message)?)?)
}

/// The account, for which one message more waits.
pub(crate) fn one_more(account: AccountRow) -> Result<AccountRow, BookFault>
    ensures more { IfOk result (λ changed. IsWaitingMore (pos 1) account changed) }
    ensures full { OnErr result (account.waiting ≡ pos 9_223_372_036_854_775_807) }
{
    let mut account = account;
    if account.waiting == i64::MAX {
        return Err(BookFault::Store);
    }
    account.waiting += 1;
    Ok(account)
}

/// The account, for which one message less waits.
pub(crate) fn one_less(account: AccountRow) -> Result<AccountRow, BookFault>
    ensures less { IfOk result (λ changed. IsWaitingMore (negsuc 0) account changed) }
    ensures none { OnErr result (account.waiting <ℤ pos 1) }
{
    let mut account = account;
    if account.waiting < 1 {
        return Err(BookFault::Store);
    }
    account.waiting -= 1;
    Ok(account)
}
