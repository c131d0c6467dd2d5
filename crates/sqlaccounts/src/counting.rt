//! What an account counts, and how many messages wait, in its row.
ghost use Rattle.std.specs.{Prelude.{◌≡◌, pos, length}, Option.option_map_or};
ghost use Rattle.sqlaccounts.specs.Accounts.{account_of_rows, sums_are_right};
ghost use Rattle.sqlaccounts.specs.inner.Changes.{HasNewCounters, counted_in, counters_in};
ghost use Rattle.accounts.specs.Counters.{counters_of, next_command, next_serial};
ghost use Rattle.sqlrows.specs.Meanings.{FindsIfRight};
ghost use Rattle.sqltables.specs.declared.account.AccountRow.{AccountRow};

use crate::account::maybe_row;
use accounts::Counters;
use basis::registrar::RegistrarNo;
use sqlcolumns::{counter_column, counter_of_column, exact_of_column};
use sqlite::Alter;
use sqlrows::or_fault;
use sqltables::{AccountRow, RowStore};
use states::BookFault;

/// What a registrar's account counts: 0 where it was never opened.
#[tactic(auto, using(crate::proofs::AccountLemmas::counters_found))]
pub fn counts<S: Alter>(
    store: &mut RowStore<S>,
    registrar: RegistrarNo,
) -> Result<Counters, BookFault>
    ensures { FindsIfRight result (sums_are_right store.old.content)
        (counters_of (account_of_rows registrar store.old.content)) store.old store.new }
{
    let row = maybe_row(store, registrar)?;
    Ok(counted(row))
}

fn counted(row: Option<AccountRow>) -> Counters
    ensures { result ≡ counters_in row }
{
    match row {
        None => Counters::none(),
        Some(row) => counted_in(&row),
    }
}

/// What a row counts.
pub(crate) fn counted_in(row: &AccountRow) -> Counters
    ensures { result ≡ counted_in row.now }
{
    Counters {
        commands: counter_of_column(row.commands),
        messages: counter_of_column(row.messages),
        serial: counter_of_column(row.serial),
    }
}

/// The row with one command more.
pub(crate) fn with_command(row: AccountRow) -> AccountRow
    ensures { HasNewCounters (next_command (counted_in row)) row result }
{
    let counters = counted_in(&row).next_command();
    with_counters(row, counters)
}

/// The row with one object more.
pub(crate) fn with_serial(row: AccountRow) -> AccountRow
    ensures { HasNewCounters (next_serial (counted_in row)) row result }
{
    let counters = counted_in(&row).next_serial();
    with_counters(row, counters)
}

/// The row with other counters.
pub(crate) fn with_counters(row: AccountRow, counters: Counters) -> AccountRow
    ensures { HasNewCounters counters row result }
{
    let mut row = row;
    row.commands = counter_column(counters.commands);
    row.messages = counter_column(counters.messages);
    row.serial = counter_column(counters.serial);
    row
}

/// How many messages wait for a registrar: none where its account was never opened.
#[tactic(auto, using(crate::proofs::AccountLemmas::waiting_found))]
pub fn waiting<S: Alter>(store: &mut RowStore<S>, registrar: RegistrarNo) -> Result<u64, BookFault>
    ensures { FindsIfRight result (sums_are_right store.old.content)
        (length (account_of_rows registrar store.old.content).queue) store.old store.new }
{
    let row = maybe_row(store, registrar)?;
    Ok(or_fault(exact_of_column(waiting_of(row)))?)
}

fn waiting_of(row: Option<AccountRow>) -> i64
    ensures { result ≡ option_map_or (λ (row : AccountRow). row.waiting) row (pos 0) }
{
    let Some(row) = row else {
        return 0;
    };
    row.waiting
}
