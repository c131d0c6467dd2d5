//! Lines of accounts, what they add up to, and rows that read as them.
ghost use Rattle.std.specs.Prelude.{◌≡◌, ◌⊎◌, ◌+ℤ◌, ◌-ℤ◌, pos, FitsSigned};
ghost use Rattle.std.specs.Prelude.{IfNone, IfOk, IfSome, OnErr};
ghost use Rattle.std.specs.{Int.w128, Option.option_map_or};
ghost use Rattle.sqltables.specs.declared.account.AccountRow.{AccountRow};
ghost use Rattle.accounts.specs.{Entries.with_lines, Lines.{amount, in_order}};
ghost use Rattle.accounts.specs.Lines as lines;
ghost use Rattle.basis.specs.Bag.{add, taken};
ghost use Rattle.sqlaccounts.specs.Accounts.{account_of_rows, balance_in, sums_are_right};
ghost use Rattle.sqlaccounts.specs.inner.Changes.{IsBalanceChanged, IsWritten};
ghost use Rattle.sqlaccounts.specs.inner.Posting.{IsReady, PostsNoLine, PostsTo};
ghost use Rattle.sqlrows.specs.Meanings.{FindsIfRight};

use crate::account::maybe_row;
use crate::finding::{number_of_line, rows_about};
use crate::graces::maybe_grace_end;
use accounts::Line;
use basis::registrar::RegistrarNo;
use policy::Schedule;
use sqlcolumns::{is_line, line_row, maybe_moment_column, registrar_column};
use sqlite::Alter;
use sqlrows::or_fault;
use sqltables::{AccountRow, LineRow, RowStore, bytes_of_balance};
use states::BookFault;

/// What a registrar's account has, in whole cents: 0 where it was never opened.
#[tactic(auto, using(crate::proofs::AccountLemmas::balance_found))]
pub fn balance<S: Alter>(store: &mut RowStore<S>, registrar: RegistrarNo) -> Result<i128, BookFault>
    ensures { FindsIfRight result (sums_are_right store.old.content)
        (lines.balance (account_of_rows registrar store.old.content).lines) store.old store.new }
{
    let row = maybe_row(store, registrar)?;
    Ok(cents_of(row))
}

fn cents_of(row: Option<AccountRow>) -> i128
    ensures { result ≡ option_map_or (λ (row : AccountRow). balance_in row.balance) row (pos 0) }
{
    let Some(row) = row else {
        return 0;
    };
    i128::from_be_bytes(row.balance)
}

/// Adds a line to a registrar's account, and what it is worth to the balance. Refused is a line that no
/// row can have: on another object than a domain, or of 2 ^ 63 cents or more. When the line's grace ends
/// by these lengths of periods is written with it.
pub(crate) fn add_line<S: Alter>(
    store: &mut RowStore<S>,
    registrar: RegistrarNo,
    row: AccountRow,
    line: Line,
    days: &Option<Schedule>,
) -> Result<AccountRow, BookFault>
    requires { IsReady registrar row store.old }
    ensures { PostsTo result days.now registrar (with_lines (add in_order line)) row store.old
        store.new }
{
    let row = paid(row, line.amount())?;
    let ends = maybe_moment_column(maybe_grace_end(&line, days));
    let line = written(registrar, &line, ends)?;
    store.append_line(&line)?;
    Ok(row)
}

/// Takes a line out of a registrar's account, if it is there, and what it is worth off the balance. It
/// reads the lines on the line's domain alone, and of a deposit all lines of the account.
pub(crate) fn take_line<S: Alter>(
    store: &mut RowStore<S>,
    registrar: RegistrarNo,
    row: AccountRow,
    line: Line,
) -> Result<AccountRow, BookFault>
    requires { IsReady registrar row store.old }
    ensures { PostsNoLine result registrar
        (with_lines (taken in_order line)) row store.old store.new }
{
    let rows = rows_about(store, registrar, &line)?;
    let number = number_of_line(rows.as_slice(), &line);
    drop(rows);
    let Some(number) = number else {
        return Ok(row);
    };
    let row = paid_back(row, &line)?;
    store.show_consistent();
    store.remove_lines_by_id(number)?;
    Ok(row)
}

/// The row with so many cents more.
fn paid(row: AccountRow, cents: i128) -> Result<AccountRow, BookFault>
    ensures paid { IfOk result (IsBalanceChanged cents row) }
    ensures fits { OnErr result (¬ FitsSigned w128 (balance_in row.balance +ℤ cents)) }
{
    let mut row = row;
    let Some(balance) = balance_after(row.balance, cents) else {
        return Err(BookFault::Store);
    };
    row.balance = balance;
    Ok(row)
}

/// The row without what a line is worth.
fn paid_back(row: AccountRow, line: &Line) -> Result<AccountRow, BookFault>
    ensures paid { IfOk result (IsBalanceChanged (pos 0 -ℤ amount line.now) row) }
    ensures fits { OnErr result ((¬ FitsSigned w128 (pos 0 -ℤ amount line.now))
        ⊎ (¬ FitsSigned w128 (balance_in row.balance +ℤ (pos 0 -ℤ amount line.now)))) }
{
    match less(line.amount()) {
        Ok(cents) => paid(row, cents),
        Err(fault) => Err(fault),
    }
}

/// A balance with so many cents more, if it fits.
#[tactic(auto, using(sqltables::proofs::BalanceLemmas::balance_read))]
fn balance_after(balance: [u8; 16], cents: i128) -> Option<[u8; 16]>
    ensures sum { IfSome result (λ after. balance_in after ≡ balance_in balance +ℤ cents) }
    ensures fits { IfNone result (¬ FitsSigned w128 (balance_in balance +ℤ cents)) }
{
    let sum = i128::from_be_bytes(balance).checked_add(cents)?;
    Some(bytes_of_balance(sum))
}

/// So many cents less.
fn less(cents: i128) -> Result<i128, BookFault>
    ensures less { IfOk result (λ less. less ≡ pos 0 -ℤ cents) }
    ensures fits { OnErr result (¬ FitsSigned w128 (pos 0 -ℤ cents)) }
{
    match 0i128.checked_sub(cents) {
        Some(less) => Ok(less),
        None => Err(BookFault::Store),
    }
}

/// The row of a line, which reads as that line, with the column for the end of its grace. It has no
/// number of its own yet.
fn written(registrar: RegistrarNo, line: &Line, ends: Option<i64>) -> Result<LineRow, BookFault>
    ensures { IfOk result (IsWritten registrar line.now ends) }
{
    if !is_line(line) {
        return Err(BookFault::Store);
    }
    Ok(or_fault(line_row(0, registrar_column(registrar), line, ends))?)
}
