//! Transactions of a database.
ghost use Rattle.std.specs.Prelude.{◌≡◌, ◌⊎◌, true, false};
ghost use Rattle.sqlite.specs.{Held.state, State.{HasCleanDisk, IsRolledBack, Survives}};
ghost use Rattle.sqlrows.specs.inner.Transactions.{Begins, Commits};

use sqlite::{Alter, Connection, Error};

/// Begins a transaction.
pub fn begin<S: Alter>(conn: &mut Connection<S>) -> Result<(), Error>
    ensures does { conn.old.in_transaction ≡ false → HasCleanDisk (state S.Store conn.new)
        → Begins (state S.Store conn.old) (state S.Store conn.new) result }
    ensures crash { Survives (state S.Store conn.old) (state S.Store conn.new) (λ _. ⊥) }
{
    conn.execute("BEGIN", &[])?;
    Ok(())
}

/// Makes durable what the transaction wrote, or undoes it.
pub fn commit<S: Alter>(conn: &mut Connection<S>) -> Result<(), Error>
    ensures does { conn.old.in_transaction ≡ true → HasCleanDisk (state S.Store conn.new)
        → Commits (state S.Store conn.old) (state S.Store conn.new) result }
    ensures crash { Survives (state S.Store conn.old) (state S.Store conn.new) (λ db. db
        ≡ (state S.Store conn.old).now.trees) }
{
    conn.execute("COMMIT", &[])?;
    Ok(())
}

/// Goes back to the last commit, if a transaction is open.
pub fn rollback<S: Alter>(conn: &mut Connection<S>) -> Result<(), Error>
    ensures does { HasCleanDisk (state S.Store conn.new)
        → IsRolledBack (state S.Store conn.old) (state S.Store conn.new)
        ⊎ ((conn.new ≡ conn.old) × (conn.old.in_transaction ≡ false)) }
    ensures crash { Survives (state S.Store conn.old) (state S.Store conn.new) (λ _. ⊥) }
{
    if conn.is_autocommit() {
        return Ok(());
    }
    conn.execute("ROLLBACK", &[])?;
    Ok(())
}
