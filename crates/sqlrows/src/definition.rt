//! Tables and indexes, made of their texts.
ghost use Rattle.std.specs.Prelude.{◌≡◌, true, map, IsTrue};
ghost use Rattle.sqlite_schema.specs.declared.schema.Schema.{Schema};
ghost use Rattle.sqlite.specs.{Held.state, State.HasCleanDisk};
ghost use Rattle.sqlrows.specs.inner.Calls.{ForgetsNoFault};
ghost use Rattle.sqlrows.specs.inner.Definitions.{DefinesAll, IsBlank, Makes};

use crate::record::write;
use sqlite::{Alter, Connection, Error};

/// Makes the tables and indexes that the texts define, in their order, inside a transaction.
pub fn define<S: Alter>(conn: &mut Connection<S>, texts: &[&str]) -> Result<(), Error>
    ensures does { (from to : Schema) → DefinesAll from (map (λ t. t.now) texts.now) to
        → IsBlank from (state S.Store conn.old).now → IsTrue (state S.Store conn.old).is_open
        → conn.old.in_transaction ≡ true → HasCleanDisk (state S.Store conn.new)
        → Makes to (state S.Store conn.old) (state S.Store conn.new) result }
    ensures steady { ForgetsNoFault (state S.Store conn.old) (state S.Store conn.new) }
    ensures opened { HasCleanDisk (state S.Store conn.new) → IsTrue (state S.Store conn.new).is_open
        → IsTrue (state S.Store conn.old).is_open }
{
    'texts: for text in texts {
        write(conn, text, &[])?;
    }
    Ok(())
}
