//! What a database is, before anything is made in it: never used, a registry of this schema, or another.
ghost use Rattle.std.specs.Prelude.{◌≡◌, IfOk};
ghost use Rattle.sqlite.specs.Held.{state};
ghost use Rattle.sqltables.specs.{Readiness.{IsFormOf, is_numbered}, Tables.registry};

use crate::form::Form;
use crate::meta::MetaRow;
use crate::schema::create;
use sqlite::{Alter, Connection, Error};
use sqlite_schema::schema::Schema;
use sqlrows::{begin, is_schema, is_unused};
use std::alloc::Global;

/// The number of this schema, which the row of `meta` keeps.
pub const SCHEMA_NUMBER: i64 = 2;

/// Whether the rows of `meta` are one, with the number of this schema.
pub(crate) fn is_numbered(metas: &[MetaRow]) -> bool
    ensures { result ≡ is_numbered metas.now }
{
    match metas {
        [meta] => meta.version == SCHEMA_NUMBER,
        _ => false,
    }
}

/// The schema that the texts make, read off a database in memory.
fn registry_schema(alloc: Global) -> Result<Schema, Error>
    ensures { IfOk result (λ schema. schema ≡ registry) }
{
    let mut conn = Connection::open_in_memory(alloc)?;
    begin(&mut conn)?;
    create(&mut conn)?;
    Ok(conn.schema().copy(alloc)?)
}

/// What a database is, by its tables alone.
pub fn form_of<S: Alter>(conn: &Connection<S>, alloc: Global) -> Result<Form, Error>
    ensures { IfOk result (IsFormOf (state S.Store conn.now).now.schema) }
{
    if is_unused(conn.schema()) {
        return Ok(Form::Unused);
    }
    let registry = registry_schema(alloc)?;
    if is_schema(conn.schema(), &registry) {
        Ok(Form::Made)
    } else {
        Ok(Form::Other)
    }
}
