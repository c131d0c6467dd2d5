//! The values at the keys of the document.
ghost use Rattle.std.specs.{Prelude.{◌≡◌, ◌≤◌, IfOk, map, option_map}, List.list_any};
ghost use Rattle.toml.specs.{Data.{as_array, get_member}, View.{view, table_view}};
ghost use Rattle.policy.specs.Reading as spec;
ghost use Rattle.policy.specs.Reading.{Gives};

use crate::{Key, PolicyFault};
use std::alloc::Global;
use toml::{Table, Value};

/// The document that the bytes spell.
#[tactic(auto, unfolding(crate::specs::Reading::document_of))]
pub(crate) fn document_of(alloc: Global, bytes: &[u8]) -> Result<Table, PolicyFault>
    ensures { Gives (λ document. table_view document) result (spec.document_of bytes.now) }
{
    match toml::table_from_slice(alloc, bytes) {
        Ok(document) => Ok(document),
        Err(error) if error.is_memory() => Err(PolicyFault::Memory),
        Err(_) => Err(PolicyFault::NotToml),
    }
}

/// What a table has at a name.
pub(crate) fn get<'a>(table: &'a Table, name: &str) -> Option<&'a Value>
    ensures { option_map (λ value. view value.now) result
        ≡ get_member name.now (table_view table.now) }
{
    table.get(name)
}

fn or_missing(value: Option<&Value>, key: Key) -> Result<&Value, PolicyFault>
    ensures { Gives (λ value. view value.now) result
        (spec.or_missing key (option_map (λ value. view value.now) value.entry)) }
{
    match value {
        Some(value) => Ok(value),
        None => Err(PolicyFault::Missing(key)),
    }
}

/// The value at a key.
#[tactic(auto, unfolding(crate::specs::Reading::value_at))]
pub(crate) fn value_at(document: &Table, key: Key) -> Result<&Value, PolicyFault>
    ensures { Gives (λ value. view value.now) result (spec.value_at (table_view document.now) key) }
{
    let Some(name) = key.table() else {
        return or_missing(get(document, key.name()), key);
    };
    let Some(value) = get(document, name) else {
        return Err(PolicyFault::Missing(key));
    };
    let Some(table) = value.as_table() else {
        return Err(PolicyFault::Range(key));
    };
    or_missing(get(table, key.name()), key)
}

/// The whole number from `low` to `high` at a key.
#[tactic(auto, unfolding(crate::specs::Reading::whole_at))]
pub(crate) fn whole_at(document: &Table, key: Key, low: u32, high: u32) -> Result<u32, PolicyFault>
    ensures read { Gives (λ n. n) result (spec.whole_at (table_view document.now) key low high) }
    ensures range { IfOk result (λ n. (low ≤ n) × (n ≤ high)) }
{
    let value = value_at(document, key)?;
    match value.as_integer() {
        Some(n) if n >= i64::from(low) && n <= i64::from(high) => Ok(n as u32),
        _ => Err(PolicyFault::Range(key)),
    }
}

/// The values of the array that a value is.
pub(crate) fn as_values(value: &Value, key: Key) -> Result<&[Value], PolicyFault>
    ensures { Gives (λ values. map view values.now) result
        (spec.as_values key (as_array (view value.now))) }
{
    match value.as_array() {
        Some(values) => Ok(values.as_slice()),
        None => Err(PolicyFault::Range(key)),
    }
}

/// Whether an entry is a table that lacks the key.
pub(crate) fn lacks(entry: &Value, key: Key) -> bool
    ensures { result ≡ spec.lacks key (view entry.now) }
{
    match entry.as_table() {
        Some(table) => get(table, key.name()).is_none(),
        None => false,
    }
}

/// Whether one of them is.
pub(crate) fn any_lacks(entries: &[Value], key: Key) -> bool
    ensures { result ≡ list_any (λ entry. spec.lacks key (view entry)) entries.now }
{
    entries.iter().any(|entry| lacks(entry, key))
}
