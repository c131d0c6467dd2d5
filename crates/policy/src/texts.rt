//! The texts of the policy file.
ghost use Rattle.std.specs.{Prelude.{◌≡◌, true, length, map, option_map, IfOk}, List.list_all};
ghost use Rattle.toml.specs.View.{view, table_view};
ghost use Rattle.policy.specs.Reading as spec;
ghost use Rattle.policy.specs.Reading.{Gives};

use crate::document::{as_values, get, value_at};
use crate::{Key, PolicyFault};
use basis::text::Text;
use names::{is_name, reads_as_itself};
use std::alloc::{AllocError, Global};
use toml::{Table, Value};

/// The word that no registrar may have as its id.
const OPERATOR: &str = "operator";

/// The most labels that may be reserved.
const MOST_RESERVED: usize = 10_000;

fn has_id_bytes(text: &[u8]) -> bool
    ensures { result ≡ list_all spec.is_id_byte text.now }
{
    text.iter()
        .all(|byte| byte.is_ascii_alphanumeric() || *byte == b'-')
}

#[tactic(auto, unfolding(crate::specs::Reading::is_id))]
fn is_id(text: &str) -> bool
    ensures { result ≡ spec.is_id text.now }
{
    text.len() >= 3
        && text.len() <= 16
        && has_id_bytes(text.as_bytes())
        && text.as_bytes() != OPERATOR.as_bytes()
}

fn is_visible(text: &[u8]) -> bool
    ensures { result ≡ list_all spec.is_visible text.now }
{
    text.iter().all(|byte| *byte >= 33 && *byte <= 126)
}

#[tactic(auto, unfolding(crate::specs::Reading::is_password))]
fn is_password(text: &str) -> bool
    ensures { result ≡ spec.is_password text.now }
{
    text.len() >= 6 && text.len() <= 16 && is_visible(text.as_bytes())
}

/// Whether the key may have the text.
fn fits(alloc: Global, key: Key, text: &str) -> Result<bool, AllocError>
    ensures { IfOk result (λ fit. fit ≡ spec.fits key text.now) }
{
    match key {
        Key::RegistrarId => Ok(is_id(text)),
        Key::RegistrarPassword => Ok(is_password(text)),
        Key::SoaMname | Key::SoaRname => Ok(is_name(text.as_bytes())),
        _ => reads_as_itself(alloc, text),
    }
}

/// The text, if the key may have it.
fn as_text(alloc: Global, text: Option<&str>, key: Key) -> Result<Text, PolicyFault>
    ensures read { Gives (λ text. text) result
        (spec.as_text key (option_map (λ text. text.now) text.entry)) }
    ensures fits { IfOk result (λ text. spec.fits key text ≡ true) }
{
    let Some(text) = text else {
        return Err(PolicyFault::Range(key));
    };
    if !fits(alloc, key, text)? {
        return Err(PolicyFault::Range(key));
    }
    Ok(Text::from_str(alloc, text)?)
}

/// The text at a key.
#[tactic(auto, unfolding(crate::specs::Reading::text_at))]
pub(crate) fn text_at(alloc: Global, document: &Table, key: Key) -> Result<Text, PolicyFault>
    ensures read { Gives (λ text. text) result (spec.text_at (table_view document.now) key) }
    ensures fits { IfOk result (λ text. spec.fits key text ≡ true) }
{
    let value = value_at(document, key)?;
    as_text(alloc, value.as_str(), key)
}

/// The text at a key of an entry, or the entry itself where the key is in no table.
fn text_in(entry: &Value, key: Key) -> Option<&str>
    ensures { option_map (λ text. text.now) result ≡ spec.text_in key (view entry.now) }
{
    if key.table().is_none() {
        return entry.as_str();
    }
    get(entry.as_table()?, key.name())?.as_str()
}

/// The texts of the entries.
pub(crate) fn texts_in(alloc: Global, entries: &[Value], key: Key) -> Result<Vec<Text>, PolicyFault>
    ensures read { Gives (λ texts. texts.items) result (spec.texts_in key (map view entries.now)) }
    ensures each { IfOk result (λ texts. length texts.items ≡ length entries.now) }
{
    let mut texts = Vec::new(alloc);
    for entry in entries {
        let text = as_text(alloc, text_in(entry, key), key)?;
        texts.push(text)?;
    }
    Ok(texts)
}

/// The labels at a key.
#[tactic(auto, unfolding(crate::specs::Reading::labels_at))]
pub(crate) fn labels_at(alloc: Global, document: &Table, key: Key) -> Result<Vec<Text>, PolicyFault>
    ensures { Gives (λ texts. texts.items) result (spec.labels_at (table_view document.now) key) }
{
    let values = as_values(value_at(document, key)?, key)?;
    if values.len() > MOST_RESERVED {
        return Err(PolicyFault::Range(key));
    }
    texts_in(alloc, values, key)
}
