//! The registrars that may log in.
ghost use Rattle.std.specs.Prelude.{◌≡◌, ◌+◌, ◌<◌, length, map, position, option_copied, IfOk, IfSome};
ghost use Rattle.std.specs.{List.{IsDistinct, list_any}, Str.bytes_eq};
ghost use Rattle.toml.specs.View.{view, table_view};
ghost use Rattle.policy.specs.Reading as spec;
ghost use Rattle.policy.specs.{Reading.Gives, Rules.{IsRegistrarCount, has_id}};

use crate::document::{any_lacks, as_values, get};
use crate::texts::texts_in;
use crate::{Key, PolicyFault};
use basis::list::Seq;
use basis::registrar::RegistrarNo;
use basis::text::Text;
use std::alloc::Global;
use toml::{Table, Value};

/// The most registrars.
const MOST_REGISTRARS: usize = 1_000;

/// The registrars of a policy's file, in its order.
#[derive(Drop)]
pub(crate) struct Registrars {
    /// The id of each: 3 to 16 letters, digits and hyphens.
    pub(crate) ids: Seq<Text>,
    /// The password of each: 6 to 16 bytes.
    pub(crate) passwords: Seq<Text>,
}

/// The registrar at an index of the list.
pub(crate) fn number_at(index: usize) -> RegistrarNo
    requires { index < 1_000 }
    ensures { result ≡ index + 1 }
{
    RegistrarNo::of_place(index as u32 + 1)
}

/// The index of an id.
pub(crate) fn index_of(ids: &[Text], id: &str) -> Option<usize>
    ensures value { result ≡ position (has_id id.now) ids.now }
    ensures bound { IfSome result (λ index. index < length ids.now) }
{
    ids.iter().position(|own| own.as_str() == id)
}

/// The texts of one key in all entries.
#[tactic(auto, using(crate::proofs::TextLemmas::list_any_of_map, crate::proofs::TextLemmas::length_of_map), unfolding(crate::specs::Reading::column))]
fn column(alloc: Global, entries: &[Value], key: Key) -> Result<Vec<Text>, PolicyFault>
    ensures read { Gives (λ texts. texts.items) result (spec.column key (map view entries.now)) }
    ensures each { IfOk result (λ texts. length texts.items ≡ length entries.now) }
    ensures few { IfOk result (λ texts. length texts.items < 1_001) }
{
    if any_lacks(entries, key) {
        return Err(PolicyFault::Missing(key));
    }
    if entries.len() > MOST_REGISTRARS {
        return Err(PolicyFault::Range(key));
    }
    texts_in(alloc, entries, key)
}

/// The entries of the registrars.
#[tactic(auto, unfolding(crate::specs::Reading::entries_at))]
fn entries_at(document: &Table) -> Result<&[Value], PolicyFault>
    ensures read { Gives (λ entries. map view entries.now) result
        (spec.entries_at (table_view document.now)) }
    ensures some { IfOk result (λ entries. 0 < length entries.now) }
{
    let Some(value) = get(document, "registrar") else {
        return Err(PolicyFault::Missing(Key::RegistrarId));
    };
    let entries = as_values(value, Key::RegistrarId)?;
    if entries.is_empty() {
        return Err(PolicyFault::Missing(Key::RegistrarId));
    }
    Ok(entries)
}

fn is_among(id: &str, others: &[Text]) -> bool
    ensures { result ≡ list_any (λ other. bytes_eq other id.now) others.now }
{
    others.iter().any(|other| other.as_str() == id)
}

/// The first id that comes again after it.
fn first_twice(ids: &[Text]) -> Option<&Text>
    ensures { option_copied result ≡ spec.first_twice ids.now }
{
    for (i, id) in ids.iter().enumerate() {
        if is_among(id.as_str(), &ids[i + 1..]) {
            return Some(id);
        }
    }
    None
}

/// The array `registrar`.
#[tactic(auto, unfolding(crate::specs::Reading::registrars_at))]
pub(crate) fn registrars_at(alloc: Global, document: &Table) -> Result<Registrars, PolicyFault>
    ensures read { Gives (λ registrars. registrars) result
        (spec.registrars_at (table_view document.now)) }
    ensures count { IfOk result (λ registrars. IsRegistrarCount (length registrars.ids)) }
    ensures distinct { IfOk result (λ registrars. IsDistinct bytes_eq registrars.ids) }
{
    let entries = entries_at(document)?;
    let ids = column(alloc, entries, Key::RegistrarId)?;
    let passwords = column(alloc, entries, Key::RegistrarPassword)?;
    if let Some(id) = first_twice(&ids) {
        return Err(PolicyFault::Twice(id.clone()?));
    }
    Ok(Registrars {
        ids: Seq::from_vec(ids),
        passwords: Seq::from_vec(passwords),
    })
}
