//! Columns that may be NULL.
ghost use Rattle.std.specs.Prelude.{◌≡◌, option_map, string_bytes};
ghost use Rattle.sqlite_value.specs.declared.value.Value.TheVariants as values;
ghost use Rattle.sqlite_value.specs.Value.{owned};
ghost use Rattle.sqlite_typed.specs.Columns.{or_null};
ghost use Rattle.sqlite.specs.Values.{bound_value};

use basis::text::Text;
use sqlite::types::ValueRef;

/// A number, or NULL.
pub fn maybe_number(number: Option<i64>) -> ValueRef<'static>
    ensures { bound_value (owned result) ≡ or_null values.Int number }
{
    match number {
        Some(number) => ValueRef::Int(number),
        None => ValueRef::Null,
    }
}

/// A text, or NULL.
pub fn maybe_text(text: &Option<Text>) -> ValueRef<'_>
    ensures { bound_value (owned result) ≡ or_null values.Text text.now }
{
    match text {
        Some(text) => ValueRef::Text(text.as_str().as_bytes()),
        None => ValueRef::Null,
    }
}

/// The text of a column that may be NULL.
pub fn maybe_text_of(column: Option<String>) -> Option<Text>
    ensures { result ≡ option_map string_bytes column }
{
    match column {
        Some(column) => Some(Text::from_string(column)),
        None => None,
    }
}
