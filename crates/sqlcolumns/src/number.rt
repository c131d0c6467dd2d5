//! Numbers as columns: registrars' places, counters, years and cents.
ghost use Rattle.std.specs.Prelude.{◌≡◌, ◌↔◌, IsTrue, ◌<◌, ◌^◌, ℕ, Option, Some, IfSome};
ghost use Rattle.sqlcolumns.specs.Numbers as spec;

use basis::registrar::RegistrarNo;

/// Whether a registrar has a place.
pub(crate) fn is_place(registrar: RegistrarNo) -> bool
    ensures { IsTrue result ↔ spec.IsPlace registrar }
{
    registrar.place() != 0
}

/// Whether a registrar, if there is one, has a place.
pub(crate) fn is_maybe_place(registrar: Option<RegistrarNo>) -> bool
    ensures { IsTrue result ↔ IfSome registrar spec.IsPlace }
{
    match registrar {
        None => true,
        Some(registrar) => is_place(registrar),
    }
}

/// The place of a registrar.
pub fn registrar_column(registrar: RegistrarNo) -> i64
    ensures { result ≡ spec.registrar_column registrar }
{
    i64::from(registrar.place())
}

/// The registrar whose place a column is, if it's one.
pub fn registrar_of_column(column: i64) -> Option<RegistrarNo>
    ensures value { result ≡ spec.registrar_in column }
    ensures found { IfSome result (λ place. column ≡ spec.registrar_column place) }
    ensures only { (place : ℕ) → spec.IsPlace place → column ≡ spec.registrar_column place
        → result ≡ Some place }
{
    if column < 1 || column > 4_294_967_295 {
        return None;
    }
    Some(RegistrarNo::of_place(column as u32))
}

/// The place of a registrar, or NULL where there is none.
pub fn maybe_registrar_column(registrar: Option<RegistrarNo>) -> Option<i64>
    ensures { result ≡ spec.maybe_registrar_column registrar }
{
    registrar.map(registrar_column)
}

/// The registrar of a column that may be NULL; none where it's neither.
pub fn maybe_registrar_of_column(column: Option<i64>) -> Option<Option<RegistrarNo>>
    ensures value { result ≡ spec.maybe_registrar_in column }
    ensures found { IfSome result (λ place. column ≡ spec.maybe_registrar_column place) }
    ensures only { (place : Option ℕ) → IfSome place spec.IsPlace
        → column ≡ spec.maybe_registrar_column place → result ≡ Some place }
{
    let Some(column) = column else {
        return Some(None);
    };
    let registrar = registrar_of_column(column)?;
    Some(Some(registrar))
}

/// A counter's 64 bits.
pub fn counter_column(counter: u64) -> i64
    ensures { result ≡ spec.counter_column counter }
{
    counter.cast_signed()
}

/// The counter with these bits.
pub fn counter_of_column(column: i64) -> u64
    ensures value { result ≡ spec.counter_in column }
    ensures found { column ≡ spec.counter_column result }
    ensures only { (n : ℕ) → n < 2 ^ 64 → column ≡ spec.counter_column n → result ≡ n }
{
    column.cast_unsigned()
}

/// A number of years.
pub fn years_column(years: u32) -> i64
    ensures { result ≡ spec.years_column years }
{
    i64::from(years)
}

/// The number of years of a column, if it's one.
pub fn years_of_column(column: i64) -> Option<u32>
    ensures value { result ≡ spec.years_in_column column }
    ensures found { IfSome result (λ years. column ≡ spec.years_column years) }
    ensures only { (years : ℕ) → years < 2 ^ 32 → column ≡ spec.years_column years
        → result ≡ Some years }
{
    if column < 0 || column > 4_294_967_295 {
        return None;
    }
    Some(column as u32)
}

/// A number as itself, so that columns are in its order, as cents and the numbers of messages; none
/// where it's too great for a column.
pub fn exact_column(number: u64) -> Option<i64>
    ensures { result ≡ spec.exact_column number }
{
    if number >= 9_223_372_036_854_775_808 {
        return None;
    }
    Some(number as i64)
}

/// The number that a column is; none where it's negative.
pub fn exact_of_column(column: i64) -> Option<u64>
    ensures value { result ≡ spec.exact_in column }
    ensures found { IfSome result (λ n. spec.exact_column n ≡ Some column) }
    ensures only { (n : ℕ) → spec.exact_column n ≡ Some column → result ≡ Some n }
{
    if column < 0 {
        return None;
    }
    Some(column as u64)
}
