//! Dates and moments in members (RFC 3339, 5.6).
ghost use Rattle.std.specs.Prelude.{◌≡◌, ◌<◌, IfSome};
ghost use Rattle.calendar.specs.Calendar as calendar_spec;
ghost use Rattle.calendar.specs.Reading.{two_of, date_fields};
ghost use Rattle.serde_json.specs.View.{view};
ghost use Rattle.eppcommands.specs.Reading.{Gives};
ghost use Rattle.eppcommands.specs.Dates as spec;

use crate::reading::CommandFault;
use basis::text::Text;
use calendar::Moment;
use protocol::FormFault;
use serde_json::Value;
use std::alloc::Global;

/// The text of a date, `YYYY-MM-DD`, in the years 0000 to 9999. What is no text is a fault of syntax,
/// a text that is no real date one of the parameter's syntax.
#[tactic(auto, unfolding(crate::specs::Dates::date_in))]
pub(crate) fn date_of(alloc: Global, value: &Value) -> Result<Text, CommandFault>
    ensures { Gives result (spec.date_in (view value.now)) }
{
    let text = value.as_str().ok_or(FormFault::SyntaxError)?;
    let date = fields_of(text.as_bytes()).ok_or(FormFault::ParameterSyntax)?;
    if !is_day(date) {
        return Err(CommandFault::Refused(FormFault::ParameterSyntax));
    }
    Ok(Text::from_str(alloc, text)?)
}

/// The number that two digits spell, below 100.
fn two_digits(tens: u8, ones: u8) -> Option<u8>
    ensures value { result ≡ two_of tens ones }
    ensures bound { IfSome result (λ n. n < 100) }
{
    if tens.is_ascii_digit() && ones.is_ascii_digit() {
        Some((tens - b'0') * 10 + (ones - b'0'))
    } else {
        None
    }
}

/// The year, the month and the day of a `YYYY-MM-DD`.
#[tactic(auto, unfolding(calendar::specs::Reading::date_fields))]
fn fields_of(text: &[u8]) -> Option<(u16, u8, u8)>
    ensures { result ≡ date_fields text.now }
{
    let [a, b, c, d, b'-', e, f, b'-', g, h] = text else {
        return None;
    };
    let century = two_digits(*a, *b)?;
    let year = two_digits(*c, *d)?;
    let month = two_digits(*e, *f)?;
    let day = two_digits(*g, *h)?;
    Some((u16::from(century) * 100 + u16::from(year), month, day))
}

/// Whether there is such a day in that month of that year.
fn is_day(date: (u16, u8, u8)) -> bool
    ensures { result ≡ spec.is_day date }
{
    let (year, month, day) = date;
    (1 <= month && month <= 12) && (1 <= day && day <= month_length(year, month))
}

fn month_length(year: u16, month: u8) -> u8
    ensures { result ≡ calendar_spec.month_length year month }
{
    if month == 2 {
        return if is_leap(year) { 29 } else { 28 };
    }
    if month == 4 || month == 6 || month == 9 || month == 11 {
        30
    } else {
        31
    }
}

fn is_leap(year: u16) -> bool
    ensures { result ≡ calendar_spec.is_leap year }
{
    year % 4 == 0 && (year % 100 != 0 || year % 400 == 0)
}

/// The moment of a text `YYYY-MM-DDTHH:MM:SSZ`.
#[tactic(auto, unfolding(crate::specs::Dates::moment_in))]
pub(crate) fn moment_of(value: &Value) -> Result<Moment, FormFault>
    ensures { result ≡ spec.moment_in (view value.now) }
{
    let text = value.as_str().ok_or(FormFault::SyntaxError)?;
    Moment::read(text).ok_or(FormFault::ParameterSyntax)
}
