//! Moments, and sums of them with days and years.
ghost use Rattle.std.specs.Prelude.{◌≡◌, ◌/◌, ◌%◌, ℕ, Some, pos, max, nat_lt, IfOk, IfSome, string_bytes};
ghost use Rattle.std.specs.Str.{bytes_eq};
ghost use Rattle.jiff.specs.Words.{civil_seconds};
ghost use Rattle.calendar.specs.{Calendar.{date_of, is_leap, month_length}, Ranks.rank};
ghost use Rattle.calendar.specs.{Shown.Shows, Text.{date_text, is_date, moment_text, parts_of}};
ghost use Rattle.calendar.specs.{Reading.AreShort, Named.moment_named};
ghost use Rattle.calendar.specs.Moment.{IsMoment, capped, checked, checked_signed, plus_days, plus_years, years_later};

use crate::reading::{Parts, date_fields, parts_in};
use jiff::civil::DateTime;
use jiff::tz::Offset;
use jiff::{Error, Timestamp, ToSpan};
use std::alloc::{AllocError, Global};
use std::marker::Model;

/// The first moment, 2000-01-01T00:00:00Z.
const FIRST: i64 = 946_684_800;
/// The last moment, 2199-12-31T23:59:59Z.
const LAST: i64 = 7_258_118_399;

/// The seconds of a day.
const DAY: u64 = 86_400;
/// More years than lie between any two moments.
const AGES: u32 = 1_000;

/// A moment out of range.
#[derive(Clone, Copy, Debug, PartialEq, Eq)]
pub struct Range;

impl From<Error> for Range {
    fn from(_: Error) -> Range {
        Range
    }
}

/// A whole second in UTC.
#[derive(Clone, Copy, Debug, PartialEq, Eq, PartialOrd, Ord, Hash)]
pub struct Moment {
    secs: u64,
}

impl Model for Moment {
    ghost use Rattle.std.specs.Prelude.{ℕ};
    ghost use Rattle.calendar.specs.Moment.{IsMoment};

    ghost Value = { ℕ };

    ghost view = { λ m. m.secs };

    ghost invariant = { λ m. IsMoment m.secs };

    ghost inverse = { λ n. record { secs = n } };
}

/// Whether the year has a 29 February.
fn is_leap(year: u128) -> bool
    ensures { result ≡ is_leap year }
{
    year % 4 == 0 && (year % 100 != 0 || year % 400 == 0)
}

/// The days of a month.
fn month_length(year: u128, month: u8) -> u8
    ensures { result ≡ month_length year month }
{
    match month {
        2 => if is_leap(year) { 29 } else { 28 },
        4 | 6 | 9 | 11 => 30,
        _ => 31,
    }
}

impl Moment {
    /// 2000-01-01T00:00:00Z, before which there is no moment.
    pub fn first() -> Moment
        ensures { result ≡ 946_684_800 }
    {
        Moment { secs: FIRST as u64 }
    }

    /// 2199-12-31T23:59:59Z, after which there is no moment.
    pub fn last() -> Moment
        ensures { result ≡ 7_258_118_399 }
    {
        Moment { secs: LAST as u64 }
    }

    /// The moment that many seconds after 1970-01-01T00:00:00Z.
    pub fn of_secs(secs: i64) -> Result<Moment, Range>
        ensures { result ≡ checked_signed secs }
    {
        if secs < FIRST || secs > LAST {
            return Err(Range);
        }
        Ok(Moment { secs: secs as u64 })
    }

    /// The seconds since 1970-01-01T00:00:00Z.
    pub fn secs(&self) -> i64
        ensures value { result ≡ pos self.now }
        ensures range { IsMoment self.now }
    {
        self.secs as i64
    }

    /// That many days of 86,400 seconds later.
    pub fn plus_days(&self, days: u32) -> Result<Moment, Range>
        ensures { result ≡ checked (plus_days self.now days) }
    {
        Moment::of_secs((self.secs + DAY * u64::from(days)) as i64)
    }

    /// The same month, day and time of day that many years later; 29 February becomes 28 February
    /// in a year without one.
    pub fn plus_years(&self, years: u32) -> Result<Moment, Range>
        ensures { result ≡ checked (plus_years self.now years) }
    {
        if years > AGES {
            return Err(Range);
        }
        let shown = self.civil();
        let date = shown.date().checked_add(i64::from(years).years())?;
        Moment::of_civil(date.to_datetime(shown.time()))
    }

    /// The moment that [`plus_years`](Moment::plus_years) gives, or the last moment where that is
    /// later.
    pub fn plus_years_capped(&self, years: u32) -> Moment
        ensures { result ≡ capped (plus_years self.now years) }
    {
        // Shows the prover the field, and so that it is within the range.
        let from = self.secs;
        match self.plus_years(years) {
            Ok(sum) => sum,
            Err(Range) => Moment { secs: LAST as u64 },
        }
    }

    /// The later of two moments.
    pub fn later(self, other: Moment) -> Moment
        ensures { result ≡ max self other }
    {
        Moment {
            secs: self.secs.max(other.secs),
        }
    }

    pub fn is_after(self, other: Moment) -> bool
        ensures { result ≡ nat_lt other self }
    {
        self.secs > other.secs
    }

    /// Whether the moment so many years later comes after the one so many years after the other. Such
    /// sums may lie past the last moment.
    pub fn is_later_by(&self, years: u64, other: &Moment, other_years: u64) -> bool
        ensures { result ≡ nat_lt (plus_years other.now other_years) (plus_years self.now years) }
    {
        self.rank_after(years) > other.rank_after(other_years)
    }

    /// The place of the moment so many years later in the order of time.
    #[tactic(auto, unfolding(crate::specs::Ranks::rank))]
    fn rank_after(&self, years: u64) -> u128
        ensures { result ≡ rank (years_later (date_of (self.now / 86_400)) years)
            (self.now % 86_400) }
    {
        let year = u128::from(self.year()) + u128::from(years);
        let month = self.month();
        let day = self.day().min(month_length(year, month));
        let days = (year * 12 + u128::from(month)) * 31 + u128::from(day);
        days * 86_400 + u128::from(self.secs % DAY)
    }

    /// Whether the text is its date, `YYYY-MM-DD`.
    pub fn is_on(&self, date: &str) -> bool
        ensures { result ≡ bytes_eq date.now (date_text (date_of (self.now / 86_400))) }
    {
        // Shows the prover the field, and so that it is within the range.
        let moment = self.secs;
        match date_fields(date.as_bytes()) {
            None => false,
            Some((year, month, day)) => self.has_date(year, month, day),
        }
    }

    fn has_date(&self, year: u16, month: u8, day: u8) -> bool
        ensures { result ≡ is_date (date_of (self.now / 86_400)) year month day }
    {
        self.year() == year && self.month() == month && self.day() == day
    }

    /// The year of its date.
    fn year(self) -> u16
        ensures { result ≡ (date_of (self / 86_400)).year }
    {
        self.civil().year().unsigned_abs()
    }

    fn month(self) -> u8
        ensures { result ≡ (date_of (self / 86_400)).month }
    {
        self.civil().month().unsigned_abs()
    }

    fn day(self) -> u8
        ensures { result ≡ (date_of (self / 86_400)).day }
    {
        self.civil().day().unsigned_abs()
    }

    /// The text `YYYY-MM-DDTHH:MM:SSZ`.
    pub fn text(&self, alloc: Global) -> Result<String, AllocError>
        ensures text { IfOk result (λ text. string_bytes text ≡ moment_text self.now) }
        ensures range { IsMoment self.now }
    {
        let shown = self.civil();
        let (year, month, day) = (shown.year(), shown.month(), shown.day());
        let (hour, minute, second) = (shown.hour(), shown.minute(), shown.second());
        format!(in alloc; "{year:04}-{month:02}-{day:02}T{hour:02}:{minute:02}:{second:02}Z")
    }

    /// The date alone, `YYYY-MM-DD`.
    pub fn date_text(&self, alloc: Global) -> Result<String, AllocError>
        ensures { IfOk result (λ text. string_bytes text
            ≡ date_text (date_of (self.now / 86_400))) }
    {
        let shown = self.civil();
        let (year, month, day) = (shown.year(), shown.month(), shown.day());
        format!(in alloc; "{year:04}-{month:02}-{day:02}")
    }

    /// The moment whose text it is, in the one form that [`text`](Moment::text) writes.
    pub fn read(text: &str) -> Option<Moment>
        ensures value { result ≡ moment_named text.now }
        ensures found { IfSome result (λ m. text.now ≡ moment_text m) }
        ensures only { (m : ℕ) → IsMoment m → text.now ≡ moment_text m → result ≡ Some m }
    {
        match Moment::read_parts(text) {
            Some(moment) => {
                // Shows the prover that it is within the range.
                let _secs = moment.secs();
                Some(moment)
            }
            None => None,
        }
    }

    /// The same, by the numbers in the text.
    fn read_parts(text: &str) -> Option<Moment>
        ensures found { IfSome result (λ m. text.now ≡ moment_text m) }
        ensures only { (m : ℕ) → IsMoment m → text.now ≡ moment_text m → result ≡ Some m }
    {
        let parts = parts_in(text.as_bytes())?;
        Moment::of_parts(parts)
    }

    /// The moment at which a clock in UTC shows that.
    fn of_parts(parts: Parts) -> Option<Moment>
        requires { AreShort parts }
        ensures found { IfSome result (λ m. parts_of m ≡ parts) }
        ensures only { (m : ℕ) → IsMoment m → parts_of m ≡ parts → result ≡ Some m }
    {
        let shown = DateTime::new(
            parts.year as i16,
            parts.month as i8,
            parts.day as i8,
            parts.hour as i8,
            parts.minute as i8,
            parts.second as i8,
            0,
        );
        Moment::of_civil(shown.ok()?).ok()
    }

    /// What a clock in UTC shows.
    fn civil(self) -> DateTime
        ensures moment { IsMoment self }
        ensures shown { Shows self result }
    {
        let instant = Timestamp::from_second(self.secs as i64).unwrap();
        Offset::UTC.to_datetime(instant)
    }

    /// The moment at which a clock in UTC shows that.
    fn of_civil(shown: DateTime) -> Result<Moment, Range>
        ensures { result ≡ checked_signed (civil_seconds shown) }
    {
        let instant = Offset::UTC.to_timestamp(shown)?;
        Moment::of_secs(instant.as_second())
    }
}
