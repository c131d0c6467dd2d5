//! Moments as columns.
ghost use Rattle.std.specs.Prelude.{◌≡◌, ℕ, Option, IfSome};
ghost use Rattle.calendar.specs.Moment.{IsMoment};
ghost use Rattle.sqlcolumns.specs.Numbers as spec;

use calendar::Moment;

/// Tells a proof that a moment is within the range.
pub(crate) fn show_moment(moment: Moment)
    ensures { IsMoment moment }
{
    let _secs = moment.secs();
}

/// The same where there may be none.
pub(crate) fn show_maybe_moment(moment: Option<Moment>)
    ensures { IfSome moment IsMoment }
{
    if let Some(moment) = moment {
        show_moment(moment);
    }
}

/// The seconds since 1970-01-01T00:00:00Z.
pub fn moment_column(moment: Moment) -> i64
    ensures { result ≡ spec.moment_column moment }
{
    moment.secs()
}

/// The moment of a column, if it's one.
pub fn moment_of_column(column: i64) -> Option<Moment>
    ensures value { result ≡ spec.moment_in_column column }
    ensures found { IfSome result (λ m. column ≡ spec.moment_column m) }
    ensures only { (m : ℕ) → IsMoment m → column ≡ spec.moment_column m → result ≡ Some m }
{
    Moment::of_secs(column).ok()
}

/// A moment, or NULL where there is none.
pub fn maybe_moment_column(moment: Option<Moment>) -> Option<i64>
    ensures { result ≡ spec.maybe_moment_column moment }
{
    moment.map(moment_column)
}

/// The moment of a column that may be NULL; none where it's neither.
pub fn maybe_moment_of_column(column: Option<i64>) -> Option<Option<Moment>>
    ensures value { result ≡ spec.maybe_moment_in column }
    ensures found { IfSome result (λ m. column ≡ spec.maybe_moment_column m) }
    ensures only { (m : Option ℕ) → IfSome m IsMoment → column ≡ spec.maybe_moment_column m
        → result ≡ Some m }
{
    let Some(column) = column else {
        return Some(None);
    };
    let moment = moment_of_column(column)?;
    Some(Some(moment))
}
