//! Lengths of periods over time.
ghost use Rattle.std.specs.{Prelude.{◌≡◌, drop, true}, List.list_all};
ghost use Rattle.policy.specs.Rules.{in_force};
ghost use Rattle.policy.specs.Terms as spec;

use crate::Days;
use basis::list::Seq;
use calendar::Moment;

/// Lengths of periods that are in force from a moment on.
#[derive(Clone, Copy, Debug, PartialEq, Eq)]
pub struct DatedDays {
    pub from: Moment,
    pub days: Days,
}

/// The lengths of periods over time. A period keeps the length that is in force when it begins.
#[derive(Clone, Drop)]
pub struct Schedule {
    /// Those in force before the first table begins.
    pub first: Days,
    /// Tables that take their place, in the order in which they begin.
    pub later: Seq<DatedDays>,
}

/// Whether the tables after so many begin later than the clock.
fn begin_later(tables: &[DatedDays], known: usize, clock: Moment) -> bool
    ensures { result ≡ list_all (spec.begins_after clock) (drop known tables.now) }
{
    tables.iter().skip(known).all(|table| table.from > clock)
}

impl Schedule {
    /// The lengths in force at a moment: those of the last table that begins by then, or the first
    /// ones.
    pub fn in_force(&self, moment: Moment) -> Days
        ensures { result ≡ in_force moment self.now }
    {
        let mut days = self.first;
        for table in self.later.as_slice() {
            if table.from <= moment {
                days = table.days;
            }
        }
        days
    }

    /// Whether nothing is new but tables after the earlier ones, each of which begins later than the
    /// clock. Then each period that begins by the clock has the same length.
    #[tactic(auto, unfolding(crate::specs::Terms::days_continue))]
    pub fn continues(&self, earlier: &Schedule, clock: Moment) -> bool
        ensures { result ≡ spec.days_continue clock self.now earlier.now }
    {
        let known = earlier.later.as_slice();
        self.first == earlier.first
            && self.later.as_slice().starts_with(known)
            && begin_later(self.later.as_slice(), known.len(), clock)
    }

    /// Whether both have the same lengths and the same tables.
    pub fn is_same(&self, other: &Schedule) -> bool
        ensures same { result ≡ true → self.now ≡ other.now }
        ensures itself { self.now ≡ other.now → result ≡ true }
    {
        let (these, others) = (self.later.as_slice(), other.later.as_slice());
        these.len() == others.len() && self.continues(other, Moment::first())
    }
}
