//! Moments that are far from a registry's clock, as a slip makes them.
ghost use Rattle.std.specs.Prelude.{◌≡◌};
ghost use Rattle.books.specs.Book.{Follows};
ghost use Rattle.tldreg.specs.inner.Nearness as spec;

use books::Book;
use calendar::Moment;
use registry::{Fault, Registry};
use script::Exit;

/// The seconds of a day.
const DAY: u64 = 86_400;

/// Refuses a moment that is further from a registry's clock than so many days. Nothing is changed: a registry
/// that is asked at the first moment of all shows its clock.
pub fn require_near<B: Book + Drop>(
    registry: &mut Registry<B>,
    moment: Moment,
    days: u32,
) -> Result<(), Exit>
    ensures near { spec.IsNear registry.old.policy moment days (B.state registry.old.book)
        (B.state registry.new.book) result }
    ensures follows { Follows (B.state registry.old.book) (B.state registry.new.book) }
    ensures policy { registry.new.policy ≡ registry.old.policy }
{
    near_end(registry.greet(Moment::first()), moment, days)
}

/// The same by the clock that a registry shows.
fn near_end(shown: Result<Moment, Fault>, moment: Moment, days: u32) -> Result<(), Exit>
    ensures { result ≡ spec.near_end shown moment days }
{
    match shown {
        Ok(clock) if is_far(clock, moment, days) => Err(Exit::Registry(Fault::Moment)),
        Ok(_) => Ok(()),
        Err(fault) => Err(Exit::Registry(fault)),
    }
}

/// Whether a moment is further from a clock than so many days. From the clock of a new registry, which shows
/// the first moment, none is.
fn is_far(clock: Moment, moment: Moment, days: u32) -> bool
    ensures { result ≡ spec.is_far clock moment days }
{
    let (first, most) = (Moment::first().secs() as u64, u64::from(days) * DAY);
    let (clock, moment) = (clock.secs() as u64, moment.secs() as u64);
    clock != first && clock.abs_diff(moment) > most
}
