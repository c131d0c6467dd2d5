//! The machine's clock.
ghost use Rattle.std.specs.Prelude.{◌≡◌};
ghost use Rattle.server.specs.Clocks as spec;

use calendar::{Moment, Range};
use frames::Clock;
use std::time::{self, Duration, SystemTime, UNIX_EPOCH};

/// The last moment, 2199-12-31T23:59:59Z, in seconds since 1970-01-01T00:00:00Z.
const LAST: u64 = 7_258_118_399;

/// The machine's clock. A time outside the moments counts as the nearest one, and where no time can
/// be read it is the first one.
#[derive(Drop)]
pub struct MachineClock<'a, T: time::Clock> {
    machine: &'a T,
}

impl<T: time::Clock> MachineClock<'_, T> {
    pub fn new(machine: &T) -> MachineClock<'_, T> {
        MachineClock { machine }
    }

    /// The time since 1970-01-01T00:00:00Z.
    fn time(&self) -> Option<Duration> {
        let time = SystemTime::now(self.machine).ok()?;
        time.duration_since(UNIX_EPOCH).ok()
    }
}

impl<T: time::Clock> Clock for MachineClock<'_, T> {
    ghost use Rattle.std.specs.Prelude.{None};

    ghost moments = { λ _. None };

    fn moment(&mut self) -> Moment {
        moment_at(self.time().map(|time| time.as_secs()))
    }
}

/// The moment of a time, in whole seconds since 1970-01-01T00:00:00Z, if one was read.
fn moment_at(secs: Option<u64>) -> Moment
    ensures { result ≡ spec.moment_of_time secs }
{
    match secs {
        Some(secs) => nearest_moment(secs),
        None => Moment::first(),
    }
}

/// The moment that many seconds after 1970-01-01T00:00:00Z, or the one nearest to it.
pub fn nearest_moment(secs: u64) -> Moment
    ensures { result ≡ spec.nearest_moment secs }
{
    match Moment::of_secs(secs.min(LAST) as i64) {
        Ok(moment) => moment,
        Err(Range) => Moment::first(),
    }
}
