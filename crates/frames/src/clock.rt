//! The clock of a session.
ghost use Rattle.std.specs.Prelude.{◌≡◌, List, ℕ, Option};
ghost use Rattle.frames.specs.Clocks.{Tells};

use calendar::Moment;
use std::collections::VecDeque;
use std::marker::Model;

/// A clock, which tells the moment.
pub trait Clock {
    /// The moments that it will tell, one after the other, where they are known.
    ghost moments: { Self → Option (List ℕ) };

    fn moment(&mut self) -> Moment
        ensures { Tells (moments self.old) (moments self.new) result };
}

/// A clock that tells the moments of a list, and then the first moment of all. Contracts see the
/// list of those that it has yet to tell.
#[derive(Drop)]
pub struct ListClock {
    moments: VecDeque<Moment>,
}

impl Model for ListClock {
    ghost use Rattle.std.specs.Prelude.{List, ℕ};
    ghost use Rattle.std.specs.Coded.{coded_list, coded_ℕ};

    ghost Value = { List ℕ };

    ghost coded = { coded_list coded_ℕ };

    ghost view = { λ c. c.moments.items };
}

impl ListClock {
    pub fn of_list(moments: VecDeque<Moment>) -> Self
        ensures { result ≡ moments.items }
    {
        ListClock { moments }
    }
}

impl Clock for ListClock {
    ghost use Rattle.std.specs.Prelude.{Some};

    ghost moments = { λ moments. Some moments };

    fn moment(&mut self) -> Moment {
        match self.moments.pop_front() {
            Some(moment) => moment,
            None => Moment::first(),
        }
    }
}
