//! The rooms of a program's ports.
ghost use Rattle.std.specs.Prelude.{◌≡◌};
ghost use Rattle.wires.specs.inner.Rooms as spec;

use crate::room::{Gives, Next, Room, Waits};
use crate::turn::Port;
use std::cell::Cell;
use std::time::Duration;

/// The room of one port, or those of two. Where connections of both wait, they have their turns one by one, so
/// neither port keeps the other waiting.
#[derive(Drop)]
pub struct Rooms<R> {
    public: R,
    office: Option<R>,
    /// Whose turn was the last one.
    last: Cell<Port>,
}

impl<R: Waits> Rooms<R> {
    /// Whether somebody's turn could come.
    fn is_ready(&self) -> bool
        ensures { spec.TellsOf R.Tells self.now.public self.now.office result }
    {
        match &self.office {
            Some(office) => self.public.is_ready() || office.is_ready(),
            None => self.public.is_ready(),
        }
    }
}

impl<'l> Rooms<Room<'l>> {
    pub fn of_one(public: Room<'l>) -> Rooms<Room<'l>> {
        Rooms {
            public,
            office: None,
            last: Cell::new(Port::Office),
        }
    }

    pub fn of_two(public: Room<'l>, office: Room<'l>) -> Rooms<Room<'l>> {
        Rooms {
            public,
            office: Some(office),
            last: Cell::new(Port::Office),
        }
    }

    /// Lets in who came, and says what is to be done next.
    pub(crate) fn next(&self, now: Duration) -> Next {
        let Some(office) = &self.office else {
            return self.public.next(now);
        };
        let next = next_after(self.last.get(), &self.public, office, now);
        if let Next::Turn(turn) = &next {
            self.last.set(turn.port);
        }
        next
    }

    /// Lets in who came, and says whether somebody's turn could come.
    pub(crate) fn is_awaited(&self, now: Duration) -> bool {
        self.public.let_in(now);
        if let Some(office) = &self.office {
            office.let_in(now);
        }
        self.is_ready()
    }

    /// How many wait.
    pub(crate) fn count(&self) -> usize {
        match &self.office {
            Some(office) => self.public.count().saturating_add(office.count()),
            None => self.public.count(),
        }
    }
}

/// What is to be done next where there are two ports, of which one had the last turn.
fn next_after<R: Gives>(last: Port, public: &R, office: &R, now: Duration) -> Next
    ensures { spec.NextAfter R.Says last public.now office.now result }
{
    match last {
        Port::Public => next_of_two(office, public, now),
        Port::Office => next_of_two(public, office, now),
    }
}

/// What is to be done next, where the first of two rooms comes first.
fn next_of_two<R: Gives>(first: &R, second: &R, now: Duration) -> Next
    ensures { spec.NextOfTwo R.Says first.now second.now result }
{
    let next = first.next(now);
    next_behind(next, second, now)
}

/// The same where the first one says this.
fn next_behind<R: Gives>(next: Next, second: &R, now: Duration) -> Next
    ensures { spec.ComesNext R.Says second.now next result }
{
    match next {
        Next::Nobody => second.next(now),
        Next::Want => {
            let other = second.next(now);
            want_or(other)
        }
        next => next,
    }
}

/// The same where something is wanting for the first one, and the second says this.
fn want_or(next: Next) -> Next
    ensures { result ≡ spec.want_or next }
{
    match next {
        Next::Nobody => Next::Want,
        next => next,
    }
}
