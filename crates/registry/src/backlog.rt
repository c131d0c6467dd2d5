//! How much of what is due still waits: a look-up in which no time passes.
ghost use Rattle.registry.specs.Execution.{IsBacklog};

use crate::work::Work;
use books::{Book, BookFault};
use calendar::Moment;
use policy::Policy;
use std::alloc::Global;

/// What waits in a registry: its clock, and how many objects are due that haven't lapsed yet.
#[derive(Clone, Copy, Debug, PartialEq, Eq, Drop)]
pub struct Backlog {
    pub clock: Moment,
    pub due: usize,
}

/// A look at what waits at a moment.
#[derive(Drop)]
pub(crate) struct BacklogWork {
    pub moment: Moment,
}

impl Work for BacklogWork {
    type Answer = Backlog;

    ghost step = { λ it p. IsBacklog p it.moment };

    fn work<B: Book>(
        &self,
        book: &mut B,
        _: Global,
        policy: &Policy,
    ) -> Result<Backlog, BookFault> {
        let clock = book.clock()?;
        let due = book.due(self.moment.later(clock), None, policy)?;
        Ok(Backlog {
            clock,
            due: due.as_slice().len(),
        })
    }
}
