//! How hello is answered (RFC 5730, 2.4).
ghost use Rattle.registry.specs.Execution.{IsGreetingStep};

use crate::passing::{Scope, pass};
use crate::work::Work;
use books::{Book, BookFault};
use calendar::Moment;
use policy::Policy;
use std::alloc::Global;

/// Hello at a moment. Nothing lapses.
#[derive(Drop)]
pub(crate) struct GreetingWork {
    pub moment: Moment,
}

impl Work for GreetingWork {
    type Answer = Moment;

    ghost step = { λ it p. IsGreetingStep p it.moment };

    #[tactic(auto, using(crate::proofs::PassingSteps::greets))]
    fn work<B: Book>(
        &self,
        book: &mut B,
        alloc: Global,
        policy: &Policy,
    ) -> Result<Moment, BookFault> {
        pass(book, alloc, &Scope::Nothing, self.moment, policy)
    }
}
