//! Orders that come over the operator's port.
ghost use Rattle.std.specs.Prelude.{◌≡◌};
ghost use Rattle.operator.specs.Operations.{Orders};
ghost use Rattle.operator.specs.Operations as spec;
ghost use Rattle.books.specs.Book.{Follows};

use crate::answer::Outcome;
use books::Book;
use calendar::Moment;
use protocol::Code;
use registry::Registry;
use script::{Exit, order_on};
use std::alloc::Global;

/// What becomes of an order, and the text of its answer.
#[derive(Drop)]
pub(crate) struct Ordered {
    pub outcome: Outcome,
    pub text: Vec<u8>,
}

/// Carries out the order that a body is, at a moment.
pub(crate) fn order_at<B: Book + Drop>(
    alloc: Global,
    registry: &mut Registry<B>,
    moment: Moment,
    body: &[u8],
) -> Ordered
    ensures orders { Orders registry.old.policy body.now moment result.outcome result.text.items
        (B.state registry.old.book) (B.state registry.new.book) }
    ensures follows { Follows (B.state registry.old.book) (B.state registry.new.book) }
    ensures policy { registry.new.policy ≡ registry.old.policy }
{
    let mut text = Vec::new(alloc);
    match order_on(alloc, registry, moment, body, &mut text) {
        Ok(code) => Ordered {
            outcome: outcome_of_code(code),
            text,
        },
        Err(exit) => Ordered {
            outcome: outcome_of_exit(exit),
            text,
        },
    }
}

fn outcome_of_exit(exit: Exit) -> Outcome
    ensures { result ≡ spec.outcome_of_exit exit }
{
    match exit {
        Exit::Script(_) => Outcome::Malformed,
        _ => Outcome::Failed,
    }
}

fn outcome_of_code(code: Code) -> Outcome
    ensures { result ≡ spec.outcome_of_code code }
{
    match code {
        Code::Completed => Outcome::Done,
        _ => Outcome::Conflict,
    }
}
