//! What a line is answered.
ghost use Rattle.std.specs.Prelude.{◌≡◌, true, IfNone, IfSome};
ghost use Rattle.frames.specs.Outcomes.{outcome_of};
ghost use Rattle.registry.specs.Execution.{IsUnchanged};
ghost use Rattle.script.specs.Lines.{IsKnown};
ghost use Rattle.script.specs.Runs.{Answers, Asks, AsksNothing, IsPayloadAnswered, kept};
ghost use Rattle.script.specs.inner.Runs.{IsAnsweredOperator, TextOf};
ghost use Rattle.books.specs.Book.{Follows};

use crate::line::Line;
use crate::order::carry_out;
use books::Book;
use calendar::Moment;
use eppcommands::order_of;
use eppreplies::order_bytes;
use eppwire::answer_registrar;
use frames::Answer;
use protocol::OperatorRequest;
use registry::Registry;
use std::alloc::Global;

/// What a line is answered, or `None` where it isn't of the form.
pub(crate) fn answer<B: Book + Drop>(
    alloc: Global,
    registry: &mut Registry<B>,
    line: &[u8],
) -> Option<Answer>
    ensures answered { IfSome result (λ answer. TextOf (λ text.
        (B.state registry.new.book).is_clean ≡ true → Answers registry.old.policy line.now
        (kept (B.state registry.old.book)) (kept (B.state registry.new.book)) text)
        (outcome_of answer)) }
    ensures unread { IfNone result (AsksNothing registry.old.policy line.now) }
    ensures same { IfNone result (IsUnchanged (B.state registry.old.book)
        (B.state registry.new.book)) }
    ensures follows { Follows (B.state registry.old.book) (B.state registry.new.book) }
    ensures policy { registry.new.policy ≡ registry.old.policy }
{
    match Line::read(registry.policy(), line) {
        Some(line) => answer_asked(alloc, registry, &line),
        None => None,
    }
}

/// What somebody is answered who asks by a line, or `None` where the operator sends no order.
fn answer_asked<B: Book + Drop>(
    alloc: Global,
    registry: &mut Registry<B>,
    line: &Line<'_>,
) -> Option<Answer>
    requires { IsKnown registry.old.policy line.now.sender }
    ensures answered { IfSome result (λ answer. TextOf (λ text.
        (B.state registry.new.book).is_clean ≡ true
        → IsPayloadAnswered registry.old.policy line.now.sender line.now.payload.now line.now.moment
        (kept (B.state registry.old.book)) (kept (B.state registry.new.book)) text)
        (outcome_of answer)) }
    ensures unread { IfNone result (Asks line.now.sender line.now.payload.now → ⊥) }
    ensures same { IfNone result (IsUnchanged (B.state registry.old.book)
        (B.state registry.new.book)) }
    ensures follows { Follows (B.state registry.old.book) (B.state registry.new.book) }
    ensures policy { registry.new.policy ≡ registry.old.policy }
{
    let (payload, moment) = (line.payload, line.moment);
    match line.sender.registrar() {
        Some(caller) => Some(answer_registrar(alloc, registry, caller, payload, moment)),
        None => match order_of(alloc, payload) {
            Ok(Some(request)) => Some(answer_operator(alloc, registry, request, moment)),
            Ok(None) => None,
            Err(_) => Some(Answer::Failed),
        },
    }
}

/// What the operator is answered.
fn answer_operator<B: Book + Drop>(
    alloc: Global,
    registry: &mut Registry<B>,
    request: OperatorRequest,
    moment: Moment,
) -> Answer
    ensures answered { TextOf (λ text. (B.state registry.new.book).is_clean ≡ true
        → IsAnsweredOperator registry.old.policy request moment (kept (B.state registry.old.book))
        (kept (B.state registry.new.book)) text) (outcome_of result) }
    ensures follows { Follows (B.state registry.old.book) (B.state registry.new.book) }
    ensures policy { registry.new.policy ≡ registry.old.policy }
{
    match carry_out(registry, request, moment) {
        Ok(answer) => match order_bytes(alloc, answer.code, answer.lapsed) {
            Ok(text) => Answer::Reply(text),
            Err(_) => Answer::Lost,
        },
        Err(_) => Answer::Failed,
    }
}
