//! What the operator sends.
ghost use Rattle.std.specs.Prelude.{◌≡◌, ◌≤◌, ◌++◌, codes, IfErr, IfOk, OnErr, OnOk};
ghost use Rattle.std.specs.Io.KnownBytes.{Appends};
ghost use Rattle.eppreplies.specs.Answer.{answer_text};
ghost use Rattle.protocol.specs.declared.order.OperatorRequest.TheVariants as requests;
ghost use Rattle.protocol.specs.declared.order.Order.TheVariants as orders;
ghost use Rattle.registry.specs.Execution.{Fails, last_call};
ghost use Rattle.script.specs.Deposits.{EndsUnprinted, IsAnsweredBy, IsOfMachine};
ghost use Rattle.script.specs.Orders.{EndsUnanswered, IsOrdered, PrintsAnswer};
ghost use Rattle.streams.specs.Moves.{AppendsBeginning};
ghost use Rattle.books.specs.Book.{Follows};

use crate::exit::Exit;
use basis::text::Text;
use books::Book;
use calendar::Moment;
use eppcommands::order_of;
use eppreplies::order_bytes;
use protocol::{Code, OperatorRequest, Order};
use registry::{Fault, Registry};
use std::alloc::Global;
use std::io::Write;
use streams::write_all;

/// What the operator is answered: a code, and of a settlement how many objects lapsed.
#[derive(Clone, Copy)]
pub(crate) struct OrderAnswer {
    pub code: Code,
    pub lapsed: Option<u32>,
}

/// Carries out what the operator sends at a moment, an order or a settlement, in a registry that is open,
/// and prints the answer as a script does. A moment before the clock counts as the clock. It gives the
/// code of the answer. A payload of another form is `Exit::Script` of line 1, as in a script of this line
/// alone, whatever the moment. Then, and where the registry gives up, nothing is printed or changed.
pub fn order_on<B: Book + Drop, W: Write>(
    alloc: Global,
    registry: &mut Registry<B>,
    moment: Moment,
    payload: &[u8],
    writer: &mut W,
) -> Result<Code, Exit>
    ensures is_printed { IfOk result (λ code. IsOrdered payload.now (λ request.
        PrintsAnswer registry.old.policy request moment code
        (B.state registry.old.book) (B.state registry.new.book)
        (W.contents writer.old) (W.contents writer.new))) }
    ensures early { OnOk result (moment ≤ last_call) }
    ensures stopped { IfErr result (EndsUnanswered registry.old.policy payload.now moment
        (B.state registry.old.book) (B.state registry.new.book)
        (W.contents writer.old) (W.contents writer.new)) }
    ensures follows { Follows (B.state registry.old.book) (B.state registry.new.book) }
    ensures policy { registry.new.policy ≡ registry.old.policy }
{
    match order_of(alloc, payload)? {
        Some(request) => answer_on(alloc, registry, request, moment, writer),
        None => Err(Exit::Script(1)),
    }
}

/// Enters what a registrar has paid at a moment, in a registry that is open, and prints the answer as a
/// script prints it; a moment before the clock counts as the clock. It gives the code of the answer:
/// `ParameterRange` where the cents aren't 1 to 10^12, `ObjectMissing` where the policy has no such
/// registrar, and else `Completed`. Where the registry gives up, nothing is printed or entered.
pub fn deposit_on<B: Book + Drop, W: Write>(
    alloc: Global,
    registry: &mut Registry<B>,
    moment: Moment,
    registrar: &str,
    cents: i64,
    writer: &mut W,
) -> Result<Code, Exit>
    ensures is_printed { IfOk result (λ code. PrintsAnswer registry.old.policy
        (requests.Order (orders.Deposit registrar.now cents)) moment code
        (B.state registry.old.book) (B.state registry.new.book)
        (W.contents writer.old) (W.contents writer.new)) }
    ensures early { OnOk result (moment ≤ last_call) }
    ensures stopped { IfErr result (EndsUnprinted registry.old.policy
        (requests.Order (orders.Deposit registrar.now cents)) moment
        (B.state registry.old.book) (B.state registry.new.book)
        (W.contents writer.old) (W.contents writer.new)) }
    ensures follows { Follows (B.state registry.old.book) (B.state registry.new.book) }
    ensures policy { registry.new.policy ≡ registry.old.policy }
{
    let registrar = Text::from_str(alloc, registrar)?;
    let order = Order::Deposit { registrar, cents };
    answer_on(
        alloc,
        registry,
        OperatorRequest::Order(order),
        moment,
        writer,
    )
}

/// Carries out what the operator sends, and prints the answer.
fn answer_on<B: Book + Drop, W: Write>(
    alloc: Global,
    registry: &mut Registry<B>,
    request: OperatorRequest,
    moment: Moment,
    writer: &mut W,
) -> Result<Code, Exit>
    ensures is_printed { IfOk result (λ code. PrintsAnswer registry.old.policy request moment code
        (B.state registry.old.book) (B.state registry.new.book)
        (W.contents writer.old) (W.contents writer.new)) }
    ensures early { OnOk result (moment ≤ last_call) }
    ensures stopped { IfErr result (EndsUnprinted registry.old.policy request moment
        (B.state registry.old.book) (B.state registry.new.book)
        (W.contents writer.old) (W.contents writer.new)) }
    ensures follows { Follows (B.state registry.old.book) (B.state registry.new.book) }
    ensures policy { registry.new.policy ≡ registry.old.policy }
{
    match carry_out(registry, request, moment) {
        Ok(answer) => {
            print_answer(alloc, answer, writer)?;
            Ok(answer.code)
        }
        Err(fault) => Err(Exit::Registry(fault)),
    }
}

/// Carries out what the operator sends: an order, or a settlement.
pub(crate) fn carry_out<B: Book + Drop>(
    registry: &mut Registry<B>,
    request: OperatorRequest,
    moment: Moment,
) -> Result<OrderAnswer, Fault>
    ensures answered { IfOk result (λ answer. IsAnsweredBy registry.old.policy request moment
        answer.code answer.lapsed (B.state registry.old.book) (B.state registry.new.book)) }
    ensures early { OnOk result (moment ≤ last_call) }
    ensures fault { IfErr result (λ fault. Fails fault (B.state registry.old.book)
        (B.state registry.new.book)) }
    ensures follows { Follows (B.state registry.old.book) (B.state registry.new.book) }
    ensures policy { registry.new.policy ≡ registry.old.policy }
{
    match request {
        OperatorRequest::Order(order) => {
            let code = registry.operator(&order, moment);
            drop(order);
            Ok(OrderAnswer {
                code: code?,
                lapsed: None,
            })
        }
        OperatorRequest::Settle { at_most } => {
            let lapsed = registry.settle(moment, at_most)?;
            Ok(OrderAnswer {
                code: Code::Completed,
                lapsed: Some(lapsed),
            })
        }
    }
}

/// Prints the answer to an order or to a settlement.
fn print_answer<W: Write>(alloc: Global, answer: OrderAnswer, writer: &mut W) -> Result<(), Exit>
    ensures is_printed { OnOk result (Appends (W.contents writer.old) (W.contents writer.new)
        (answer_text answer.code answer.lapsed ++ codes "\n")) }
    ensures stopped { IfErr result IsOfMachine }
    ensures begun { OnErr result (AppendsBeginning (W.contents writer.old) (W.contents writer.new)
        (answer_text answer.code answer.lapsed ++ codes "\n")) }
{
    let mut line = order_bytes(alloc, answer.code, answer.lapsed)?;
    line.push(b'\n')?;
    write_all(writer, &line)?;
    writer.flush()?;
    Ok(())
}
