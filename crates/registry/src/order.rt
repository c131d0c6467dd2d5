//! How an order of the operator is carried out.
ghost use Rattle.std.specs.Prelude.{◌≡◌, true, option_and_then};
ghost use Rattle.registry.specs.{Execution.IsOrderStep, inner.Passing.status_at};
ghost use Rattle.registry.specs.inner.Steps.{IsOrderCarriedOut, Works};
ghost use Rattle.protocol.specs.declared.order.Order.TheVariants as orders;
ghost use Rattle.decisions.specs.Orders.{deposit_decision};
ghost use Rattle.books.specs.Book.{BookFinds};
ghost use Rattle.model.specs.Objects.{object_at};

use crate::passing::{Scope, pass};
use crate::transaction::or_rollback;
use crate::work::Work;
use basis::text::Text;
use books::{Book, BookFault};
use calendar::Moment;
use decisions::{OrderDecision, decide_deposit, decide_order};
use model::Object;
use objects::ObjectKind;
use policy::Policy;
use protocol::{Code, Order, StatusOrder};
use std::alloc::Global;

/// An order of the operator at a moment.
#[derive(Drop)]
pub(crate) struct OrderWork<'o> {
    pub order: &'o Order,
    pub moment: Moment,
}

impl Work for OrderWork<'_> {
    type Answer = Code;

    ghost step = { λ it p. IsOrderStep p it.order.now it.moment };

    fn work<B: Book>(
        &self,
        book: &mut B,
        alloc: Global,
        policy: &Policy,
    ) -> Result<Code, BookFault> {
        match self.order {
            Order::Status(order) => set_statuses_at(book, alloc, order, self.moment, policy),
            // nothing lapses before
            Order::Deposit { registrar, cents } => {
                let now = pass(book, alloc, &Scope::Nothing, self.moment, policy)?;
                deposit(book, alloc, registrar, *cents, now, policy)
            }
        }
    }
}

/// Sets and takes away statuses at a moment. What an info of the object concerns lapses before.
fn set_statuses_at<B: Book>(
    book: &mut B,
    alloc: Global,
    order: &StatusOrder,
    moment: Moment,
    policy: &Policy,
) -> Result<Code, BookFault>
    requires { (B.state book.old).is_open ≡ true }
    ensures { Works result (IsOrderStep policy.now (orders.Status order.now) moment)
        (B.state book.old) (B.state book.new) }
{
    let name = or_rollback(book, order.object_name(alloc, policy.zone()))?;
    let scope = Scope::Named(order.kind, &name);
    pass(book, alloc, &scope, moment, policy)?;
    set_statuses(book, alloc, order, &name, policy)
}

/// Sets and takes away statuses of the object of this name in an open transaction.
fn set_statuses<B: Book>(
    book: &mut B,
    alloc: Global,
    order: &StatusOrder,
    name: &Option<Text>,
    policy: &Policy,
) -> Result<Code, BookFault>
    requires { (B.state book.old).is_open ≡ true }
    ensures { Works result (λ before after code. IsOrderCarriedOut policy.now
        (status_at order.now name.now before) before after code) (B.state book.old)
        (B.state book.new) }
{
    let object = object_named(book, order.kind, name)?;
    let OrderDecision { code, changes } = or_rollback(book, decide_order(alloc, order, object))?;
    book.apply(changes, policy)?;
    Ok(code)
}

/// Enters what a registrar paid, in an open transaction.
fn deposit<B: Book>(
    book: &mut B,
    alloc: Global,
    registrar: &Text,
    cents: i64,
    now: Moment,
    policy: &Policy,
) -> Result<Code, BookFault>
    requires { (B.state book.old).is_open ≡ true }
    ensures { Works result (IsOrderCarriedOut policy.now
        (deposit_decision policy.now now registrar.now cents)) (B.state book.old)
        (B.state book.new) }
{
    let decided = decide_deposit(alloc, registrar, cents, now, policy);
    let OrderDecision { code, changes } = or_rollback(book, decided)?;
    book.apply(changes, policy)?;
    Ok(code)
}

/// The object of a kind under a name, if there is a name, in an open transaction.
fn object_named<B: Book>(
    book: &mut B,
    kind: ObjectKind,
    name: &Option<Text>,
) -> Result<Option<Object>, BookFault>
    ensures { BookFinds result
        (option_and_then (object_at (B.state book.old).content.registry kind) name.now)
        (B.state book.old) (B.state book.new) }
{
    match name {
        None => Ok(None),
        Some(name) => book.object_at(kind, name),
    }
}
