//! What an order of the operator is answered, and what it changes.
ghost use Rattle.std.specs.Prelude.{◌≡◌, [], IfOk};
ghost use Rattle.decisions.specs.Orders as spec;
ghost use Rattle.rules.specs.Orders.{order_code};

use crate::change::{Change, only};
use accounts::{Line, LineKind};
use basis::list::Seq;
use basis::text::Text;
use calendar::Moment;
use lifecycle::AccountChange;
use model::Object;
use objects::{Status, amended_statuses};
use policy::Policy;
use protocol::{Code, StatusOrder};
use rules::judge_order;
use std::alloc::{AllocError, Global};

/// What an order is answered, and the changes that it makes.
#[derive(Drop)]
pub struct OrderDecision {
    pub code: Code,
    pub changes: Seq<Change>,
}

/// Decides on an order, by the object that it names.
pub fn decide_order(
    alloc: Global,
    order: &StatusOrder,
    object: Option<Object>,
) -> Result<OrderDecision, AllocError>
    ensures { IfOk result (λ decision. decision ≡ spec.decided_order order.now object
        (order_code order.now object)) }
{
    let code = judge_order(order, object.as_ref());
    Ok(OrderDecision {
        code,
        changes: Seq::from_vec(changes_after(alloc, order, object, code)?),
    })
}

fn changes_after(
    alloc: Global,
    order: &StatusOrder,
    object: Option<Object>,
    answered: Code,
) -> Result<Vec<Change>, AllocError>
    ensures { IfOk result (λ changes. changes.items
        ≡ (spec.decided_order order.now object answered).changes) }
{
    if !answered.is_accepted() {
        drop(object);
        return Ok(Vec::new(alloc));
    }
    match object {
        None => Ok(Vec::new(alloc)),
        Some(object) => only(alloc, put_ordered(alloc, order, object)?),
    }
}

/// The object with the statuses that an order leaves.
fn put_ordered(alloc: Global, order: &StatusOrder, object: Object) -> Result<Change, AllocError>
    ensures { IfOk result (λ change. change ≡ spec.put_ordered order.now object) }
{
    let (rem, add) = (order.rem.as_slice(), order.add.as_slice());
    match amended_statuses(alloc, object.statuses(), rem, add) {
        Ok(statuses) => Ok(put_with(statuses, object)),
        Err(error) => {
            drop(object);
            Err(error)
        }
    }
}

/// The object with these statuses.
fn put_with(statuses: Seq<Status>, object: Object) -> Change
    ensures { result ≡ spec.put_with statuses object }
{
    match object {
        Object::Contact(mut contact) => {
            contact.statuses = statuses;
            Change::PutContact(contact)
        }
        Object::Domain(mut domain) => {
            domain.statuses = statuses;
            Change::PutDomain(domain)
        }
        Object::Host(mut host) => {
            host.statuses = statuses;
            Change::PutHost(host)
        }
    }
}

// ---- deposits

/// The most cents that are deposited at once: 10^12.
pub const MOST_DEPOSITED: u64 = 1_000_000_000_000;

/// The cents that were sent, if so many can be deposited at once.
fn cents_of(cents: i64) -> Option<u64>
    ensures { result ≡ spec.cents_of cents }
{
    if 1 <= cents && cents <= MOST_DEPOSITED as i64 {
        Some(cents as u64)
    } else {
        None
    }
}

fn deposit_line(cents: u64, moment: Moment) -> Line
    ensures { result ≡ spec.deposit_line moment cents }
{
    Line {
        kind: LineKind::Deposit,
        roid: None,
        recorded: moment,
        years: 0,
        cents,
        started: None,
        refunded: None,
    }
}

/// Decides on a deposit at a moment. It is answered `ParameterRange` where the cents aren't 1 to
/// 10^12, and `ObjectMissing` where there is no such registrar.
pub fn decide_deposit(
    alloc: Global,
    registrar: &Text,
    cents: i64,
    moment: Moment,
    policy: &Policy,
) -> Result<OrderDecision, AllocError>
    ensures { IfOk result (λ decision. decision ≡ spec.deposit_decision policy.now moment
        registrar.now cents) }
{
    let Some(cents) = cents_of(cents) else {
        return Ok(refused(alloc, Code::ParameterRange));
    };
    let Some(registrar) = policy.find(registrar.as_str()) else {
        return Ok(refused(alloc, Code::ObjectMissing));
    };
    let line = deposit_line(cents, moment);
    let change = Change::Post(registrar, AccountChange::Charge(line));
    Ok(OrderDecision {
        code: Code::Completed,
        changes: Seq::from_vec(only(alloc, change)?),
    })
}

fn refused(alloc: Global, code: Code) -> OrderDecision
    ensures { result ≡ record { code = code; changes = [] } }
{
    OrderDecision {
        code,
        changes: Seq::new(alloc),
    }
}
