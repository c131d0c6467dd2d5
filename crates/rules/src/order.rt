//! What the operator's orders are answered.
ghost use Rattle.std.specs.{Prelude.◌≡◌, Option.option_copied};
ghost use Rattle.model.specs.Objects.{statuses_of};
ghost use Rattle.rules.specs.{Causes.cause_of_order, OrderLaws.AnswersOrderLawfully};
ghost use Rattle.rules.specs.Conditions.{any_set, any_unset};
ghost use Rattle.rules.specs.Orders as spec;
ghost use Rattle.rules.specs.inner.Cases as words;

use crate::conditions::{any_set, any_unset};
use crate::refusal::Cause;
use OrderCondition::{
    AddsWhatIsSet, ContradictsPendingState, HasAnothersStatus, HasUnknownStatus, IsMissing,
    ListRepeats, RemovesWhatIsUnset,
};
use facts::has_status_twice;
use model::Object;
use objects::{ObjectKind, Status as ObjectStatus, has_status};
use protocol::{Code, StatusOrder};

/// What an order can be refused on.
#[derive(Clone, Copy, Drop)]
pub enum OrderCondition {
    /// There is no object of the name.
    IsMissing,
    /// It prohibits what is done or pends already.
    ContradictsPendingState,
    /// It names what is no status.
    HasUnknownStatus,
    /// It names a status that isn't the operator's on this kind of object.
    HasAnothersStatus,
    /// A list names one status twice.
    ListRepeats,
    /// It adds a status that is set.
    AddsWhatIsSet,
    /// It removes a status that isn't set.
    RemovesWhatIsUnset,
}

impl OrderCondition {
    /// The cause that it is of a refusal (RFC 5730, 3).
    pub fn cause(self) -> Cause
        ensures { result ≡ cause_of_order self }
    {
        match self {
            IsMissing => Cause::Missing,
            ContradictsPendingState => Cause::StatusProhibits,
            HasUnknownStatus
            | HasAnothersStatus
            | ListRepeats
            | AddsWhatIsSet
            | RemovesWhatIsUnset => Cause::ParametersRefused,
        }
    }
}

/// The table of the orders that set statuses.
pub const STATUS_ORDER: &[OrderCondition] = &[
    IsMissing,
    ContradictsPendingState, // RFC 5731, 2.3
    HasUnknownStatus,
    HasAnothersStatus, // RFC 5731, 2.3
    ListRepeats,
    AddsWhatIsSet,
    RemovesWhatIsUnset,
];

/// What an order is answered, by the object that it names.
pub fn judge_order(order: &StatusOrder, object: Option<&Object>) -> Code
    ensures code { result ≡ spec.order_code order.now (option_copied object.entry) }
    ensures laws { AnswersOrderLawfully order.now (option_copied object.entry) result }
{
    code_on(order, object)
}

#[tactic(auto, unfolding(crate::specs::Refusals::first_refusal, crate::specs::Orders::order_code))]
fn code_on(order: &StatusOrder, object: Option<&Object>) -> Code
    ensures { result ≡ spec.order_code order.now (option_copied object.entry) }
{
    match find_refusal(order, object) {
        Some(condition) => condition.cause().code(),
        None => Code::Completed,
    }
}

fn find_refusal(order: &StatusOrder, object: Option<&Object>) -> Option<&'static OrderCondition>
    ensures { option_copied result ≡ words.order_refusal order.now (option_copied object.entry) }
{
    STATUS_ORDER
        .iter()
        .find(|condition| meets(order, **condition, object))
}

fn meets(order: &StatusOrder, condition: OrderCondition, object: Option<&Object>) -> bool
    ensures { result ≡ spec.order_holds order.now (option_copied object.entry) condition }
{
    let (add, rem) = (order.add.as_slice(), order.rem.as_slice());
    match condition {
        OrderCondition::IsMissing => object.is_none(),
        OrderCondition::ContradictsPendingState => contradicts(add, object),
        OrderCondition::HasUnknownStatus => order.has_unknown_status,
        OrderCondition::HasAnothersStatus => {
            any_foreign(order.kind, add) || any_foreign(order.kind, rem)
        }
        OrderCondition::ListRepeats => has_status_twice(add) || has_status_twice(rem),
        OrderCondition::AddsWhatIsSet => adds_set(add, object),
        OrderCondition::RemovesWhatIsUnset => removes_unset(rem, object),
    }
}

/// Whether it prohibits that a deleted domain is deleted, or that what pends is transferred.
fn contradicts(added: &[ObjectStatus], object: Option<&Object>) -> bool
    ensures { result ≡ words.is_met (spec.contradicts_pending_state added.now) object.entry }
{
    let Some(object) = object else {
        return false;
    };
    match object {
        Object::Contact(contact) => {
            has_status(added, ObjectStatus::ServerTransferProhibited)
                && contact.is_pending_transfer()
        }
        Object::Domain(domain) => {
            has_status(added, ObjectStatus::ServerDeleteProhibited) && domain.deletion.is_some()
                || has_status(added, ObjectStatus::ServerTransferProhibited)
                    && domain.is_pending_transfer()
        }
        Object::Host(_) => false,
    }
}

/// Whether a status isn't one that the operator sets on this kind of object.
fn any_foreign(kind: ObjectKind, statuses: &[ObjectStatus]) -> bool
    ensures { result ≡ spec.any_foreign kind statuses.now }
{
    statuses.iter().any(|status| !status.is_server_of(kind))
}

fn adds_set(added: &[ObjectStatus], object: Option<&Object>) -> bool
    ensures { result ≡ words.is_met (λ it. any_set (statuses_of it) added.now) object.entry }
{
    object.is_some_and(|object| any_set(object.statuses(), added))
}

fn removes_unset(removed: &[ObjectStatus], object: Option<&Object>) -> bool
    ensures { result ≡ words.is_met (λ it. any_unset (statuses_of it) removed.now) object.entry }
{
    object.is_some_and(|object| any_unset(object.statuses(), removed))
}
