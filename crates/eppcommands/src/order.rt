//! The operator's orders.
ghost use Rattle.std.specs.{Prelude.{◌≡◌, IfOk, is_none, map}, List.list_any};
ghost use Rattle.std.specs.Result.{result_map_both};
ghost use Rattle.serde_json.specs.View.{view, number_view};
ghost use Rattle.eppcommands.specs.Reading.{Gives};
ghost use Rattle.eppcommands.specs.Order as spec;

use crate::reading::{CommandFault, items_in, required_at};
use crate::values::TextIn;
use basis::list::Seq;
use eppforms::Section::Top;
use eppforms::{
    DEPOSIT_ORDER_FORM, Field, Member, SETTLE_ORDER_FORM, STATUS_ORDER_FORM, has_all, has_only,
    member_of, object_named, word,
};
use objects::{ObjectKind, Status};
use protocol::{FormFault, OperatorRequest, Order, StatusOrder};
use serde_json::{Number, Value};
use std::alloc::{AllocError, Global};

/// Reads an order. There is none where the payload is of another form.
pub fn order_of(alloc: Global, payload: &[u8]) -> Result<Option<OperatorRequest>, AllocError>
    ensures { IfOk result (λ order. order ≡ spec.order_in payload.now) }
{
    match Value::from_slice(alloc, payload) {
        Ok(value) => order_of_value(alloc, &value),
        Err(error) if error.is_memory() => Err(AllocError),
        Err(_) => Ok(None),
    }
}

fn order_of_value(alloc: Global, value: &Value) -> Result<Option<OperatorRequest>, AllocError>
    ensures { IfOk result (λ order. order ≡ spec.order_of_data (view value.now)) }
{
    match order_given(alloc, value) {
        Ok(order) => Ok(Some(order)),
        Err(CommandFault::Refused(_)) => Ok(None),
        Err(CommandFault::Memory) => Err(AllocError),
    }
}

/// The order that `order` says.
#[tactic(auto, unfolding(crate::specs::Order::order_given))]
fn order_given(alloc: Global, value: &Value) -> Result<OperatorRequest, CommandFault>
    ensures { Gives result (spec.order_given (view value.now)) }
{
    let order = word(value, Member::Order).ok_or(FormFault::SyntaxError)?;
    order_said(alloc, order, value)
}

fn order_said(alloc: Global, order: &str, value: &Value) -> Result<OperatorRequest, CommandFault>
    ensures { Gives result (spec.order_said order.now (view value.now)) }
{
    if order == "status" {
        return Ok(OperatorRequest::Order(status_order(alloc, value)?));
    }
    if order == "deposit" {
        return Ok(OperatorRequest::Order(deposit_order(alloc, value)?));
    }
    if order == "settle" {
        return Ok(settle_order(value)?);
    }
    Err(CommandFault::Refused(FormFault::UnknownCommand))
}

#[tactic(auto, unfolding(crate::specs::Order::status_order))]
fn status_order(alloc: Global, value: &Value) -> Result<Order, CommandFault>
    ensures { Gives result (spec.status_order (view value.now)) }
{
    let kind = kind_ordered(value)?;
    let name = required_at(alloc, &TextIn, Top, Member::Name, value)?;
    let add = items_at(Member::Add, value)?;
    let rem = items_at(Member::Rem, value)?;
    Ok(Order::Status(StatusOrder {
        kind,
        name,
        add: statuses_given(alloc, add)?,
        rem: statuses_given(alloc, rem)?,
        has_unknown_status: any_unknown_status(add) || any_unknown_status(rem),
    }))
}

/// The kind of object of an order to set and take away statuses.
#[tactic(auto, unfolding(crate::specs::Order::kind_ordered))]
fn kind_ordered(value: &Value) -> Result<ObjectKind, FormFault>
    ensures { result ≡ spec.kind_ordered (view value.now) }
{
    if !has_form(STATUS_ORDER_FORM, value) {
        return Err(FormFault::SyntaxError);
    }
    let kind = word(value, Member::Obj).ok_or(FormFault::SyntaxError)?;
    object_named(kind).ok_or(FormFault::UnknownCommand)
}

/// The order to enter what a registrar paid.
#[tactic(auto, unfolding(crate::specs::Order::deposit_order))]
fn deposit_order(alloc: Global, value: &Value) -> Result<Order, CommandFault>
    ensures { Gives result (spec.deposit_order (view value.now)) }
{
    if !has_form(DEPOSIT_ORDER_FORM, value) {
        return Err(CommandFault::Refused(FormFault::SyntaxError));
    }
    let registrar = required_at(alloc, &TextIn, Top, Member::Registrar, value)?;
    let number = number_at(Member::Cents, value)?;
    let cents = number.as_i64().ok_or(FormFault::ParameterRange)?;
    Ok(Order::Deposit { registrar, cents })
}

/// The order that some of what is due lapses.
#[tactic(auto, unfolding(crate::specs::Order::settle_order))]
fn settle_order(value: &Value) -> Result<OperatorRequest, FormFault>
    ensures { result ≡ spec.settle_order (view value.now) }
{
    if !has_form(SETTLE_ORDER_FORM, value) {
        return Err(FormFault::SyntaxError);
    }
    let number = number_at(Member::AtMost, value)?;
    let at_most = number.as_u64().ok_or(FormFault::ParameterRange)?;
    if at_most > u64::from(u32::MAX) {
        return Err(FormFault::ParameterRange);
    }
    Ok(OperatorRequest::Settle {
        at_most: at_most as u32,
    })
}

/// Each member of the form is there, and none but these.
fn has_form(form: &[Field], value: &Value) -> bool
    ensures { result ≡ spec.has_form form.now (view value.now) }
{
    has_only(form, value) && has_all(form, value)
}

fn number_at(at: Member, value: &Value) -> Result<&Number, FormFault>
    ensures { result_map_both (λ number. number_view number.now) (λ code. code) result
        ≡ spec.number_at at (view value.now) }
{
    member_of(value, at)
        .and_then(Value::as_number)
        .ok_or(FormFault::SyntaxError)
}

fn items_at(at: Member, value: &Value) -> Result<&Vec<Value>, FormFault>
    ensures { result_map_both (λ items. map view items.now.items) (λ code. code) result
        ≡ spec.list_at at (view value.now) }
{
    let found = member_of(value, at).ok_or(FormFault::ParameterMissing)?;
    items_in(found)
}

/// The status that a text names.
fn status_given(value: &Value) -> Option<Status>
    ensures { result ≡ spec.status_given (view value.now) }
{
    value.as_str().and_then(Status::named)
}

/// Whether a text names no status.
#[tactic(auto, using(crate::proofs::Items::list_any_map))]
fn any_unknown_status(items: &[Value]) -> bool
    ensures { result ≡ spec.any_unknown_status (map view items.now) }
{
    is_any_unknown_status(items)
}

fn is_any_unknown_status(items: &[Value]) -> bool
    ensures { result ≡ list_any (λ v. is_none (spec.status_given (view v))) items.now }
{
    items.iter().any(|item| status_given(item).is_none())
}

/// The statuses that texts name, in the order of the texts.
fn statuses_given(alloc: Global, items: &[Value]) -> Result<Seq<Status>, AllocError>
    ensures { IfOk result (λ statuses. statuses ≡ spec.statuses_given (map view items.now)) }
{
    let mut statuses = Seq::new(alloc);
    for item in items {
        if let Some(status) = status_given(item) {
            statuses.push(status)?;
        }
    }
    Ok(statuses)
}
