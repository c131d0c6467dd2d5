//! The answers to the operator's orders.
ghost use Rattle.std.specs.Prelude.{◌≡◌, IfOk};
ghost use Rattle.serde_json.specs.View.{view};
ghost use Rattle.eppreplies.specs.Answer as spec;

use jsonobjects::{Item, object};
use protocol::Code;
use serde_json::Value;
use std::alloc::{AllocError, Global};

/// The answer to an order: its code and the code's text, and a number of objects where the order
/// counts them. `status` and `deposit` count none.
pub fn order_bytes(alloc: Global, code: Code, done: Option<u32>) -> Result<Vec<u8>, AllocError>
    ensures { IfOk result (λ bytes. bytes.items ≡ spec.answer_text code done) }
{
    answer_value(alloc, code, done)?.to_vec(alloc)
}

fn answer_value(alloc: Global, code: Code, done: Option<u32>) -> Result<Value, AllocError>
    ensures { IfOk result (λ v. view v ≡ spec.answer_value code done) }
{
    let settled = match done {
        Some(done) => Item::Given(settled_value(alloc, done)?),
        None => Item::Absent,
    };
    let members = vec![in alloc;
        ("code", Item::Given(Value::from(code.number()))),
        ("data", settled),
        ("msg", Item::Word(code.message())),
    ]?;
    object(alloc, members)
}

fn settled_value(alloc: Global, done: u32) -> Result<Value, AllocError>
    ensures { IfOk result (λ v. view v ≡ spec.settled_value done) }
{
    object(
        alloc,
        vec![in alloc; ("done", Item::Given(Value::from(done)))]?,
    )
}
