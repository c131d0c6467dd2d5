//! The replies that no registrar's command is counted for: to what comes before a registrar is logged
//! in, and to its login.
ghost use Rattle.std.specs.Prelude.{◌≡◌, IfOk};
ghost use Rattle.serde_json.specs.View.{view};
ghost use Rattle.eppreplies.specs.Session as spec;

use basis::text::Text;
use jsonobjects::{Item, object};
use protocol::Code;
use serde_json::Value;
use std::alloc::{AllocError, Global};

/// What is printed in place of a number where no command is counted.
const NOBODY: &str = "ANON";

/// The reply of nobody's command: a code, and its text.
pub fn anonymous_reply_bytes(
    alloc: Global,
    cl_trid: &Option<Text>,
    code: Code,
) -> Result<Vec<u8>, AllocError>
    ensures { IfOk result (λ bytes. bytes.items ≡ spec.anonymous_text cl_trid.now code) }
{
    anonymous_value(alloc, cl_trid, code)?.to_vec(alloc)
}

fn anonymous_value(alloc: Global, cl_trid: &Option<Text>, code: Code) -> Result<Value, AllocError>
    ensures { IfOk result (λ v. view v ≡ spec.anonymous_value cl_trid.now code) }
{
    let members = vec![in alloc;
        ("clTRID", Item::MaybeText(cl_trid)),
        ("code", Item::Given(Value::from(code.number()))),
        ("msg", Item::Word(code.message())),
        ("svTRID", Item::Word(NOBODY)),
    ]?;
    object(alloc, members)
}
