//! A payload as a command.
ghost use Rattle.std.specs.Prelude.{◌≡◌, IfOk, option_map};
ghost use Rattle.serde_json.specs.View.{view};
ghost use Rattle.eppcommands.specs.Command as spec;

use crate::reading::CommandFault;
use crate::request::request_in;
use basis::text::Text;
use eppforms::{CL_TRID, Member, member_of, word};
use protocol::{Command, FormFault};
use serde_json::Value;
use std::alloc::{AllocError, Global};

/// Reads a command. Where its form is refused, it says by which code.
pub fn command_of(alloc: Global, payload: &[u8]) -> Result<Command, AllocError>
    ensures { IfOk result (λ command. command ≡ spec.command_in payload.now) }
{
    match value_in(alloc, payload)? {
        Some(value) => command_of_value(alloc, &value),
        None => Ok(Command::Bad {
            cl_trid: None,
            fault: FormFault::SyntaxError,
        }),
    }
}

/// The JSON value that a payload is, if it is one.
pub(crate) fn value_in(alloc: Global, payload: &[u8]) -> Result<Option<Value>, AllocError>
    ensures { IfOk result (λ value. option_map view value ≡ spec.payload_value payload.now) }
{
    match Value::from_slice(alloc, payload) {
        Ok(value) => Ok(Some(value)),
        Err(error) if error.is_memory() => Err(AllocError),
        Err(_) => Ok(None),
    }
}

pub(crate) fn command_of_value(alloc: Global, value: &Value) -> Result<Command, AllocError>
    ensures { IfOk result (λ command. command ≡ spec.command_of_data (view value.now)) }
{
    let cl_trid = cl_trid_of(alloc, value)?;
    match request_in(alloc, value) {
        Ok(request) => Ok(Command::Asked { cl_trid, request }),
        Err(CommandFault::Refused(fault)) => Ok(Command::Bad { cl_trid, fault }),
        Err(CommandFault::Memory) => Err(AllocError),
    }
}

/// The command's own identifier, where it is well formed.
pub(crate) fn cl_trid_of(alloc: Global, value: &Value) -> Result<Option<Text>, AllocError>
    ensures { IfOk result (λ cl_trid. cl_trid ≡ spec.cl_trid_in (view value.now)) }
{
    match member_of(value, Member::ClTrid) {
        Some(found) if CL_TRID.kind.is_in_range(found) && CL_TRID.kind.has_shape(found) => {
            copied(alloc, word(value, Member::ClTrid))
        }
        _ => Ok(None),
    }
}

fn copied(alloc: Global, text: Option<&str>) -> Result<Option<Text>, AllocError>
    ensures { IfOk result (λ copy. copy ≡ option_map (λ t. t.now) text.entry) }
{
    match text {
        Some(text) => Ok(Some(Text::from_str(alloc, text)?)),
        None => Ok(None),
    }
}
