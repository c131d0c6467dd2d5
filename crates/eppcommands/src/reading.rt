//! What a member of a well formed command says.
ghost use Rattle.std.specs.{Prelude.{◌≡◌, map}, Result.result_map_both};
ghost use Rattle.serde_json.specs.View.{view};
ghost use Rattle.eppcommands.specs.declared.reading.CommandFault.TheVariants.{Refused, Memory};
ghost use Rattle.eppforms.specs.Member.{value_at};
ghost use Rattle.eppcommands.specs.Reading as spec;

use basis::list::Seq;
use eppforms::{Member, Section, value_at};
use names::NameFault;
use protocol::{FormFault, Years};
use serde_json::Value;
use std::alloc::{AllocError, Global};

/// Why a payload gives no request.
#[derive(Clone, Copy)]
pub enum CommandFault {
    /// Its form is refused.
    Refused(FormFault),
    /// Memory ran out.
    Memory,
}

impl From<AllocError> for CommandFault {
    ghost from_gives = { λ _ fault. fault ≡ Memory };

    fn from(_: AllocError) -> CommandFault {
        CommandFault::Memory
    }
}

impl From<FormFault> for CommandFault {
    ghost from_gives = { λ code fault. fault ≡ Refused code };

    fn from(code: FormFault) -> CommandFault {
        CommandFault::Refused(code)
    }
}

impl From<NameFault> for CommandFault {
    ghost from_gives = { λ name fault. fault ≡ spec.fault_of name };

    fn from(fault: NameFault) -> CommandFault {
        match fault {
            NameFault::Memory => CommandFault::Memory,
            NameFault::Syntax | NameFault::Policy => CommandFault::Refused(
                FormFault::ParameterSyntax,
            ),
        }
    }
}

/// How one value is read.
pub(crate) trait Reads {
    ghost use Rattle.std.specs.Prelude.{Result};
    ghost use Rattle.serde_json.specs.{Data.Data, View.view};
    ghost use Rattle.protocol.specs.declared.form.FormFault.{FormFault};
    ghost use Rattle.eppcommands.specs.Reading.{Gives};

    /// What is read.
    type Read: Drop;

    ghost read: { Self → Data → Result Self.Read FormFault };

    fn read(&self, alloc: Global, value: &Value) -> Result<Self::Read, CommandFault>
        ensures { Gives result (read self.now (view value.now)) };
}

/// What a member says that has to be there.
pub(crate) fn required_at<R: Reads>(
    alloc: Global,
    reader: &R,
    section: Section,
    at: Member,
    value: &Value,
) -> Result<R::Read, CommandFault>
    ensures { spec.Gives result (spec.required (R.read reader.now)
        (value_at section at (view value.now))) }
{
    let found = value_at(value, section, at).ok_or(FormFault::ParameterMissing)?;
    reader.read(alloc, found)
}

/// What a member says that may be missing.
pub(crate) fn maybe_at<R: Reads>(
    alloc: Global,
    reader: &R,
    section: Section,
    at: Member,
    value: &Value,
) -> Result<Option<R::Read>, CommandFault>
    ensures { spec.Gives result (spec.maybe_in (R.read reader.now)
        (value_at section at (view value.now))) }
{
    let Some(found) = value_at(value, section, at) else {
        return Ok(None);
    };
    Ok(Some(reader.read(alloc, found)?))
}

/// What the items of a list say, none where there is no list.
pub(crate) fn list_at<R: Reads>(
    alloc: Global,
    reader: &R,
    section: Section,
    at: Member,
    value: &Value,
) -> Result<Seq<R::Read>, CommandFault>
    ensures { spec.Gives result (spec.list_in (R.read reader.now)
        (value_at section at (view value.now))) }
{
    let Some(found) = value_at(value, section, at) else {
        return Ok(Seq::new(alloc));
    };
    let items = items_in(found)?;
    all_in(alloc, reader, items)
}

fn all_in<R: Reads>(
    alloc: Global,
    reader: &R,
    items: &[Value],
) -> Result<Seq<R::Read>, CommandFault>
    ensures { spec.Gives result (spec.all_in (R.read reader.now) (map view items.now)) }
{
    let mut all = Seq::new(alloc);
    for item in items {
        all.push(reader.read(alloc, item)?)?;
    }
    Ok(all)
}

/// The items of a list.
pub(crate) fn items_in(value: &Value) -> Result<&Vec<Value>, FormFault>
    ensures { result_map_both (λ items. map view items.now.items) (λ code. code) result
        ≡ spec.items_in (view value.now) }
{
    value.as_array().ok_or(FormFault::SyntaxError)
}

/// Years; one where nothing is said of them.
pub fn years_at(section: Section, at: Member, value: &Value) -> Result<Years, FormFault>
    ensures { result ≡ spec.years_at section at (view value.now) }
{
    let Some(found) = value_at(value, section, at) else {
        return Ok(Years::one());
    };
    let number = found.as_u64().ok_or(FormFault::SyntaxError)?;
    Years::of(number).ok_or(FormFault::ParameterRange)
}
