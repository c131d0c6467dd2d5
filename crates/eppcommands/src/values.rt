//! How values are read: a name, an address and a status are read here, which is the last step of the
//! form.
ghost use Rattle.eppcommands.specs.Dates.{date_in, moment_in};
ghost use Rattle.eppcommands.specs.Reading as spec;

use crate::dates::{date_of, moment_of};
use crate::reading::{CommandFault, Reads};
use basis::text::Text;
use calendar::Moment;
use names::{Address, RequestedName};
use objects::{ObjectKind, Status};
use protocol::FormFault;
use serde_json::Value;
use std::alloc::Global;

#[derive(Drop)]
pub(crate) struct NameIn;

impl Reads for NameIn {
    type Read = RequestedName;

    ghost read = { λ _ value. spec.name_in value };

    #[tactic(auto, unfolding(crate::specs::Reading::name_in))]
    fn read(&self, alloc: Global, value: &Value) -> Result<RequestedName, CommandFault> {
        let text = value.as_str().ok_or(FormFault::SyntaxError)?;
        Ok(RequestedName::read(alloc, text)?)
    }
}

#[derive(Drop)]
pub(crate) struct TextIn;

impl Reads for TextIn {
    type Read = Text;

    ghost read = { λ _ value. spec.text_in value };

    fn read(&self, alloc: Global, value: &Value) -> Result<Text, CommandFault> {
        let text = value.as_str().ok_or(FormFault::SyntaxError)?;
        Ok(Text::from_str(alloc, text)?)
    }
}

/// An address, in canonical text.
#[derive(Drop)]
pub(crate) struct AddressIn;

impl Reads for AddressIn {
    type Read = Text;

    ghost read = { λ _ value. spec.address_in value };

    #[tactic(auto, unfolding(crate::specs::Reading::address_in))]
    fn read(&self, alloc: Global, value: &Value) -> Result<Text, CommandFault> {
        let text = value.as_str().ok_or(FormFault::SyntaxError)?;
        Ok(Address::read(alloc, text)?.into_text())
    }
}

/// A status that a sponsor may set on an object of that kind.
#[derive(Drop)]
pub(crate) struct StatusIn {
    pub kind: ObjectKind,
}

impl Reads for StatusIn {
    type Read = Status;

    ghost read = { λ it value. spec.status_in it.kind value };

    #[tactic(auto, unfolding(crate::specs::Reading::status_in, crate::specs::Reading::is_client))]
    fn read(&self, _alloc: Global, value: &Value) -> Result<Status, CommandFault> {
        let text = value.as_str().ok_or(FormFault::SyntaxError)?;
        let status = Status::named(text).ok_or(FormFault::ParameterSyntax)?;
        if !status.is_client_of(self.kind) {
            return Err(CommandFault::Refused(FormFault::ParameterSyntax));
        }
        Ok(status)
    }
}

#[derive(Drop)]
pub(crate) struct DateIn;

impl Reads for DateIn {
    type Read = Text;

    ghost read = { λ _ value. date_in value };

    fn read(&self, alloc: Global, value: &Value) -> Result<Text, CommandFault> {
        date_of(alloc, value)
    }
}

#[derive(Drop)]
pub(crate) struct MomentIn;

impl Reads for MomentIn {
    type Read = Moment;

    ghost read = { λ _ value. moment_in value };

    fn read(&self, _alloc: Global, value: &Value) -> Result<Moment, CommandFault> {
        Ok(moment_of(value)?)
    }
}
