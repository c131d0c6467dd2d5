//! A JSON value against a table of forms: which form it chooses, and the first fault of its members
//! (RFC 5730, 3).
ghost use Rattle.std.specs.Prelude.{◌≡◌, not, string_bytes, map, option_map};
ghost use Rattle.std.specs.{List.{list_all, list_any}, Result.result_map_both};
ghost use Rattle.serde_json.specs.View.{view};
ghost use Rattle.eppforms.specs.{Kind.{in_range, has_shape}, Member.is_section, Table.plain};
ghost use Rattle.eppforms.specs.Form as spec;

use crate::member::{CHANGES, Member, SECTIONS, Section};
use crate::table::{Choice, CommandForm, CommandKind, FORMS, Field, Op};
use crate::value::{found, part, word};
use objects::ObjectKind;
use protocol::{FormFault, object_text};
use serde_json::{Map, Value};

/// The command that a value is, where its members are what its form asks; else the first fault.
pub fn checked_command(value: &Value) -> Result<CommandKind, FormFault>
    ensures { result ≡ spec.checked_command (view value.now) }
{
    checked_by(FORMS, value)
}

/// The same by any table: no proof below reads the rows of one.
#[tactic(auto, unfolding(crate::specs::Form::checked_by))]
pub fn checked_by(forms: &[CommandForm], value: &Value) -> Result<CommandKind, FormFault>
    ensures { result ≡ spec.checked_by (map plain forms.now) (view value.now) }
{
    let form = form_in(forms, value)?;
    check(form, value)?;
    form.0.command.ok_or(FormFault::ParameterSyntax)
}

/// The form that `cmd`, `obj` and `op` choose.
fn form_in(forms: &[CommandForm], value: &Value) -> Result<CommandForm, FormFault>
    ensures { result_map_both plain (λ code. code) result ≡ spec.form_in (map plain forms.now)
        (view value.now) }
{
    form_found(forms, value)
}

#[tactic(auto, unfolding(crate::specs::Form::form_in))]
fn form_found(forms: &[CommandForm], value: &Value) -> Result<CommandForm, FormFault>
    ensures { result ≡ spec.form_in forms.now (view value.now) }
{
    let cmd = word(value, Member::Cmd).ok_or(FormFault::SyntaxError)?;
    if !is_known(forms, cmd) {
        return Err(FormFault::UnknownCommand);
    }
    let obj = word(value, Member::Obj);
    if takes_object(forms, cmd) && obj.is_none() {
        return Err(FormFault::SyntaxError);
    }
    chosen(forms, cmd, obj, word(value, Member::Op)).ok_or(FormFault::UnknownCommand)
}

fn is_known(forms: &[CommandForm], cmd: &str) -> bool
    ensures { result ≡ spec.is_known forms.now cmd.now }
{
    forms.iter().any(|form| form.0.cmd.text() == cmd)
}

/// Whether the command is on an object.
fn takes_object(forms: &[CommandForm], cmd: &str) -> bool
    ensures { result ≡ spec.takes_object forms.now cmd.now }
{
    forms
        .iter()
        .any(|form| form.0.cmd.text() == cmd && form.0.object.is_some())
}

fn chosen(
    forms: &[CommandForm],
    cmd: &str,
    obj: Option<&str>,
    op: Option<&str>,
) -> Option<CommandForm>
    ensures { result ≡ spec.chosen forms.now cmd.now (option_map (λ s. s.now) obj.entry)
        (option_map (λ s. s.now) op.entry) }
{
    forms
        .iter()
        .copied()
        .find(|form| is_chosen(form.0, cmd, obj, op))
}

/// Whether `cmd`, `obj` and `op` say the form.
fn is_chosen(choice: Choice, cmd: &str, obj: Option<&str>, op: Option<&str>) -> bool
    ensures { result ≡ spec.is_chosen choice cmd.now (option_map (λ s. s.now) obj.entry)
        (option_map (λ s. s.now) op.entry) }
{
    choice.cmd.text() == cmd && is_on(choice.object, obj) && is_for(choice.op, op)
}

/// Whether `obj` says the kind of object, where there has to be one.
fn is_on(object: Option<ObjectKind>, obj: Option<&str>) -> bool
    ensures { result ≡ spec.says_object object (option_map (λ s. s.now) obj.entry) }
{
    match (object, obj) {
        (None, _) => true,
        (Some(object), Some(obj)) => object_text(object) == obj,
        (Some(_), None) => false,
    }
}

/// Whether `op` says the operation, where the form has one.
fn is_for(operation: Option<Op>, op: Option<&str>) -> bool
    ensures { result ≡ spec.is_for operation (option_map (λ s. s.now) op.entry) }
{
    match (operation, op) {
        (None, _) => true,
        (Some(operation), Some(op)) => operation.text() == op,
        (Some(_), None) => false,
    }
}

/// Checks the members of a command against its form.
#[tactic(auto, unfolding(crate::specs::Form::members_checked))]
fn check(form: CommandForm, value: &Value) -> Result<(), FormFault>
    ensures { result ≡ spec.members_checked (plain form.entry) (view value.now) }
{
    let fields = form.1;
    if !has_only(fields, value) {
        return Err(FormFault::SyntaxError);
    }
    if !is_complete(form, value) {
        return Err(FormFault::ParameterMissing);
    }
    if !are_in_range(fields, value) {
        return Err(FormFault::ParameterRange);
    }
    if !are_shaped(fields, value) {
        return Err(FormFault::ParameterSyntax);
    }
    Ok(())
}

/// No member is strange or of another JSON type.
pub fn has_only(fields: &[Field], value: &Value) -> bool
    ensures { result ≡ spec.has_only fields.now (view value.now) }
{
    SECTIONS.iter().all(|section| match part(value, *section) {
        Some(found) => knows(fields, *section, found),
        None => true,
    })
}

#[tactic(auto, unfolding(crate::specs::Form::knows))]
fn knows(fields: &[Field], section: Section, part: &Value) -> bool
    ensures { result ≡ spec.knows fields.now section (view part.now) }
{
    match part.as_object() {
        Some(members) => are_fields(fields, section, members),
        None => true,
    }
}

fn are_fields(fields: &[Field], section: Section, members: &Map<String, Value>) -> bool
    ensures { result ≡ list_all (λ m. spec.is_field fields.now section (string_bytes m.0)
        (view m.1)) members.now.entries }
{
    members.iter().all(|(name, value)| is_field(fields, section, name.as_str(), value))
}

#[tactic(auto, unfolding(crate::specs::Form::is_field))]
fn is_field(fields: &[Field], section: Section, name: &str, value: &Value) -> bool
    ensures { result ≡ spec.is_field fields.now section name.now (view value.now) }
{
    fields.iter().any(|field| {
        is_same(field.section, section) && field.member.text() == name && field.kind.has_type(value)
    })
}

fn is_same(a: Section, b: Section) -> bool
    ensures { result ≡ is_section a b }
{
    a == b
}

/// Nothing that the form asks for is missing.
fn is_complete(form: CommandForm, value: &Value) -> bool
    ensures { result ≡ spec.is_complete (plain form.entry) (view value.now) }
{
    has_all(form.1, value) && (!form.0.cmd.is_update() || changes(value))
}

/// Whether an update changes something.
fn changes(value: &Value) -> bool
    ensures { result ≡ spec.changes (view value.now) }
{
    CHANGES.iter().any(|section| match part(value, *section) {
        Some(part) => says_something(part),
        None => false,
    })
}

/// Whether a part of an update has a member that isn't an empty list.
#[tactic(auto, unfolding(crate::specs::Form::says_something))]
fn says_something(part: &Value) -> bool
    ensures { result ≡ spec.says_something (view part.now) }
{
    match part.as_object() {
        Some(members) => any_says(members),
        None => false,
    }
}

fn any_says(members: &Map<String, Value>) -> bool
    ensures { result ≡ list_any (λ m. not (spec.is_empty_list (view m.1))) members.now.entries }
{
    members.iter().any(|(_, value)| !is_empty_list(value))
}

fn is_empty_list(value: &Value) -> bool
    ensures { result ≡ spec.is_empty_list (view value.now) }
{
    match value.as_array() {
        Some(items) => items.is_empty(),
        None => false,
    }
}

/// Each required field is there, where its section is.
pub fn has_all(fields: &[Field], value: &Value) -> bool
    ensures { result ≡ spec.has_all fields.now (view value.now) }
{
    fields.iter().all(|field| is_there(*field, value))
}

fn is_there(field: Field, value: &Value) -> bool
    ensures { result ≡ spec.is_field_there field (view value.now) }
{
    !field.required || part(value, field.section).is_none() || found(value, field).is_some()
}

fn are_in_range(fields: &[Field], value: &Value) -> bool
    ensures { result ≡ spec.each in_range fields.now (view value.now) }
{
    fields.iter().all(|field| match found(value, *field) {
        Some(found) => field.kind.is_in_range(found),
        None => true,
    })
}

fn are_shaped(fields: &[Field], value: &Value) -> bool
    ensures { result ≡ spec.each has_shape fields.now (view value.now) }
{
    fields.iter().all(|field| match found(value, *field) {
        Some(found) => field.kind.has_shape(found),
        None => true,
    })
}
