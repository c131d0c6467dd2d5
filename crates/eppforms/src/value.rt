//! The members of a JSON value.
ghost use Rattle.std.specs.Prelude.{◌≡◌, option_map};
ghost use Rattle.serde_json.specs.View.{view};
ghost use Rattle.eppforms.specs.Member as spec;

use crate::member::{Member, Section};
use crate::table::Field;
use serde_json::Value;

/// The part of a command that a section is.
pub fn part(value: &Value, section: Section) -> Option<&Value>
    ensures { option_map (λ v. view v.now) result ≡ spec.part_at section (view value.now) }
{
    match section {
        Section::Top => Some(value),
        Section::Postal => member_of(value, Member::Postal),
        Section::Add => member_of(value, Member::Add),
        Section::Rem => member_of(value, Member::Rem),
        Section::Chg => member_of(value, Member::Chg),
        Section::ChgPostal => match member_of(value, Member::Chg) {
            Some(chg) => member_of(chg, Member::Postal),
            None => None,
        },
    }
}

/// The value of a field.
pub fn found(value: &Value, field: Field) -> Option<&Value>
    ensures { option_map (λ v. view v.now) result ≡ spec.value_of field (view value.now) }
{
    value_at(value, field.section, field.member)
}

/// The value of a member in a section.
pub fn value_at(value: &Value, section: Section, at: Member) -> Option<&Value>
    ensures { option_map (λ v. view v.now) result ≡ spec.value_at section at (view value.now) }
{
    match part(value, section) {
        Some(part) => member_of(part, at),
        None => None,
    }
}

/// The value of a member.
pub fn member_of(value: &Value, member: Member) -> Option<&Value>
    ensures { option_map (λ v. view v.now) result ≡ spec.member_at member (view value.now) }
{
    value.get(member.text())
}

/// The text of a member.
pub fn word(value: &Value, member: Member) -> Option<&str>
    ensures { option_map (λ s. s.now) result ≡ spec.word_at member (view value.now) }
{
    value.get(member.text()).and_then(Value::as_str)
}
