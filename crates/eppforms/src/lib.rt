//! The forms of commands: the members of each command, the values that they take, and the order in which
//! faults of form are reported (RFC 5730, 3).
//!
//! - `kind`: what each kind of member asks of its value.
//! - `member`: the members, and where they are.
//! - `table`: the form of each command.
//! - `value`: the members of a JSON value.
//! - `form`: a JSON value checked against a table of forms.
#![tactic(auto)]

mod form;
mod kind;
mod member;
mod table;
mod value;

pub use form::{checked_command, has_all, has_only};
pub use kind::{Kind, Limits, Shape};
pub use member::{Member, Section};
pub use table::{
    CL_TRID, Choice, CommandForm, CommandKind, DEPOSIT_ORDER_FORM, FORMS, Field, Op,
    SETTLE_ORDER_FORM, STATUS_ORDER_FORM, Verb, object_named,
};
pub use value::{member_of, part, value_at, word};
