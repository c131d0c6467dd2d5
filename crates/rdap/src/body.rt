//! What the bodies of answers share (RFC 9083, 4).
ghost use Rattle.std.specs.Prelude.{◌≡◌, ◌++◌, IfOk, OnOk, map};
ghost use Rattle.serde_json.specs.{Data.string, View.view};
ghost use Rattle.objects.specs.Roid.{roid_text};
ghost use Rattle.jsonobjects.specs.Members.{texts_value};
ghost use Rattle.rdap.specs.Bodies as spec;
ghost use Rattle.rdap.specs.StatusWords.{status_words};

use crate::status::status_words;
use calendar::Moment;
use jsonobjects::{Item, object, texts};
use objects::{Rgp, Roid, Status};
use serde_json::Value;
use std::alloc::{AllocError, Global};

/// When an object was registered, and when the rest happened or will, as far as it has or shall.
#[derive(Clone, Copy, Drop)]
pub(crate) struct Dates {
    pub created: Moment,
    pub expires: Option<Moment>,
    pub updated: Option<Moment>,
    pub transferred: Option<Moment>,
}

/// What every answer conforms to (RFC 9083, 4.1).
pub(crate) fn conformance(alloc: Global) -> Result<Value, AllocError>
    ensures { IfOk result (λ v. view v ≡ spec.conformance) }
{
    texts(alloc, &["rdap_level_0"])
}

/// The words of an object's statuses and states of grace (RFC 9083, 4.6).
pub(crate) fn words_value(
    alloc: Global,
    statuses: &[Status],
    states: &[Rgp],
) -> Result<Value, AllocError>
    ensures { IfOk result (λ v. view v ≡ texts_value (status_words statuses.now states.now)) }
{
    let words = status_words(alloc, statuses, states)?;
    texts(alloc, words.as_slice())
}

/// An object's identifier.
pub(crate) fn roid_value(alloc: Global, roid: Roid) -> Result<Value, AllocError>
    ensures { IfOk result (λ v. view v ≡ string (roid_text roid)) }
{
    let text = roid.text(alloc)?;
    Value::try_from_str(alloc, text.as_str())
}

/// The events of an object (RFC 9083, 4.5), where they have a date.
pub(crate) fn events_value(alloc: Global, dates: &Dates) -> Result<Value, AllocError>
    ensures { IfOk result (λ v. view v ≡ spec.events_value dates.now.created dates.now.expires
        dates.now.updated dates.now.transferred) }
{
    let mut events = Vec::new(alloc);
    add_event(alloc, "registration", Some(dates.created), &mut events)?;
    add_event(alloc, "expiration", dates.expires, &mut events)?;
    add_event(alloc, "last changed", dates.updated, &mut events)?;
    add_event(alloc, "transfer", dates.transferred, &mut events)?;
    Ok(Value::Array(events))
}

fn add_event(
    alloc: Global,
    action: &str,
    date: Option<Moment>,
    events: &mut Vec<Value>,
) -> Result<(), AllocError>
    ensures { OnOk result (map view events.new.items ≡ map view events.old.items
        ++ spec.event_if_dated action.now date) }
{
    let Some(date) = date else {
        return Ok(());
    };
    let event = event_value(alloc, action, date)?;
    events.push(event)?;
    Ok(())
}

fn event_value(alloc: Global, action: &str, date: Moment) -> Result<Value, AllocError>
    ensures { IfOk result (λ v. view v ≡ spec.event_value action.now date) }
{
    let members = vec![in alloc;
        ("eventAction", Item::Word(action)),
        ("eventDate", Item::Time(date)),
    ]?;
    object(alloc, members)
}
