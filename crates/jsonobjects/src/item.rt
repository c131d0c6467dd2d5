//! What the members of a reply say.
ghost use Rattle.std.specs.Prelude.{◌≡◌, IfOk, IsTrue, List, ℕ, map, option_map};
ghost use Rattle.serde_json.specs.{Data.object, View.view};
ghost use Rattle.objects.specs.{Graces.states_of, StatusTexts.rgp_text};
ghost use Rattle.jsonobjects.specs.Item.{item_value};
ghost use Rattle.jsonobjects.specs.Members.{are_in_order, members_with, texts_value, moment_value};

use basis::list::Seq;
use basis::text::Text;
use calendar::Moment;
use objects::{ObjectKind, Rgp, Standing, Status};
use protocol::object_text;
use serde_json::{Map, Value};
use std::alloc::{AllocError, Global};

/// What a member says.
#[derive(Drop)]
pub enum Item<'a> {
    Word(&'a str),
    Text(&'a Text),
    /// A text, or no member.
    MaybeText(&'a Option<Text>),
    Texts(&'a Seq<Text>),
    Statuses(&'a Seq<Status>),
    Time(Moment),
    /// A moment, or no member.
    MaybeTime(Option<Moment>),
    Given(Value),
    /// No member.
    Absent,
}

/// The object of these members, which are in the order of their names. One without a value is
/// left out.
pub fn object(
    alloc: Global,
    mut members: Vec<(&'static str, Item<'_>)>,
) -> Result<Value, AllocError>
    requires { IsTrue (are_in_order (map (λ m. (m.0.now, item_value m.1)) members.items)) }
    ensures { IfOk result (λ v. view v
        ≡ object (members_with (map (λ m. (m.0.now, item_value m.1)) members.entry.items))) }
{
    let mut built = Map::new(alloc);
    'members: while let Some((name, item)) = members.pop() {
        if let Some(value) = value_of_item(alloc, item)? {
            serde_json::put(&mut built, alloc, name, value)?;
        }
    }
    Ok(Value::Object(built))
}

fn value_of_item(alloc: Global, item: Item<'_>) -> Result<Option<Value>, AllocError>
    ensures { IfOk result (λ o. option_map view o ≡ item_value item.entry) }
{
    Ok(match item {
        Item::Word(word) => Some(Value::try_from_str(alloc, word)?),
        Item::Text(text) => Some(Value::try_from_str(alloc, text.as_str())?),
        Item::MaybeText(text) => match text {
            Some(text) => Some(Value::try_from_str(alloc, text.as_str())?),
            None => None,
        },
        Item::Texts(list) => Some(texts(alloc, list.as_slice())?),
        Item::Statuses(list) => Some(texts(alloc, list.as_slice())?),
        Item::Time(moment) => Some(time(alloc, moment)?),
        Item::MaybeTime(moment) => match moment {
            Some(moment) => Some(time(alloc, moment)?),
            None => None,
        },
        Item::Given(value) => Some(value),
        Item::Absent => None,
    })
}

/// The states of grace of a domain in this state.
pub fn states(alloc: Global, standing: Standing) -> Result<Value, AllocError>
    ensures { IfOk result (λ v. view v ≡ texts_value (map rgp_text (states_of standing))) }
{
    let states = standing.states(alloc)?;
    texts(alloc, states.as_slice())
}

fn time(alloc: Global, moment: Moment) -> Result<Value, AllocError>
    ensures { IfOk result (λ v. view v ≡ moment_value moment) }
{
    Ok(Value::String(moment.text(alloc)?))
}

/// What is shown by a text.
pub trait Shown {
    ghost shown: { Self → List ℕ };

    fn shown(&self) -> &str
        ensures { result.now ≡ shown self.now };
}

impl Shown for Text {
    ghost shown = { λ text. text };

    fn shown(&self) -> &str {
        self.as_str()
    }
}

impl Shown for Status {
    ghost use Rattle.objects.specs.StatusTexts.{status_text};

    ghost shown = { status_text };

    fn shown(&self) -> &str {
        self.text()
    }
}

impl Shown for &'static str {
    ghost shown = { λ word. word.now };

    fn shown(&self) -> &str {
        self
    }
}

impl Shown for ObjectKind {
    ghost use Rattle.protocol.specs.Texts.{object_text};

    ghost shown = { object_text };

    fn shown(&self) -> &str {
        object_text(*self)
    }
}

impl Shown for Rgp {
    ghost use Rattle.objects.specs.StatusTexts.{rgp_text};

    ghost shown = { rgp_text };

    fn shown(&self) -> &str {
        self.text()
    }
}

/// A list of what is shown by texts.
pub fn texts<T: Shown>(alloc: Global, items: &[T]) -> Result<Value, AllocError>
    ensures { IfOk result (λ v. view v ≡ texts_value (map T.shown items.now)) }
{
    let mut list = Vec::new(alloc);
    for item in items {
        list.push(Value::try_from_str(alloc, item.shown())?)?;
    }
    Ok(Value::Array(list))
}
