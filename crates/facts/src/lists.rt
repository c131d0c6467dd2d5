//! Lists of items that are known by their texts.
ghost use Rattle.std.specs.{Prelude.{◌≡◌, ◌+◌, find, length, IfOk}, Option.option_copied};
ghost use Rattle.std.specs.Str.{bytes_eq};
ghost use Rattle.objects.specs.StatusTexts.{status_text};
ghost use Rattle.facts.specs.Lists as spec;

use basis::list::Seq;
use basis::text::Text;
use names::RequestedName;
use objects::{Status, has_name};
use std::alloc::{AllocError, Global};

/// An item of a list.
pub trait Named {
    ghost use Rattle.std.specs.Prelude.{List, ℕ};

    /// The name that it is known by.
    ghost name: { Self → List ℕ };

    fn name(&self) -> &Text
        ensures { result.now ≡ name self.now };
}

impl Named for Text {
    ghost use Rattle.facts.specs.Lists.{itself};

    ghost name = { itself };

    fn name(&self) -> &Text {
        self
    }
}

impl Named for RequestedName {
    ghost use Rattle.names.specs.RequestedName.{name_of};

    ghost name = { name_of };

    fn name(&self) -> &Text {
        self.text()
    }
}

/// The item that is known by a name.
pub fn find_named<'a, T: Named>(items: &'a [T], name: &Text) -> Option<&'a T>
    ensures { option_copied result ≡ find (λ item. bytes_eq (T.name item) name.now) items.now }
{
    items.iter().find(|item| *item.name() == *name)
}

/// Whether an item of the list is known by the name.
pub fn is_among<T: Named>(name: &Text, items: &[T]) -> bool
    ensures { result ≡ spec.is_among T.name items.now name.now }
{
    items.iter().any(|other| *other.name() == *name)
}

/// Whether a list names one thing twice.
pub fn has_twice<T: Named>(items: &[T]) -> bool
    ensures { result ≡ spec.has_twice T.name items.now }
{
    for (i, item) in items.iter().enumerate() {
        if is_among(item.name(), &items[i + 1..]) {
            return true;
        }
    }
    false
}

/// Whether an item is added that is there.
pub fn adds_what_is_there<T: Named>(old: &[Text], items: &[T]) -> bool
    ensures { result ≡ spec.adds_what_is_there T.name old.now items.now }
{
    items.iter().any(|item| has_name(old, item.name()))
}

/// Whether an item is removed that isn't there.
pub fn removes_what_is_not<T: Named>(old: &[Text], items: &[T]) -> bool
    ensures { result ≡ spec.removes_what_is_not T.name old.now items.now }
{
    items.iter().any(|item| !has_name(old, item.name()))
}

/// Whether there are more than the limit afterwards.
pub fn is_over<T: Named>(limit: usize, old: &[Text], removed: &[T], added: &[T]) -> bool
    ensures { result ≡ spec.is_over T.name limit old.now removed.now added.now }
{
    let kept = count_kept(old, removed);
    kept > limit || added.len() > limit - kept
}

/// How many of an object's names an update doesn't remove.
pub fn count_kept<T: Named>(old: &[Text], removed: &[T]) -> usize
    ensures { result ≡ length (spec.kept T.name old.now removed.now) }
{
    old.iter().filter(|name| !is_among(name, removed)).count()
}

/// The names that an object has after an update, in the order of their bytes.
pub fn amended_names<T: Named>(
    alloc: Global,
    old: &[Text],
    removed: &[T],
    added: &[T],
) -> Result<Seq<Text>, AllocError>
    ensures { IfOk result (λ names. names ≡ spec.amended T.name old.now removed.now added.now) }
{
    let mut names = kept_names(alloc, old, removed)?;
    for item in added {
        names.push(item.name().clone()?)?;
    }
    Seq::sorted(alloc, names)
}

fn kept_names<T: Named>(alloc: Global, old: &[Text], removed: &[T]) -> Result<Vec<Text>, AllocError>
    ensures { IfOk result (λ names. names.items ≡ spec.kept T.name old.now removed.now) }
{
    let mut names = Vec::new(alloc);
    for name in old {
        if !is_among(name, removed) {
            names.push(name.clone()?)?;
        }
    }
    Ok(names)
}

/// Whether a list names one status twice.
pub fn has_status_twice(statuses: &[Status]) -> bool
    ensures { result ≡ spec.has_twice status_text statuses.now }
{
    for (i, status) in statuses.iter().enumerate() {
        if is_text_among(status.text(), &statuses[i + 1..]) {
            return true;
        }
    }
    false
}

fn is_text_among(text: &str, statuses: &[Status]) -> bool
    ensures { result ≡ spec.is_among status_text statuses.now text.now }
{
    statuses.iter().any(|other| other.text() == text)
}
