//! Ordered sets as contracts see them: finite sets.
ghost use Rattle.std.specs.{Prelude.◌≡◌, Cmp.Lexicographic.slice_cmp, Ordering.nat_cmp};
ghost use Rattle.std.specs.FinSet as set;
ghost use Rattle.basis.specs.Sets.{is_same_set};

use crate::text::Text;
use std::cmp::Ordering;
use std::marker::Model;

/// A set of names, in which one is found by halves.
#[derive(Clone, Drop)]
pub struct NameSet {
    names: Vec<Text>,
}

impl Model for NameSet {
    ghost use Rattle.std.specs.Ordering.{nat_cmp};
    ghost use Rattle.std.specs.Cmp.Lexicographic.{slice_cmp};
    ghost use Rattle.std.specs.List.Sorted.{IsStrictlySortedBy};
    ghost use Rattle.std.specs.FinSet as set;
    ghost use Rattle.basis.specs.Sets.{Names, names_code};

    ghost Value = { Names };

    ghost coded = { names_code };

    ghost view = { λ s. set.from_list s.names.items };

    ghost invariant = { λ s. IsStrictlySortedBy (slice_cmp nat_cmp) s.names.items };
}

impl NameSet {
    /// The names of a list, in any order and any number of times.
    pub fn of_list(names: Vec<Text>) -> NameSet
        ensures { result ≡ set.from_list names.items }
    {
        let mut names = names;
        names.sort_unstable();
        names.dedup();
        NameSet { names }
    }

    /// The names, in the order of their characters, each once.
    pub fn names(&self) -> &[Text]
        ensures { set.from_list result.now ≡ self.now }
    {
        &self.names
    }

    pub fn contains(&self, name: &str) -> bool
        ensures { result ≡ set.contains self.now name.now }
    {
        self.names
            .binary_search_by(|other| order_of(other, name))
            .is_ok()
    }

    /// Whether two sets have the same names.
    pub fn is_same(&self, other: &NameSet) -> bool
        ensures { result ≡ is_same_set self.now other.now }
    {
        self.names == other.names
    }
}

/// The order of a text of a list and a text that is looked for.
fn order_of(text: &Text, wanted: &str) -> Ordering
    ensures { result ≡ slice_cmp nat_cmp text.now wanted.now }
{
    text.as_str().cmp(wanted)
}
