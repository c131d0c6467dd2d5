//! Ordered maps as contracts see them: finite maps.
ghost use Rattle.std.specs.{Prelude.{◌≡◌, List, ℕ, IfOk, OnOk, OnErr, None}, Borrow.sem};
ghost use Rattle.std.specs.Option.{option_copied, option_copied_mut};
ghost use Rattle.std.specs.Map.Iter.{ShowsInOrder, deref, deref_pair};
ghost use Rattle.std.specs.FinMap as map;
ghost use Rattle.basis.specs.Lending.{LendsValue};

use crate::registrar::RegistrarNo;
use crate::text::Text;
use std::alloc::{AllocError, Global};
use std::collections::BTreeMap;
use std::collections::btree_map::{Iter, Keys, Values};
use std::marker::Model;

/// A map by names.
#[derive(Drop)]
pub struct NameMap<V> {
    tree: BTreeMap<Text, V>,
}

impl<V> Model for NameMap<V> {
    ghost use Rattle.std.specs.Ordering.{nat_cmp};
    ghost use Rattle.std.specs.Cmp.Lexicographic.{slice_cmp};
    ghost use Rattle.std.specs.FinMap as map;
    ghost use Rattle.std.specs.Coded.{coded_list, coded_ℕ};

    ghost Value = { map.FinMap (slice_cmp nat_cmp) V };

    ghost coded = { map.code (coded_list coded_ℕ) V.code };

    ghost view = { λ m. map.from_entries m.tree.entries };
}

impl<V: Drop> NameMap<V> {
    pub fn new(alloc: Global) -> Self
        ensures { result ≡ map.empty }
    {
        NameMap {
            tree: BTreeMap::new(alloc),
        }
    }

    pub fn get(&self, name: &Text) -> Option<&V>
        ensures { option_copied result ≡ map.get self.now name.now }
    {
        self.tree.get(name)
    }

    /// How many names there are.
    pub fn len(&self) -> usize
        ensures { result ≡ map.len self.now }
    {
        self.tree.len()
    }

    /// The entries, in the order of their names.
    pub fn iter(&self) -> Iter<'_, Text, V>
        ensures rest { result ≡ map.entries self.now }
        ensures runs { ShowsInOrder (deref_pair {K = List ℕ} {X = V}) }
    {
        self.tree.iter()
    }

    /// The names, in their order.
    pub fn keys(&self) -> Keys<'_, Text, V>
        ensures rest { result ≡ map.keys self.now }
        ensures runs { ShowsInOrder (deref {X = List ℕ}) }
    {
        self.tree.keys()
    }

    /// The values, in the order of their names.
    pub fn values(&self) -> Values<'_, Text, V>
        ensures rest { result ≡ map.values self.now }
        ensures runs { ShowsInOrder (deref {X = V}) }
    {
        self.tree.values()
    }

    /// Puts a value under a name. Only a new name can fail.
    pub fn insert(&mut self, name: Text, value: V) -> Result<(), AllocError>
        ensures ok { OnOk result (self.new ≡ map.insert self.old name value) }
        ensures err { OnErr result (self.new ≡ self.old) }
        ensures only_new { OnErr result (map.get self.old name ≡ None) }
    {
        self.tree.insert(name, value)?;
        Ok(())
    }

    pub fn remove(&mut self, name: &Text)
        ensures { self.new ≡ map.remove self.old name.now }
    {
        let _ = self.tree.remove(name);
    }

    /// The same map in memory of its own. Values have to clone to themselves.
    pub fn copy(&self) -> Result<Self, AllocError>
    where
        V: Clone,
        requires { (v w : V) → V.is_clone v w → w ≡ v }
        ensures { IfOk result (λ m. m ≡ self.now) }
    {
        Ok(NameMap {
            tree: self.tree.clone()?,
        })
    }
}

/// A map by registrars' places.
#[derive(Drop)]
pub struct RegistrarMap<V> {
    tree: BTreeMap<u32, V>,
}

impl<V> Model for RegistrarMap<V> {
    ghost use Rattle.std.specs.Ordering.{nat_cmp};
    ghost use Rattle.std.specs.FinMap as map;
    ghost use Rattle.std.specs.Coded.{coded_ℕ};

    ghost Value = { map.FinMap nat_cmp V };

    ghost coded = { map.code coded_ℕ V.code };

    ghost view = { λ m. map.from_entries m.tree.entries };
}

impl<V: Drop> RegistrarMap<V> {
    pub fn new(alloc: Global) -> Self
        ensures { result ≡ map.empty }
    {
        RegistrarMap {
            tree: BTreeMap::new(alloc),
        }
    }

    pub fn get(&self, place: RegistrarNo) -> Option<&V>
        ensures { option_copied result ≡ map.get self.now place }
    {
        self.tree.get(&place.place())
    }

    /// The value at a place, to be changed in its place.
    pub fn get_mut(&mut self, place: RegistrarNo) -> Option<&mut V>
        ensures* writes_back { sem 𝓛 (LendsValue V.row self.entry place result) }
        ensures value { option_copied_mut result ≡ map.get self.old place }
    {
        self.tree.get_mut(&place.place())
    }

    /// Puts a value at a place. Only a new place can fail.
    pub fn insert(&mut self, place: RegistrarNo, value: V) -> Result<(), AllocError>
        ensures ok { OnOk result (self.new ≡ map.insert self.old place value) }
        ensures err { OnErr result (self.new ≡ self.old) }
        ensures only_new { OnErr result (map.get self.old place ≡ None) }
    {
        self.tree.insert(place.place(), value)?;
        Ok(())
    }

    pub fn remove(&mut self, place: RegistrarNo)
        ensures { self.new ≡ map.remove self.old place }
    {
        let _ = self.tree.remove(&place.place());
    }

    /// The same map in memory of its own. Values have to clone to themselves.
    pub fn copy(&self) -> Result<Self, AllocError>
    where
        V: Clone,
        requires { (v w : V) → V.is_clone v w → w ≡ v }
        ensures { IfOk result (λ m. m ≡ self.now) }
    {
        Ok(RegistrarMap {
            tree: self.tree.clone()?,
        })
    }
}
