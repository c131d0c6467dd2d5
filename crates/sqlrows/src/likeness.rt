//! Whether a schema is another, as texts of this crate declare it.
ghost use Rattle.std.specs.{Prelude.{◌≡◌, ◌≢◌, ◌↔◌, false, [], IsTrue}, List.AllByRecursion};
ghost use Rattle.sqlrows.specs.Columns.{no_schema};
ghost use Rattle.sqlrows.specs.inner.Plain.{ComputesNothing, IsPlainColumn, IsPlainTable, IsPlainSchema};

use sqlite_items::Items;
use sqlite_schema::code::Terms;
use sqlite_schema::schema::{Column, Index, Reference, Schema, Stamps, Table};
use sqlite_value::keys::Order;
use sqlite_value::value::{Bytes, Value};

/// What is compared with what was declared plainly: with no default but NULL, no CHECK, nothing computed.
trait Alike {
    ghost IsPlain: { Self → Type 0 };

    fn is_alike(&self, plain: &Self) -> bool
        ensures same { IsTrue result → self.now ≡ plain.now }
        ensures other { result ≡ false → IsPlain plain.now → self.now ≢ plain.now };
}

impl Alike for Column {
    ghost IsPlain = { IsPlainColumn };

    fn is_alike(&self, plain: &Column) -> bool {
        let free = matches!(self.default, Value::Null) && matches!(plain.default, Value::Null);
        free && self.name.as_slice() == plain.name.as_slice()
            && self.kind == plain.kind
            && self.is_strict == plain.is_strict
            && self.not_null == plain.not_null
            && self.collation == plain.collation
    }
}

fn acts_alike(reference: &Reference, other: &Reference) -> bool
    ensures { IsTrue result ↔ ((reference.now.on_delete ≡ other.now.on_delete)
        × ((reference.now.on_update ≡ other.now.on_update)
        × (reference.now.is_deferred ≡ other.now.is_deferred))) }
{
    reference.on_delete == other.on_delete
        && reference.on_update == other.on_update
        && reference.is_deferred == other.is_deferred
}

#[tactic(auto, using(crate::proofs::PlainLemmas::all_free))]
fn has_parents(reference: &Reference, names: &Items<Bytes>) -> bool
    ensures same { IsTrue result → reference.now.parent_columns ≡ names.now }
    ensures other { result ≡ false → reference.now.parent_columns ≢ names.now }
{
    are_alike(reference.parent_columns.as_slice(), names.as_slice())
}

impl Alike for Reference {
    ghost IsPlain = { λ r. Unit {0} };

    fn is_alike(&self, plain: &Reference) -> bool {
        self.parent.as_slice() == plain.parent.as_slice()
            && self.columns.as_slice() == plain.columns.as_slice()
            && has_parents(self, &plain.parent_columns)
            && acts_alike(self, plain)
    }
}

impl Alike for Index {
    ghost IsPlain = { λ i. Unit {0} };

    fn is_alike(&self, plain: &Index) -> bool {
        self.name.as_slice() == plain.name.as_slice()
            && self.tree == plain.tree
            && self.table == plain.table
            && self.columns.as_slice() == plain.columns.as_slice()
            && self.order == plain.order
            && self.is_unique == plain.is_unique
    }
}

impl Alike for Order {
    ghost IsPlain = { λ o. Unit {0} };

    fn is_alike(&self, plain: &Order) -> bool {
        self.digits == plain.digits
    }
}

impl Alike for Bytes {
    ghost IsPlain = { λ b. Unit {0} };

    fn is_alike(&self, plain: &Bytes) -> bool {
        self.as_slice() == plain.as_slice()
    }
}

impl Alike for Items<usize> {
    ghost IsPlain = { λ i. Unit {0} };

    fn is_alike(&self, plain: &Items<usize>) -> bool {
        self.as_slice() == plain.as_slice()
    }
}

fn are_alike<T: Alike>(these: &[T], plain: &[T]) -> bool
    ensures same { IsTrue result → these.entry.now ≡ plain.entry.now }
    ensures other { result ≡ false → AllByRecursion T.IsPlain plain.entry.now
        → these.entry.now ≢ plain.entry.now }
{
    let mut rest = these;
    let mut others = plain;
    'pairs: while let [this, more @ ..] = rest {
        let [other, left @ ..] = others else {
            return false;
        };
        if !this.is_alike(other) {
            return false;
        }
        rest = more;
        others = left;
    }
    others.is_empty()
}

fn has_no_term(terms: &Terms) -> bool
    ensures { IsTrue result ↔ (terms.now ≡ []) }
{
    terms.roots.is_empty()
}

fn stamps_nothing(stamps: &Stamps) -> bool
    ensures same { IsTrue result → stamps.now ≡ record { places = []; terms = []; formats = [] } }
    ensures other { result ≡ false → stamps.now ≢ record { places = []; terms = []; formats = [] } }
{
    stamps.places.is_empty() && has_no_term(&stamps.terms) && stamps.formats.is_empty()
}

fn computes_nothing(table: &Table) -> bool
    ensures same { IsTrue result → ComputesNothing table.now }
    ensures other { result ≡ false → ¬ ComputesNothing table.now }
{
    has_no_term(&table.checks) && stamps_nothing(&table.stamps)
}

fn is_headed_alike(table: &Table, other: &Table) -> bool
    ensures { IsTrue result ↔ ((table.now.name ≡ other.now.name)
        × ((table.now.tree ≡ other.now.tree) × (table.now.is_counted ≡ other.now.is_counted))) }
{
    table.name.as_slice() == other.name.as_slice()
        && table.tree == other.tree
        && table.is_counted == other.is_counted
}

#[tactic(auto, using(crate::proofs::PlainLemmas::all_free))]
fn has_uniques(table: &Table, uniques: &Items<Items<usize>>) -> bool
    ensures same { IsTrue result → table.now.uniques ≡ uniques.now }
    ensures other { result ≡ false → table.now.uniques ≢ uniques.now }
{
    are_alike(table.uniques.as_slice(), uniques.as_slice())
}

#[tactic(auto, using(crate::proofs::PlainLemmas::all_free))]
fn has_references(table: &Table, references: &Items<Reference>) -> bool
    ensures same { IsTrue result → table.now.references ≡ references.now }
    ensures other { result ≡ false → table.now.references ≢ references.now }
{
    are_alike(table.references.as_slice(), references.as_slice())
}

fn is_keyed_alike(table: &Table, other: &Table) -> bool
    ensures { IsTrue result ↔ ((table.now.key ≡ other.now.key)
        × (table.now.primary ≡ other.now.primary)) }
{
    table.key == other.key && table.primary.as_slice() == other.primary.as_slice()
}

#[tactic(auto, using(crate::proofs::PlainLemmas::all_free))]
fn has_orders(table: &Table, orders: &Items<Order>) -> bool
    ensures same { IsTrue result → table.now.orders ≡ orders.now }
    ensures other { result ≡ false → table.now.orders ≢ orders.now }
{
    are_alike(table.orders.as_slice(), orders.as_slice())
}

fn has_columns(table: &Table, columns: &Items<Column>) -> bool
    ensures same { IsTrue result → table.now.columns ≡ columns.now }
    ensures other { result ≡ false → AllByRecursion IsPlainColumn columns.now
        → table.now.columns ≢ columns.now }
{
    are_alike(table.columns.as_slice(), columns.as_slice())
}

fn computes_alike(table: &Table, other: &Table) -> bool
    ensures same { IsTrue result → ComputesNothing table.now
        × (ComputesNothing other.now × (table.now.computed ≡ other.now.computed)) }
    ensures other { result ≡ false → ComputesNothing other.now
        → ¬ (ComputesNothing table.now × (table.now.computed ≡ other.now.computed)) }
{
    computes_nothing(table)
        && computes_nothing(other)
        && table.computed.as_slice() == other.computed.as_slice()
}

impl Alike for Table {
    ghost IsPlain = { IsPlainTable };

    fn is_alike(&self, plain: &Table) -> bool {
        is_headed_alike(self, plain)
            && has_columns(self, &plain.columns)
            && is_keyed_alike(self, plain)
            && has_uniques(self, &plain.uniques)
            && has_orders(self, &plain.orders)
            && has_references(self, &plain.references)
            && computes_alike(self, plain)
    }
}

#[tactic(auto, using(crate::proofs::PlainLemmas::all_free))]
fn has_indexes(schema: &Schema, indexes: &Items<Index>) -> bool
    ensures same { IsTrue result → schema.now.indexes ≡ indexes.now }
    ensures other { result ≡ false → schema.now.indexes ≢ indexes.now }
{
    are_alike(schema.indexes.as_slice(), indexes.as_slice())
}

/// Whether a schema is this one, which texts of this crate declared.
pub fn is_schema(schema: &Schema, plain: &Schema) -> bool
    ensures same { IsTrue result → schema.now ≡ plain.now }
    ensures other { result ≡ false → IsPlainSchema plain.now → schema.now ≢ plain.now }
{
    schema.views.is_empty()
        && plain.views.is_empty()
        && are_alike(schema.tables.as_slice(), plain.tables.as_slice())
        && has_indexes(schema, &plain.indexes)
}

/// Whether a database was never used.
pub fn is_unused(schema: &Schema) -> bool
    ensures same { IsTrue result → schema.now ≡ no_schema }
    ensures other { result ≡ false → schema.now ≢ no_schema }
{
    schema.tables.is_empty() && schema.indexes.is_empty() && schema.views.is_empty()
}
