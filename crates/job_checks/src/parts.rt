//! Parts of a schema that are compared.

ghost use Rattle.std.specs.Prelude.{◌≡◌, ◌↔◌, [], IsTrue, ⊤};
ghost use Rattle.job_checks.specs.Schemas.{HasNoTerms};

use crate::alike::{Part, first_unlike};
use sqlite_items::Items;
use sqlite_schema::code::{Terms, lend_value};
use sqlite_schema::schema::{Column, Index, Reference, Stamps, Table};
use sqlite_value::keys::Order;
use sqlite_value::order::is_same;
use sqlite_value::value::Bytes;

impl Part for Bytes {
    ghost Is = { λ _. ⊤ };

    fn is_like(&self, other: &Self) -> bool {
        self.as_slice() == other.as_slice()
    }
}

impl Part for Items<usize> {
    ghost Is = { λ _. ⊤ };

    fn is_like(&self, other: &Self) -> bool {
        self.as_slice() == other.as_slice()
    }
}

impl Part for Order {
    ghost Is = { λ _. ⊤ };

    fn is_like(&self, other: &Self) -> bool {
        self.digits == other.digits
    }
}

/// Whether two lists of names are the same.
fn are_names(names: &Items<Bytes>, others: &Items<Bytes>) -> bool
    ensures { IsTrue result ↔ (names.now ≡ others.now) }
{
    first_unlike(names.as_slice(), others.as_slice()).is_none()
}

impl Part for Column {
    ghost Is = { λ _. ⊤ };

    fn is_like(&self, other: &Self) -> bool {
        self.name.as_slice() == other.name.as_slice()
            && self.kind == other.kind
            && self.is_strict == other.is_strict
            && self.not_null == other.not_null
            && is_same(lend_value(&self.default), lend_value(&other.default))
            && self.collation == other.collation
    }
}

impl Part for Reference {
    ghost Is = { λ _. ⊤ };

    fn is_like(&self, other: &Self) -> bool {
        self.columns.as_slice() == other.columns.as_slice()
            && self.parent.as_slice() == other.parent.as_slice()
            && are_names(&self.parent_columns, &other.parent_columns)
            && self.on_delete == other.on_delete
            && self.on_update == other.on_update
            && self.is_deferred == other.is_deferred
    }
}

impl Part for Index {
    ghost Is = { λ _. ⊤ };

    fn is_like(&self, other: &Self) -> bool {
        self.name.as_slice() == other.name.as_slice()
            && self.tree == other.tree
            && self.table == other.table
            && self.columns.as_slice() == other.columns.as_slice()
            && self.order == other.order
            && self.is_unique == other.is_unique
    }
}

/// Whether these are no expressions.
fn is_empty(terms: &Terms) -> bool
    ensures { IsTrue result ↔ (terms.now ≡ []) }
{
    terms.roots.is_empty()
}

/// Whether two lists of columns are the same.
fn are_columns(columns: &Items<Column>, others: &Items<Column>) -> bool
    ensures { IsTrue result ↔ (columns.now ≡ others.now) }
{
    first_unlike(columns.as_slice(), others.as_slice()).is_none()
}

/// Whether two lists of keys are the same.
fn are_keys(keys: &Items<Items<usize>>, others: &Items<Items<usize>>) -> bool
    ensures { IsTrue result ↔ (keys.now ≡ others.now) }
{
    first_unlike(keys.as_slice(), others.as_slice()).is_none()
}

/// Whether two lists of orders are the same.
fn are_orders(orders: &Items<Order>, others: &Items<Order>) -> bool
    ensures { IsTrue result ↔ (orders.now ≡ others.now) }
{
    first_unlike(orders.as_slice(), others.as_slice()).is_none()
}

/// Whether two lists of references are the same.
fn are_references(references: &Items<Reference>, others: &Items<Reference>) -> bool
    ensures { IsTrue result ↔ (references.now ≡ others.now) }
{
    first_unlike(references.as_slice(), others.as_slice()).is_none()
}

/// Whether two tables have the same columns, by the same name and in the same tree.
fn have_same_columns(table: &Table, other: &Table) -> bool
    ensures { IsTrue result ↔ ((table.now.name ≡ other.now.name) × (table.now.tree ≡ other.now.tree)
        × (table.now.columns ≡ other.now.columns)) }
{
    table.name.as_slice() == other.name.as_slice()
        && table.tree == other.tree
        && are_columns(&table.columns, &other.columns)
}

/// Whether two tables have the same keys.
fn have_same_keys(table: &Table, other: &Table) -> bool
    ensures { IsTrue result ↔ ((table.now.key ≡ other.now.key)
        × (table.now.primary ≡ other.now.primary) × (table.now.uniques ≡ other.now.uniques)
        × (table.now.orders ≡ other.now.orders)) }
{
    table.key == other.key
        && table.primary.as_slice() == other.primary.as_slice()
        && are_keys(&table.uniques, &other.uniques)
        && are_orders(&table.orders, &other.orders)
}

/// Whether two tables refer to the same tables, and both count their rowids or neither does.
fn have_same_references(table: &Table, other: &Table) -> bool
    ensures { IsTrue result ↔ ((table.now.references ≡ other.now.references)
        × (table.now.is_counted ≡ other.now.is_counted)) }
{
    are_references(&table.references, &other.references) && table.is_counted == other.is_counted
}

/// Whether two tables have the same defaults that read the time, and these are no expressions.
fn have_same_stamps(stamps: &Stamps, other: &Stamps) -> bool
    ensures { IsTrue result ↔ ((stamps.now ≡ other.now) × (other.now.terms ≡ [])) }
{
    stamps.places.as_slice() == other.places.as_slice()
        && is_empty(&stamps.terms)
        && is_empty(&other.terms)
        && are_names(&stamps.formats, &other.formats)
}

/// Whether two tables have the same rules and defaults, and none is an expression.
fn have_same_rules(table: &Table, other: &Table) -> bool
    ensures { IsTrue result ↔ ((table.now.checks ≡ other.now.checks) × (other.now.checks ≡ [])
        × (table.now.computed ≡ other.now.computed)
        × (table.now.stamps ≡ other.now.stamps) × (other.now.stamps.terms ≡ [])) }
{
    is_empty(&table.checks)
        && is_empty(&other.checks)
        && table.computed.as_slice() == other.computed.as_slice()
        && have_same_stamps(&table.stamps, &other.stamps)
}

impl Part for Table {
    ghost Is = { HasNoTerms };

    fn is_like(&self, other: &Self) -> bool {
        have_same_columns(self, other)
            && have_same_keys(self, other)
            && have_same_references(self, other)
            && have_same_rules(self, other)
    }
}
