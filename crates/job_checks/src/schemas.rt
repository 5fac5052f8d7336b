//! The schema of a file, compared with a bureau's.

ghost use Rattle.std.specs.{Prelude.{◌≡◌, ◌↔◌, [], IfOk, IfSome, IsNone}, List.{AllByRecursion}};
ghost use Rattle.ledger_tables.specs.Schema.{bureau_schema};
ghost use Rattle.job_checks.specs.Schemas.{HasNoTerms, IsSame, IsIndexOf, IsTableOf, IsTold, IsViewOf};

use crate::alike::{Unlike, first_unlike};
use ledger_tables::Fault;
use sqlite_items::Items;
use sqlite_schema::schema::{Index, Schema, Table, View};
use sqlite_value::value::Bytes;
use std::alloc::{AllocError, Global};

/// What a file's schema has and a bureau's has not, or lacks of it, by its name.
#[derive(Drop)]
pub enum SchemaDifference {
    /// A table that is none of a bureau's, or has other columns or keys.
    Table(Vec<u8>),
    /// An index that is none of a bureau's.
    Index(Vec<u8>),
    /// A view, or another thing without rows of its own.
    View(Vec<u8>),
    /// A table or an index of a bureau that is not there.
    Lacks(Vec<u8>),
}

/// A copy of a name.
fn copied(alloc: Global, name: &Bytes) -> Result<Vec<u8>, AllocError>
    ensures { IfOk result (λ copy. copy.items ≡ name.now) }
{
    Vec::from_slice(alloc, name.as_slice())
}

/// The first table that is not as in a bureau's schema.
fn other_table(
    alloc: Global,
    tables: &Items<Table>,
    own: &Items<Table>,
) -> Result<Option<SchemaDifference>, AllocError>
    ensures none { IfOk result (λ other. IsNone other
        ↔ ((tables.now ≡ own.now) × AllByRecursion HasNoTerms own.now)) }
    ensures told { IfOk result (λ other. IfSome other (IsTableOf tables.now own.now)) }
{
    match first_unlike(tables.as_slice(), own.as_slice()) {
        None => Ok(None),
        Some(Unlike::Has(table)) => Ok(Some(SchemaDifference::Table(copied(alloc, &table.name)?))),
        Some(Unlike::Misses(table)) => Ok(Some(SchemaDifference::Lacks(copied(
            alloc,
            &table.name,
        )?))),
    }
}

/// The first index that is not as in a bureau's schema.
fn other_index(
    alloc: Global,
    indexes: &Items<Index>,
    own: &Items<Index>,
) -> Result<Option<SchemaDifference>, AllocError>
    ensures none { IfOk result (λ other. IsNone other ↔ (indexes.now ≡ own.now)) }
    ensures told { IfOk result (λ other. IfSome other (IsIndexOf indexes.now own.now)) }
{
    match first_unlike(indexes.as_slice(), own.as_slice()) {
        None => Ok(None),
        Some(Unlike::Has(index)) => Ok(Some(SchemaDifference::Index(copied(alloc, &index.name)?))),
        Some(Unlike::Misses(index)) => Ok(Some(SchemaDifference::Lacks(copied(
            alloc,
            &index.name,
        )?))),
    }
}

/// The first view, if there is one.
fn first_view(alloc: Global, views: &Items<View>) -> Result<Option<SchemaDifference>, AllocError>
    ensures none { IfOk result (λ other. IsNone other ↔ (views.now ≡ [])) }
    ensures told { IfOk result (λ other. IfSome other (IsViewOf views.now)) }
{
    match views.as_slice().first() {
        None => Ok(None),
        Some(view) => Ok(Some(SchemaDifference::View(copied(alloc, &view.name)?))),
    }
}

/// How a schema first differs from a bureau's own, if it does.
pub(crate) fn find_other(
    alloc: Global,
    schema: &Schema,
    own: &Schema,
) -> Result<Option<SchemaDifference>, AllocError>
    ensures none { IfOk result (λ other. own.now.views ≡ []
        → IsNone other ↔ IsSame schema.now own.now) }
    ensures told { IfOk result (λ other. IfSome other (IsTold schema.now own.now)) }
{
    if let Some(other) = other_table(alloc, &schema.tables, &own.tables)? {
        return Ok(Some(other));
    }
    if let Some(other) = other_index(alloc, &schema.indexes, &own.indexes)? {
        return Ok(Some(other));
    }
    first_view(alloc, &schema.views)
}

/// How a file's schema first differs from a bureau's `own`, if it does. Fails with 1 if there is no
/// memory.
pub(crate) fn compare_schema(
    alloc: Global,
    schema: &Schema,
    own: &Schema,
) -> Result<Option<SchemaDifference>, Fault>
    requires { own.now ≡ bureau_schema }
    ensures none { IfOk result (λ it. IsNone it ↔ (schema.now ≡ bureau_schema)) }
    ensures told { IfOk result (λ it. IfSome it (IsTold schema.now bureau_schema)) }
{
    let found = find_other(alloc, schema, own)?;
    Ok(found)
}
