//! What a database declares, compared with the table of records.
ghost use Rattle.std.specs.Prelude.{◌≡◌, ◌≢◌, ◌<◌, ◌^◌, ◌↔◌, ℕ, [], ◌∷◌, true, false, None, Some, IsTrue, All, IfOk, slice_get};
ghost use Rattle.sqlite_value.specs.Keys.{plain};
ghost use Rattle.sqlite_schema.specs.Names.{same_name, table_named, view_named};
ghost use Rattle.cs_store_sql.specs.Layout.{IsDeclaration};
ghost use Rattle.cs_store_sql.specs.Records.{required, records_table, table_name, IsApart, IsBarred, IsOfKey};

use crate::meaning::are_statements;
use sqlite_schema::names::same_name;
use sqlite_schema::schema::{Column, Index, Kind, Reference, Schema, Stamps, Table, View};
use sqlite_value::keys::{Collation, Order};
use sqlite_value::value::Value;
use std::alloc::{AllocError, Global};

/// What a database declares under the name of the table of records.
#[derive(Clone, Copy, Debug)]
pub enum Declaration {
    /// Nothing has the name.
    Missing,
    /// The table of records.
    Records,
    /// Another table, or a view.
    Other,
    /// What the statements on records cannot read and write: the table of records, if a table refers to it or an index
    /// compares its keys in another way; a table that the database keeps as it is; an index or a trigger.
    Unsupported,
}

/// Returns what the schema declares under the name of the table of records.
pub fn declaration_of(alloc: Global, schema: &Schema) -> Result<Declaration, AllocError>
    ensures { IfOk result (IsDeclaration schema.now) }
{
    let Some(index) = schema.table_named(b"rec") else {
        return Ok(without_table(schema));
    };
    match schema.tables.get(index) {
        Some(table) => declared_at(alloc, schema, index, table),
        None => unreachable!(),
    }
}

/// Returns what a database declares that has this table at this index, with the name of the table of records.
fn declared_at(
    alloc: Global,
    schema: &Schema,
    index: usize,
    table: &Table,
) -> Result<Declaration, AllocError>
    requires named { table_named schema.now table_name ≡ Some index }
    requires there { slice_get schema.now.tables index ≡ Some table.now }
    ensures { IfOk result (IsDeclaration schema.now) }
{
    if !is_declared_as_records(table) {
        return Ok(Declaration::Other);
    }
    if !is_apart(schema, table.tree) {
        return Ok(Declaration::Unsupported);
    }
    if are_statements(alloc, schema, index, table.tree)? {
        Ok(Declaration::Records)
    } else {
        Ok(Declaration::Unsupported)
    }
}

/// Returns what a database declares that has no table with the name of the table of records.
fn without_table(schema: &Schema) -> Declaration
    requires { table_named schema.now table_name ≡ None }
    ensures { IsDeclaration schema.now result }
{
    if schema.index_named(b"rec").is_some() {
        return Declaration::Unsupported;
    }
    let Some(at) = schema.view_named(b"rec") else {
        return Declaration::Missing;
    };
    match schema.views.get(at) {
        Some(view) => declared_by(schema, at, view),
        None => unreachable!(),
    }
}

/// Returns what a database declares that has this view at this index, with the name of the table of records.
fn declared_by(schema: &Schema, at: usize, view: &View) -> Declaration
    requires lacks { table_named schema.now table_name ≡ None }
    requires named { view_named schema.now table_name ≡ Some at }
    requires there { slice_get schema.now.views at ≡ Some view.now }
    ensures { IsDeclaration schema.now result }
{
    match view.foreign {
        Some(_) => Declaration::Unsupported,
        None => Declaration::Other,
    }
}

/// Returns whether the table with this tree is stored and shares it with no other, no table refers to it, and indexes
/// compare the keys of its rows by their bytes.
fn is_apart(schema: &Schema, tree: u32) -> bool
    ensures apart { IsTrue result → (tree < 2 ^ 31) × All (IsApart tree) schema.now.tables
        × All (IsOfKey tree) schema.now.indexes }
    ensures barred { (index : ℕ) → result ≡ false → IsBarred schema.now index tree }
{
    // Trees from 2^31 on are computed by a statement.
    tree < 0x8000_0000
        && are_tables_apart(schema.tables.as_slice(), tree)
        && are_of_key(schema.indexes.as_slice(), tree)
}

fn are_tables_apart(tables: &[Table], tree: u32) -> bool
    ensures { IsTrue result ↔ All (IsApart tree) tables.now }
{
    for table in tables {
        if !is_table_apart(table, tree) {
            return false;
        }
    }
    true
}

fn is_table_apart(table: &Table, tree: u32) -> bool
    ensures { IsTrue result ↔ IsApart tree table.now }
{
    (table.is_named(b"rec") || table.tree != tree) && refers_elsewhere(table.references.as_slice())
}

/// Whether no key refers to the table of records.
fn refers_elsewhere(keys: &[Reference]) -> bool
    ensures { IsTrue result ↔ All (λ key. same_name key.parent table_name ≡ false) keys.now }
{
    for key in keys {
        if same_name(key.parent.as_slice(), b"rec") {
            return false;
        }
    }
    true
}

/// Whether indexes compare the keys of rows of the table with this tree by their bytes.
fn are_of_key(indexes: &[Index], tree: u32) -> bool
    ensures { IsTrue result ↔ All (IsOfKey tree) indexes.now }
{
    for index in indexes {
        if !is_of_key(index, tree) {
            return false;
        }
    }
    true
}

fn is_of_key(index: &Index, tree: u32) -> bool
    ensures { IsTrue result ↔ IsOfKey tree index.now }
{
    !index.is_unique
        || index.table != tree
        || !is_record_key(index.columns.as_slice())
        || is_plain(index.order)
}

/// Whether the table is declared as that of records, wherever its rows are kept.
fn is_declared_as_records(table: &Table) -> bool
    ensures { IsTrue result ↔ (table.now ≡ records_table table.now.tree) }
{
    table.name.as_slice() == b"rec".as_slice()
        && are_record_columns(table.columns.as_slice())
        && has_record_keys(table)
        && has_no_rules(table)
}

fn are_record_columns(columns: &[Column]) -> bool
    ensures { IsTrue result ↔ (columns.now ≡ (records_table 0).columns) }
{
    let [tab, key, row] = columns else {
        return false;
    };
    is_required(tab, b"tab", Kind::Text)
        && is_required(key, b"keyb", Kind::Blob)
        && is_required(row, b"rowb", Kind::Blob)
}

fn is_required(column: &Column, name: &[u8], kind: Kind) -> bool
    ensures { IsTrue result ↔ (column.now ≡ required name.now kind) }
{
    column.name.as_slice() == name
        && column.kind == kind
        && column.is_strict
        && column.not_null
        && matches!(column.default, Value::Null)
        && column.collation == Collation::Binary
}

/// Whether the key is that of the table of records, and nothing else is to be unique.
fn has_record_keys(table: &Table) -> bool
    ensures { IsTrue result ↔ ((table.now.key ≡ None) × (table.now.primary ≡ (records_table 0).primary)
        × (table.now.uniques ≡ (records_table 0).uniques) × (table.now.orders ≡ (records_table 0).orders)) }
{
    let [unique] = table.uniques.as_slice() else {
        return false;
    };
    let [order] = table.orders.as_slice() else {
        return false;
    };
    table.key.is_none()
        && is_record_key(table.primary.as_slice())
        && is_record_key(unique.as_slice())
        && is_plain(*order)
}

fn is_record_key(places: &[usize]) -> bool
    ensures { IsTrue result ↔ (places.now ≡ (records_table 0).primary) }
{
    places == [1, 2].as_slice()
}

fn is_plain(order: Order) -> bool
    ensures { IsTrue result ↔ (order ≡ plain) }
{
    order.digits == 0
}

/// Whether there is no check, no reference, no default that is computed and no counter.
fn has_no_rules(table: &Table) -> bool
    ensures { IsTrue result ↔ ((table.now.checks ≡ []) × (table.now.references ≡ [])
        × (table.now.computed ≡ []) × (table.now.stamps ≡ (records_table 0).stamps)
        × (table.now.is_counted ≡ false)) }
{
    table.checks.roots.is_empty()
        && table.references.is_empty()
        && table.computed.is_empty()
        && is_unstamped(&table.stamps)
        && !table.is_counted
}

fn is_unstamped(stamps: &Stamps) -> bool
    ensures { IsTrue result ↔ (stamps.now ≡ (records_table 0).stamps) }
{
    stamps.places.is_empty() && stamps.terms.roots.is_empty() && stamps.formats.is_empty()
}
