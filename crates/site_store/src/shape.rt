//! Whether a schema is that of a store.
ghost use Rattle.std.specs.Prelude.{◌≡◌, ◌↔◌, IsTrue, [], ◌∷◌, Some, false};
ghost use Rattle.site_store.specs.declared.shape.Shape.{Shape};
ghost use Rattle.site_store.specs.Steps.{IsStoreSchema, kept_schema, kept_table, no_schema};
ghost use Rattle.site_store.specs.Steps.{row_table, step_column, step_schema, step_table};

use sqlite_schema::schema::{Column, Kind, Schema, Stamps, Table};
use sqlite_value::keys::Collation;
use sqlite_value::value::Value;

// Whether a column is that of a strict table, with this name and kind, with no default and binary collation, and NOT NULL as
// `not_null` says.
fn is_step_column(column: &Column, name: &[u8], kind: Kind, not_null: bool) -> bool
    ensures { IsTrue result ↔ (column.now ≡ step_column name.now kind not_null) }
{
    column.name.as_slice() == name
        && column.kind == kind
        && column.is_strict
        && column.not_null == not_null
        && matches!(column.default, Value::Null)
        && column.collation == Collation::Binary
}

// Whether stamps have nothing.
fn has_no_stamps(stamps: &Stamps) -> bool
    ensures { IsTrue result ↔ (stamps.now ≡ record { places = []; terms = []; formats = [] }) }
{
    stamps.places.is_empty() && stamps.terms.roots.is_empty() && stamps.formats.is_empty()
}

// Whether columns are those of a table of rows.
fn are_row_columns(columns: &[Column]) -> bool
    ensures { IsTrue result ↔ (columns.now ≡ step_table.columns) }
{
    match columns {
        [position, pass, kind, body, words] => {
            is_step_column(position, b"position", Kind::Integer, false)
                && is_step_column(pass, b"pass", Kind::Integer, true)
                && is_step_column(kind, b"kind", Kind::Integer, true)
                && is_step_column(body, b"body", Kind::Blob, true)
                && is_step_column(words, b"words", Kind::Text, true)
        }
        _ => false,
    }
}

// Whether the first column is the key of a table, and the table has no other index or order.
fn is_keyed(table: &Table) -> bool
    ensures key { IsTrue result → table.now.key ≡ Some 0 }
    ensures primary { IsTrue result → table.now.primary ≡ 0 ∷ [] }
    ensures uniques { IsTrue result → table.now.uniques ≡ [] }
    ensures orders { IsTrue result → table.now.orders ≡ [] }
    ensures all { table.now.key ≡ Some 0 → table.now.primary ≡ 0 ∷ [] → table.now.uniques ≡ []
        → table.now.orders ≡ [] → IsTrue result }
{
    table.key == Some(0)
        && table.primary.as_slice() == [0].as_slice()
        && table.uniques.is_empty()
        && table.orders.is_empty()
}

// Whether a table has no checks, references, computed columns, stamps or counter.
fn is_bare(table: &Table) -> bool
    ensures checks { IsTrue result → table.now.checks ≡ [] }
    ensures references { IsTrue result → table.now.references ≡ [] }
    ensures computed { IsTrue result → table.now.computed ≡ [] }
    ensures stamps { IsTrue result
        → table.now.stamps ≡ record { places = []; terms = []; formats = [] } }
    ensures counted { IsTrue result → table.now.is_counted ≡ false }
    ensures all { table.now.checks ≡ [] → table.now.references ≡ [] → table.now.computed ≡ []
        → table.now.stamps ≡ record { places = []; terms = []; formats = [] }
        → table.now.is_counted ≡ false → IsTrue result }
{
    table.checks.roots.is_empty()
        && table.references.is_empty()
        && table.computed.is_empty()
        && has_no_stamps(&table.stamps)
        && !table.is_counted
}

// Whether a table is one of rows, with this name, in this tree.
fn is_row_table(table: &Table, name: &[u8], tree: u32) -> bool
    ensures { IsTrue result ↔ (table.now ≡ row_table name.now tree) }
{
    table.name.as_slice() == name
        && table.tree == tree
        && are_row_columns(table.columns.as_slice())
        && is_keyed(table)
        && is_bare(table)
}

// Whether a table is that of steps.
fn is_step_table(table: &Table) -> bool
    ensures { IsTrue result ↔ (table.now ≡ step_table) }
{
    is_row_table(table, b"step".as_slice(), 0)
}

// Whether a table is that of kept rows.
fn is_kept_table(table: &Table) -> bool
    ensures { IsTrue result ↔ (table.now ≡ kept_table) }
{
    is_row_table(table, b"kept".as_slice(), 1)
}

/// Whether a schema has the table of steps, and nothing else (this project's own).
pub fn is_step_schema(schema: &Schema) -> bool
    ensures { IsTrue result ↔ (schema.now ≡ step_schema) }
{
    match schema.tables.as_slice() {
        [table] => is_step_table(table) && schema.indexes.is_empty() && schema.views.is_empty(),
        _ => false,
    }
}

/// Whether a schema has the tables of steps and of kept rows, and nothing else: the store keeps the rows in whose place a base is put.
pub fn keeps_rows(schema: &Schema) -> bool
    ensures { IsTrue result ↔ (schema.now ≡ kept_schema) }
{
    match schema.tables.as_slice() {
        [steps, kept] => {
            is_step_table(steps)
                && is_kept_table(kept)
                && schema.indexes.is_empty()
                && schema.views.is_empty()
        }
        _ => false,
    }
}

/// Whether a schema is that of a store, which keeps rows or not.
pub fn is_store_schema(schema: &Schema) -> bool
    ensures { IsTrue result ↔ IsStoreSchema schema.now }
{
    is_step_schema(schema) || keeps_rows(schema)
}

/// Whether a schema has nothing.
pub fn is_blank_schema(schema: &Schema) -> bool
    ensures { IsTrue result ↔ (schema.now ≡ no_schema) }
{
    schema.tables.is_empty() && schema.indexes.is_empty() && schema.views.is_empty()
}

// What a database may be: a store, or one without a table.
#[derive(Clone, Copy)]
pub(crate) enum Shape {
    Store,
    Blank,
}

// Whether a schema has this shape.
pub(crate) fn has_shape(schema: &Schema, wanted: Shape) -> bool
    ensures store { wanted ≡ Shape.Store → IsTrue result → IsStoreSchema schema.now }
    ensures blank { wanted ≡ Shape.Blank → IsTrue result → schema.now ≡ no_schema }
{
    match wanted {
        Shape::Store => is_store_schema(schema),
        Shape::Blank => is_blank_schema(schema),
    }
}
