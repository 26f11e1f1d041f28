//! The test of a file's schema.

ghost use Rattle.std.specs.Prelude.{◌≡◌, IsTrue, ◌↔◌, ◌≤◌, [], ◌∷◌, length, map, take};
ghost use Rattle.room_tables_schema.specs.declared.schema_tables.TheConstants.{FIRST_INDEXES};
ghost use Rattle.room_tables_schema.specs.declared.schema_tables.TheConstants.{INDEXES};
ghost use Rattle.sqlite_value.specs.Keys.{plain};
ghost use Rattle.room_tables_schema.specs.Schema.{first_schema, first_tables, first_tables_schema};
ghost use Rattle.room_tables_schema.specs.Schema.{indexes_of_first, no_schema, room_indexes};
ghost use Rattle.room_tables_schema.specs.Schema.{room_schema, room_tables, tables_schema};
ghost use Rattle.room_tables_schema.specs.Versions.{BeginsAsRoom};
ghost use Rattle.room_tables_schema.specs.Forms.{column_as, index_as, indexes_as, table_as};
ghost use Rattle.room_tables_schema.specs.Forms.{tables_as};
ghost use Rattle.room_tables_schema.specs.BareTables.{IsBare, HasKey};

use crate::forms::{ColumnForm, IndexForm, TableForm};
use crate::schema_tables::{
    FIRST_INDEXES, FIRST_KEY_INDEXES, FIRST_TABLES, INDEXES, KEY_INDEXES, META, TABLES,
};
use sqlite_items::Items;
use sqlite_schema::code::Terms;
use sqlite_schema::schema::{Column, Index, Schema, Stamps, Table};
use sqlite_value::keys::{Collation, Order};
use sqlite_value::value::Value;

/// Whether a schema has nothing: no table, no index, no view and no object that SQL doesn't reach.
pub fn is_empty(schema: &Schema) -> bool
    ensures { IsTrue result ↔ (schema.now ≡ no_schema) }
{
    schema.tables.is_empty() && schema.indexes.is_empty() && schema.views.is_empty()
}

/// Whether a schema is that of a room, with its indexes.
pub fn is_room(schema: &Schema) -> bool
    ensures { IsTrue result ↔ (schema.now ≡ room_schema) }
{
    has_room_objects(schema, INDEXES.len())
}

/// Whether a schema is that of a room's tables, with no index but those of their keys.
pub fn has_only_tables(schema: &Schema) -> bool
    ensures { IsTrue result ↔ (schema.now ≡ tables_schema) }
{
    has_room_objects(schema, KEY_INDEXES)
}

/// Whether a schema is that of a room of the first version, with its indexes.
pub fn is_first(schema: &Schema) -> bool
    ensures { IsTrue result ↔ (schema.now ≡ first_schema) }
{
    has_first_objects(schema, FIRST_INDEXES.len())
}

/// Whether a schema is that of the first version's tables, with no index but those of their keys.
pub fn has_only_first_tables(schema: &Schema) -> bool
    ensures { IsTrue result ↔ (schema.now ≡ first_tables_schema) }
{
    has_first_objects(schema, FIRST_KEY_INDEXES)
}

/// Whether a schema begins as that of a room does, of this version or another: with the table
/// `meta`, and with no view.
pub fn begins_as_room(schema: &Schema) -> bool
    ensures { IsTrue result ↔ BeginsAsRoom schema.now }
{
    match schema.tables.as_slice() {
        [meta, ..] => META.fits(meta) && schema.views.is_empty(),
        [] => false,
    }
}

// Whether a schema has a room's tables, and the first so many of its indexes. The proof of a
// function writes out each constant that it names, so one function names these.
fn has_room_objects(schema: &Schema, count: usize) -> bool
    requires few { count ≤ length INDEXES }
    ensures { IsTrue result
        ↔ (schema.now ≡ record {
          tables = room_tables;
          indexes = take count room_indexes;
          views = [];
        }) }
{
    has_objects(schema, &TABLES, &INDEXES[..count])
}

// The same of the first version.
fn has_first_objects(schema: &Schema, count: usize) -> bool
    requires few { count ≤ length FIRST_INDEXES }
    ensures { IsTrue result
        ↔ (schema.now ≡ record {
          tables = first_tables;
          indexes = take count indexes_of_first;
          views = [];
        }) }
{
    has_objects(schema, &TABLES[..FIRST_TABLES], &FIRST_INDEXES[..count])
}

fn has_objects(schema: &Schema, tables: &[TableForm], indexes: &[IndexForm]) -> bool
    ensures { IsTrue result
        ↔ (schema.now ≡ record {
          tables = tables_as tables.now;
          indexes = indexes_as indexes.now;
          views = [];
        }) }
{
    all_fit(tables, schema.tables.as_slice())
        && all_fit(indexes, schema.indexes.as_slice())
        && schema.views.is_empty()
}

/// What a part of a schema is tested for.
trait TestedForm<T> {
    /// The part that fits.
    ghost meant: { Self → T };

    fn fits(&self, part: &T) -> bool
        ensures { IsTrue result ↔ (part.now ≡ meant self.now) };
}

/// Whether parts fit their forms, one by one, with none missing and none more.
fn all_fit<T, F: TestedForm<T>>(forms: &[F], parts: &[T]) -> bool
    ensures { IsTrue result ↔ (parts.now ≡ map F.meant forms.now) }
{
    if forms.len() != parts.len() {
        return false;
    }
    for (form, part) in forms.iter().zip(parts) {
        if !form.fits(part) {
            return false;
        }
    }
    true
}

impl TestedForm<Table> for TableForm {
    ghost meant = { table_as };

    fn fits(&self, table: &Table) -> bool {
        let (name, tree, key, columns) = self;
        table.name.as_slice() == name.as_bytes()
            && table.tree == *tree
            && all_fit(columns, table.columns.as_slice())
            && has_key(table, key)
            && is_bare(table)
    }
}

impl TestedForm<Index> for IndexForm {
    ghost meant = { index_as };

    fn fits(&self, index: &Index) -> bool {
        let (name, tree, table, places, is_unique) = self;
        index.name.as_slice() == name.as_bytes()
            && index.tree == *tree
            && index.table == *table
            && are(&index.columns, places)
            && is_plain(index.order)
            && index.is_unique == *is_unique
    }
}

impl TestedForm<Column> for ColumnForm {
    ghost meant = { column_as };

    fn fits(&self, column: &Column) -> bool {
        let (name, rule) = self;
        column.name.as_slice() == name.as_bytes()
            && column.kind == rule.kind
            && column.is_strict
            && column.not_null == rule.is_needed
            && matches!(column.default, Value::Null)
            && matches!(column.collation, Collation::Binary)
    }
}

/// Whether the key of a table has these places, or is its rowid where there are none.
fn has_key(table: &Table, places: &[usize]) -> bool
    ensures { IsTrue result ↔ HasKey table.now places.now }
{
    if places.is_empty() {
        return table.key == Some(0)
            && are(&table.primary, &[0])
            && table.uniques.is_empty()
            && table.orders.is_empty();
    }
    table.key == None && are(&table.primary, places) && are_one_key(table, places)
}

fn are_one_key(table: &Table, places: &[usize]) -> bool
    ensures { IsTrue result ↔ ((table.now.uniques ≡ places.now ∷ [])
        × (table.now.orders ≡ plain ∷ [])) }
{
    match (table.uniques.as_slice(), table.orders.as_slice()) {
        ([key], [order]) => are(key, places) && is_plain(*order),
        _ => false,
    }
}

fn is_plain(order: Order) -> bool
    ensures { IsTrue result ↔ (order ≡ plain) }
{
    order.digits == 0
}

/// Whether a table has no checks, no references, no computed columns and no counter of rowids.
fn is_bare(table: &Table) -> bool
    ensures { IsTrue result ↔ IsBare table.now }
{
    are_none(&table.checks)
        && table.references.is_empty()
        && table.computed.is_empty()
        && has_no_stamps(&table.stamps)
        && !table.is_counted
}

fn has_no_stamps(stamps: &Stamps) -> bool
    ensures { IsTrue result ↔ (stamps.now ≡ record { places = []; terms = []; formats = [] }) }
{
    stamps.places.is_empty() && are_none(&stamps.terms) && stamps.formats.is_empty()
}

fn are_none(terms: &Terms) -> bool
    ensures { IsTrue result ↔ (terms.now ≡ []) }
{
    terms.roots.is_empty()
}

fn are(places: &Items<usize>, wanted: &[usize]) -> bool
    ensures { IsTrue result ↔ (places.now ≡ wanted.now) }
{
    places.as_slice() == wanted
}
