//! What a table of the room's rows is, and the statements that it has.

ghost use Rattle.std.specs.Prelude.{◌≡◌, List};
ghost use Rattle.sqlite_schema.specs.declared.schema.Table.{Table as SchemaTable};
ghost use Rattle.room_types.specs.declared.changes.Change.{Change};
ghost use Rattle.room_model.specs.Room.{Room};
ghost use Rattle.room_tables_rows.specs.Tables.{IsTable, Texts};

use room_tables_rows::stored_rows::StoredRow;

/// The texts of the statements that every table has.
#[derive(Clone, Copy)]
pub struct Statements {
    /// Selects all rows, in the order of their keys.
    pub all: &'static str,
    /// Selects the row of a key.
    pub at: &'static str,
    /// Puts a row in its key's place.
    pub put: &'static str,
}

/// A table of the room's rows.
///
/// Its law: the schema has the table, the room's rows are what it holds, and its statements say
/// what their names say.
pub trait Table: StoredRow {
    /// The table as the schema has it.
    ghost table: { SchemaTable };

    /// The rows of a room that stand in it.
    ghost rows: { Room → List Self };

    /// The change that a put makes.
    ghost put: { Self → Change };

    ghost texts: { Texts };

    /// Its statements.
    fn statements() -> Statements
        ensures all { result.all.now ≡ texts.all }
        ensures at { result.at.now ≡ texts.at }
        ensures put { result.put.now ≡ texts.put };

    ghost is_table: { IsTable Self.Key.cmp Self.key_of Self.cells Self.key_cells table rows put
        texts };
}
