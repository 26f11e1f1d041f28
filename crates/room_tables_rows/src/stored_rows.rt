//! The rows of a table as a statement takes them: their columns, and the columns of their keys.

ghost use Rattle.std.specs.Prelude.{◌≡◌, ◌≤◌, length, take};
ghost use Rattle.sqlite.specs.Values.{bound};
ghost use Rattle.sqlite_value.specs.Order.{Row as Cells};
ghost use Rattle.room_tables_rows.specs.declared.stored_rows.TheConstants.{WIDEST};

use crate::column_values::Stored;
use room_types::rows::Row;
use sqlite_value::value::ValueRef;
use std::marker::Model;

// The width of the widest table, that of calls.
const WIDEST: usize = 14;

/// Values in columns, as a statement takes them. A contract sees what they store.
#[derive(Drop)]
pub struct Columns<'a> {
    values: [ValueRef<'a>; WIDEST],
    count: usize,
}

impl<'a> Model for Columns<'a> {
    ghost Value = { Cells };

    ghost view = { λ c. bound (take c.count c.values) };

    ghost invariant = { λ c. c.count ≤ WIDEST };
}

impl<'a> Columns<'a> {
    /// These values, as many at most as the widest table has columns.
    pub fn of(values: &[ValueRef<'a>]) -> Columns<'a>
        requires { length values.now ≤ WIDEST }
        ensures { result ≡ bound values.now }
    {
        let count = values.len();
        let mut all = [ValueRef::Null; WIDEST];
        all[..count].copy_from_slice(values);
        Columns { values: all, count }
    }

    /// The values, in their order.
    pub fn as_slice(&self) -> &[ValueRef<'a>]
        ensures { bound result.now ≡ self.now }
    {
        &self.values[..self.count]
    }
}

/// A row that is written to a table, and found there by its key.
pub trait StoredRow: Stored + Row {
    ghost key_cells: { Self.Key → Cells };

    /// The columns of the row.
    fn columns(&self) -> Columns<'_>
        ensures { result ≡ Self.cells self.now };

    /// The columns of a key.
    fn key_columns(key: &Self::Key) -> Columns<'_>
        ensures { result ≡ key_cells key.now };
}
