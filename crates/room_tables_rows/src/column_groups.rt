//! Values of a row that stand in its columns side by side.

ghost use Rattle.std.specs.Prelude.{◌≡◌, ◌+◌, ◌≤◌, ◌==◌, true, Bool, List, [], ◌∷◌, length};
ghost use Rattle.std.specs.Prelude.{is_some, IfSome};
ghost use Rattle.sqlite_value.specs.Order.{Row as Cells};
ghost use Rattle.sqlite_value.specs.declared.value.Value.{Value};
ghost use Rattle.room_tables_schema.proofs.ColumnValues.{columns_from};
ghost use Rattle.room_tables_rows.specs.ReadableColumns.{all_stand};
ghost use Rattle.room_tables_rows.specs.declared.stored_rows.TheConstants.{WIDEST};

use crate::column_values::{Field, value_at};
use sqlite::Row;

/// Values that stand side by side: one, and those after it, to the end `()`.
pub(crate) trait Fields: Sized {
    ghost cells: { Self → Cells };

    /// Whether each of the columns stands for a value of its type.
    ghost stand: { List (Value → Bool) };

    /// The values of the columns from one on; none where one stands for no value of its type.
    fn read_from(row: &Row, at: usize) -> Option<Self>
        requires { at + length stand ≤ WIDEST }
        ensures values { IfSome result (λ x. cells x ≡ columns_from at (length stand) row.now) }
        ensures has_all { is_some result ≡ all_stand true stand row.now at };
}

impl Fields for () {
    ghost cells = { λ _. [] };

    ghost stand = { [] };

    fn read_from(_row: &Row, _at: usize) -> Option<()> {
        Some(())
    }
}

impl<F: Field + Copy, R: Fields> Fields for (F, R) {
    ghost cells = { λ x. F.stored x.0 ∷ R.cells x.1 };

    ghost stand = { F.stands ∷ R.stand };

    fn read_from(row: &Row, at: usize) -> Option<(F, R)> {
        let first = value_at(row, at)?;
        let rest = R::read_from(row, at + 1)?;
        Some((first, rest))
    }
}

/// The values of a row of this width; none where a column stands for no value of its type.
pub(crate) fn values_of<T: Fields>(row: &Row, width: usize) -> Option<T>
    requires width { length T.stand ≡ width }
    requires narrow { width ≤ WIDEST }
    ensures values { IfSome result (λ x. T.cells x ≡ row.now) }
    ensures has_all { is_some result ≡ all_stand (length row.now == width) T.stand row.now 0 }
{
    if row.column_count() == width {
        T::read_from(row, 0)
    } else {
        None
    }
}
