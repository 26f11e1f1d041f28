//! Rows of one table that were loaded by several reads.
ghost use Rattle.std.specs.Prelude.{◌≡◌, ◌||◌, Bool, List, filter, OnOk, IfErr, IfOk};
ghost use Rattle.room_tables_schema.specs.declared.database_faults.Fault.TheVariants.{Memory};
ghost use Rattle.room_types.specs.KeyedRows.{IsKeyed, listed};

use room_store_cache::cached_rows::put;
use room_tables_schema::database_faults::Fault;
use room_types::rows::{Row, Rows};
use std::alloc::Global;

/// Adds rows of the same table: then there are those that pass the one test or the other. The one
/// fault is `Memory`.
pub fn add_all<R: Row>(rows: &mut Rows<R>, more: &Rows<R>) -> Result<(), Fault>
    ensures either { OnOk result ((table : List R) (first second : R → Bool)
        → IsKeyed R.Key.cmp R.key_of table → rows.old ≡ filter first table
        → more.now ≡ filter second table → rows.new ≡ filter (λ x. first x || second x) table) }
    ensures memory { IfErr result (λ e. e ≡ Memory) }
{
    for row in more.as_slice() {
        put(rows, row)?;
    }
    Ok(())
}

/// The row, where there is one. The one fault is `Memory`.
pub fn listed<R: Row>(alloc: Global, found: Option<R>) -> Result<Rows<R>, Fault>
    ensures rows { IfOk result (λ rows. rows ≡ listed found) }
    ensures memory { IfErr result (λ e. e ≡ Memory) }
{
    let mut rows = Rows::new(alloc);
    if let Some(row) = found {
        put(&mut rows, &row)?;
    }
    Ok(rows)
}
