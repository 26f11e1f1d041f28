//! Rows in key order, kept in memory.
ghost use Rattle.std.specs.Prelude.{◌≡◌, filter, IfErr, IfOk, OnOk, if◌then◌else◌};
ghost use Rattle.room_tables_schema.specs.declared.database_faults.Fault.TheVariants.{Memory};
ghost use Rattle.room_types.specs.KeyedRows.{drop_row, put_row};

use room_place::plans::DivisionNumber;
use room_tables_schema::database_faults::Fault;
use room_types::rows::{Row, Rows};
use std::alloc::Global;

/// Puts a row in its key's place. The one fault is `Memory`.
pub fn put<R: Row>(rows: &mut Rows<R>, row: &R) -> Result<(), Fault>
    ensures put { OnOk result (rows.new ≡ put_row R.Key.cmp R.key_of rows.old row.now) }
    ensures memory { IfErr result (λ e. e ≡ Memory) }
{
    match rows.put(*row) {
        Ok(_) => Ok(()),
        Err(_) => Err(Fault::Memory),
    }
}

/// Puts a row in its key's place where it is to be, and else takes out the one of its key. So rows
/// stay those of a table that pass a test, when this one is put in the table. The one fault is
/// `Memory`.
pub fn put_if<R: Row>(is_put: bool, rows: &mut Rows<R>, row: &R) -> Result<(), Fault>
    ensures put { OnOk result (rows.new
        ≡ (if is_put then put_row R.Key.cmp R.key_of rows.old row.now
        else drop_row R.Key.cmp R.key_of rows.old (R.key_of row.now))) }
    ensures memory { IfErr result (λ e. e ≡ Memory) }
{
    if is_put {
        return put(rows, row);
    }
    let _ = rows.take(&row.key());
    Ok(())
}

/// The rows that a division owns. The one fault is `Memory`.
pub fn own_rows<R: Row>(
    alloc: Global,
    rows: &Rows<R>,
    division: DivisionNumber,
) -> Result<Rows<R>, Fault>
    ensures rows { IfOk result (λ x. x ≡ filter (R.owned division) rows.now) }
    ensures memory { IfErr result (λ e. e ≡ Memory) }
{
    match rows.owned_by(alloc, division) {
        Ok(own) => Ok(own),
        Err(_) => Err(Fault::Memory),
    }
}
