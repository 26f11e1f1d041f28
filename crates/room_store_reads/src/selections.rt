//! How much of a table a request reads, and as much of its rows.
ghost use Rattle.std.specs.Prelude.{◌≡◌, ◌&&◌, filter, IfErr, IfOk};
ghost use Rattle.std.specs.Ordering.{is_eq};
ghost use Rattle.room_types.specs.KeyedRows.{IsKeyed, keep};
ghost use Rattle.room_tables.specs.FoundRows.{Finds};
ghost use Rattle.room_tables_schema.specs.FileConnections.{HasRoomSchema};
ghost use Rattle.room_tables_schema.specs.declared.database_faults.Fault.TheVariants.{Memory};
ghost use Rattle.room_tables_schema.specs.Outcomes.{ReadsOnly};
ghost use Rattle.room_store_reads.specs.Selections.{reaches};

use crate::row_unions::listed;
use room_place::plans::DivisionNumber;
use room_store_cache::cached_rows::own_rows;
use room_tables::room_table::Table;
use room_tables::table_loads::row_at;
use room_tables_schema::database_faults::Fault;
use room_types::rows::{Part, Row, Rows};
use sqlite::{Alter, Connection};
use std::alloc::Global;

/// How many of a division's rows of a table a request reads.
#[derive(Clone, Copy)]
pub enum Selection<K> {
    Nothing,
    /// The row of this key.
    One(K),
    Everything,
}

/// As many of the rows that a division owns: the one of a key is lent. The one fault is `Memory`.
pub fn part_of<'a, R: Row>(
    alloc: Global,
    rows: &'a Rows<R>,
    division: DivisionNumber,
    selection: &Selection<R::Key>,
) -> Result<Part<'a, R>, Fault>
    ensures rows { IfOk result (λ x. IsKeyed R.Key.cmp R.key_of rows.now
        → x ≡ filter (λ y. R.owned division y && reaches R.Key.cmp selection.now (R.key_of y))
        rows.now) }
    ensures memory { IfErr result (λ e. e ≡ Memory) }
{
    match selection {
        Selection::Nothing => Ok(Part::none()),
        Selection::One(key) => Ok(rows.lend(division, key)),
        Selection::Everything => Ok(Part::own(own_rows(alloc, rows, division)?)),
    }
}

/// The row of a key, where the division owns it.
pub fn load_one<R: Table, S: Alter>(
    alloc: Global,
    conn: &mut Connection<S>,
    division: DivisionNumber,
    key: &R::Key,
) -> Result<Rows<R>, Fault>
    requires room { HasRoomSchema S.Store conn.old }
    ensures rows { Finds S.Store conn.old conn.new result (λ room x.
        IsKeyed R.Key.cmp R.key_of (R.rows room)
        → x ≡ filter (λ y. R.owned division y && is_eq (R.Key.cmp key.now (R.key_of y)))
        (R.rows room)) }
    ensures reads { ReadsOnly S.Store conn.old conn.new result }
{
    let found = row_at::<R, S>(conn, key)?;
    listed(alloc, owned_row(found, division))
}

/// The row, where the division owns it.
pub fn owned_row<R: Row>(found: Option<R>, division: DivisionNumber) -> Option<R>
    ensures { result ≡ keep (R.owned division) found }
{
    match found {
        Some(row) if row.owned_by(division) => Some(row),
        _ => None,
    }
}
