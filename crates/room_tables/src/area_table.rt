//! The areas of the plan in their table.

ghost use Rattle.std.specs.Prelude.{◌≡◌, map, IfOk, OnOk, IfErr, []};
ghost use Rattle.sqlite.specs.Held.{state};
ghost use Rattle.room_tables_schema.specs.TableTrees.{AreNumbered};
ghost use Rattle.room_tables_schema.specs.Outcomes.{ReadsInside, WritesInside};
ghost use Rattle.room_tables_rows.specs.AreaSql.{area_row};
ghost use Rattle.room_tables_schema.specs.Schema.{areas_table};
ghost use Rattle.room_tables_schema.specs.FileConnections.{HasRoomSchema, MayWrite, IsClean};
ghost use Rattle.room_tables_rows.specs.RoomsInTables.{StandsFor, numbered};
ghost use Rattle.room_tables_rows.specs.Writes.{AppendsArea};
ghost use Rattle.room_tables_rows.specs.declared.area_sql.TheConstants.{ALL_AREAS, PUT_AREA};
ghost use Rattle.room_tables.specs.Failures.{AreNoPlan, ExplainsWhy, ExplainsWhyUnwritten};
ghost use Rattle.room_tables.specs.Failures.{IfStorage};
ghost use Rattle.room_tables.specs.FoundRows.{Finds};

use crate::statement_runs::run;
use room_place::plans::Area;
use room_tables_rows::area_sql::{ALL_AREAS, PUT_AREA, area_columns};
use room_tables_rows::column_values::Stored;
use room_tables_schema::database_faults::Fault;
use room_tables_schema::queries::select_inside;
use sqlite::{Alter, Row, Transaction};
use std::alloc::Global;

/// The areas of the plan, in its order. Rows that are not numbered from 1 on are `Storage`.
pub fn all_areas<S: Alter>(alloc: Global, tx: &mut Transaction<'_, S>) -> Result<Vec<Area>, Fault>
    requires room { HasRoomSchema S.Store tx.old.conn.now }
    ensures areas { Finds S.Store tx.old.conn.now tx.new.conn.now result (λ room areas.
        areas.items ≡ room.plan) }
    ensures found { IsClean S.Store tx.new.conn.now
        → IfOk result (λ areas.
        AreNumbered ((state S.Store tx.old.conn.now).now.trees areas_table.tree)
        → StandsFor (state S.Store tx.old.conn.now).now.trees areas_table area_row
        (numbered 1 areas.items)) }
    ensures reads { ReadsInside S.Store tx.old.conn.now tx.new.conn.now result }
    ensures why { ExplainsWhy S.Store tx.old.conn.now tx.new.conn.now result ALL_AREAS.now []
        (AreNoPlan) }
    ensures same_reference { tx.new.conn.ghost_name ≡ tx.old.conn.ghost_name }
{
    let shown = select_inside(tx, ALL_AREAS, &[])?;
    areas_in(alloc, shown.as_slice())
}

// The areas of rows that are numbered from 1 on.
fn areas_in(alloc: Global, shown: &[Row]) -> Result<Vec<Area>, Fault>
    ensures areas { IfOk result (λ areas. map area_row (numbered 1 areas.items) ≡ shown.now) }
    ensures why { IfErr result (IfStorage (AreNoPlan shown.now)) }
{
    let mut areas = Vec::new(alloc);
    for (index, columns) in shown.iter().enumerate() {
        let Some(numbered) = <(u32, Area)>::read(columns) else {
            return Err(Fault::Storage);
        };
        if numbered.0 as usize != index + 1 {
            return Err(Fault::Storage);
        }
        areas.push(numbered.1)?;
    }
    Ok(areas)
}

/// Puts an area after those of the plan, of which it is the next.
pub fn put_area<S: Alter>(tx: &mut Transaction<'_, S>, at: u32, area: &Area) -> Result<(), Fault>
    requires inside { MayWrite S.Store tx.old.conn.now }
    ensures ok { IsClean S.Store tx.new.conn.now
        → OnOk result (AppendsArea (state S.Store tx.old.conn.now)
        (state S.Store tx.new.conn.now) at area.now) }
    ensures writes { WritesInside S.Store tx.old.conn.now tx.new.conn.now result }
    ensures why { ExplainsWhyUnwritten S.Store tx.old.conn.now tx.new.conn.now result PUT_AREA.now
        (area_row (at, area.now)) }
    ensures same_reference { tx.new.conn.ghost_name ≡ tx.old.conn.ghost_name }
{
    run(tx, PUT_AREA, &area_columns(at, area))
}
