//! The version and the zone of the room in their table.

ghost use Rattle.std.specs.Prelude.{◌≡◌, ◌↔◌, false, [], ◌∷◌, string_bytes, IsTrue, IfOk, OnOk};
ghost use Rattle.std.specs.Prelude.{IfErr};
ghost use Rattle.sqlite.specs.Held.{state};
ghost use Rattle.room_tables_schema.specs.Outcomes.{ReadsInside, ReadsOnly, WritesInside};
ghost use Rattle.room_tables_rows.specs.MetaSql.{is_meta_row, meta_row, version_row};
ghost use Rattle.room_tables_schema.specs.Definitions.{IsBlank};
ghost use Rattle.room_tables_schema.specs.Schema.{meta_table};
ghost use Rattle.room_tables_schema.specs.Versions.{BeginsAsRoom};
ghost use Rattle.room_tables_schema.specs.FileConnections.{HasRoomSchema, MayWrite, IsClean};
ghost use Rattle.room_tables_rows.specs.RoomsInTables.{Stands, StandsFor, empty_room};
ghost use Rattle.room_tables_rows.specs.MetaVersions.{IsOfVersion, OneShows};
ghost use Rattle.room_tables_rows.specs.Writes.{Changes, RaisesVersion};
ghost use Rattle.room_tables_rows.specs.declared.meta_sql.TheConstants.{ALL_META, PUT_META};
ghost use Rattle.room_tables.specs.Failures.{AreNotJustOne, ExplainsWhy, ExplainsWhyUnwritten};
ghost use Rattle.room_tables.specs.Failures.{IfStorage};

use crate::statement_runs::run;
use room_tables_rows::meta_sql::{
    ALL_META, FIRST_VERSION, PUT_META, has_version, meta_columns, zone_of,
};
use room_tables_schema::database_faults::Fault;
use room_tables_schema::queries::{select, select_inside};
use sqlite::{Alter, Connection, Row, Transaction};
use std::alloc::Global;

/// The zone in which the days of the room begin, of tables that give this version. Anything but one
/// row of it is `Storage`.
pub fn zone<S: Alter>(
    alloc: Global,
    tx: &mut Transaction<'_, S>,
    version: u32,
) -> Result<String, Fault>
    requires room { HasRoomSchema S.Store tx.old.conn.now }
    ensures found { IsClean S.Store tx.new.conn.now
        → IfOk result (λ zone. StandsFor (state S.Store tx.old.conn.now).now.trees meta_table
        (version_row version) (string_bytes zone ∷ [])) }
    ensures reads { ReadsInside S.Store tx.old.conn.now tx.new.conn.now result }
    ensures why { ExplainsWhy S.Store tx.old.conn.now tx.new.conn.now result ALL_META.now []
        (AreNotJustOne (is_meta_row version)) }
    ensures same_reference { tx.new.conn.ghost_name ≡ tx.old.conn.ghost_name }
{
    let shown = select_inside(tx, ALL_META, &[])?;
    zone_in(alloc, shown.as_slice(), version)
}

/// Whether `meta` has one row, and it gives this version. Of the other tables nothing is read.
pub fn is_of_version<S: Alter>(conn: &mut Connection<S>, version: u32) -> Result<bool, Fault>
    requires { IsClean S.Store conn.old
        → BeginsAsRoom (state S.Store conn.old).now.schema }
    ensures version { IsClean S.Store conn.new
        → IfOk result (λ yes. IsTrue yes ↔ IsOfVersion version (state S.Store conn.old).now.trees) }
    ensures reads { ReadsOnly S.Store conn.old conn.new result }
    ensures why { ExplainsWhy S.Store conn.old conn.new result ALL_META.now [] (λ _. ⊥) }
{
    let shown = select(conn, ALL_META, &[])?;
    Ok(one_shows(shown.as_slice(), version))
}

// Whether there is one row, and it gives this version.
fn one_shows(shown: &[Row], version: u32) -> bool
    ensures { IsTrue result ↔ OneShows version shown.now }
{
    match shown {
        [] => false,
        [row] => has_version(row, version),
        [_, _, ..] => false,
    }
}

// The zone of the one row.
fn zone_in(alloc: Global, shown: &[Row], version: u32) -> Result<String, Fault>
    ensures zone { IfOk result (λ zone. version_row version (string_bytes zone) ∷ [] ≡ shown.now) }
    ensures why { IfErr result (IfStorage (AreNotJustOne (is_meta_row version) shown.now)) }
{
    match shown {
        [row] => match zone_of(row, version) {
            Some(zone) => Ok(String::from_str(alloc, zone)?),
            None => Err(Fault::Storage),
        },
        _ => Err(Fault::Storage),
    }
}

/// Puts the version of these tables and a zone. In tables without rows this makes a room without
/// rows.
pub fn put_meta<S: Alter>(tx: &mut Transaction<'_, S>, zone: &str) -> Result<(), Fault>
    requires inside { MayWrite S.Store tx.old.conn.now }
    ensures ok { IsClean S.Store tx.new.conn.now
        → OnOk result (Changes (state S.Store tx.old.conn.now) (state S.Store tx.new.conn.now)
        (λ config. record config { zone = zone.now }) (λ room. room)) }
    ensures begun { IsClean S.Store tx.new.conn.now
        → OnOk result (IsBlank (state S.Store tx.old.conn.now).now.trees
        → Stands (state S.Store tx.new.conn.now).now.trees
        (record { zone = zone.now; terminals = [] }) empty_room) }
    ensures renews { IsClean S.Store tx.new.conn.now
        → OnOk result (StandsFor (state S.Store tx.old.conn.now).now.trees meta_table
        (version_row 1) (zone.now ∷ [])
        → RaisesVersion (state S.Store tx.old.conn.now) (state S.Store tx.new.conn.now)) }
    ensures writes { WritesInside S.Store tx.old.conn.now tx.new.conn.now result }
    ensures why { ExplainsWhyUnwritten S.Store tx.old.conn.now tx.new.conn.now result PUT_META.now
        (meta_row zone.now) }
    ensures same_reference { tx.new.conn.ghost_name ≡ tx.old.conn.ghost_name }
{
    run(tx, PUT_META, &meta_columns(zone))
}

/// Records this version where the tables give the first, with the zone that they gave.
pub fn update_version<S: Alter>(alloc: Global, tx: &mut Transaction<'_, S>) -> Result<(), Fault>
    requires inside { MayWrite S.Store tx.old.conn.now }
    ensures ok { IsClean S.Store tx.new.conn.now
        → OnOk result (RaisesVersion (state S.Store tx.old.conn.now)
        (state S.Store tx.new.conn.now)) }
    ensures writes { WritesInside S.Store tx.old.conn.now tx.new.conn.now result }
    ensures same_reference { tx.new.conn.ghost_name ≡ tx.old.conn.ghost_name }
{
    let zone = zone(alloc, tx, FIRST_VERSION)?;
    put_meta(tx, zone.as_str())
}
