//! The digest of a room that is kept in tables.
ghost use Rattle.std.specs.Prelude.{◌≡◌, ◌<◌, false, List, length, map, IfOk, OnOk};
ghost use Rattle.std.specs.List.{AllByRecursion, flat_map};
ghost use Rattle.sqlite.specs.Held.{state};
ghost use Rattle.sqlite.specs.State.{Survives};
ghost use Rattle.sqlite_value.specs.Order.{Row};
ghost use Rattle.room_model.specs.Room.{Room};
ghost use Rattle.room_tables_rows.specs.RoomsInTables.{Configuration, Stands};
ghost use Rattle.room_tables_schema.specs.FileConnections.{HasRoomSchema, IsClean};
ghost use Rattle.room_tables_schema.specs.Outcomes.{ReadsInside};
ghost use Rattle.room_store_writes.specs.Transactions.{Leaves};
ghost use Rattle.room_store_file.specs.RowHash.{Adds};
ghost use Rattle.room_store_file.specs.WholeTableTexts.{IsKnown, ReadEach, ReadsTable};
ghost use Rattle.room_store_file.specs.DigestTexts.{digest_of, table_text, tables_in};
ghost use Rattle.sqlite_trees.specs.Tree.{Trees};

use crate::row_hash::add_rows;
use room_model::digests::Version;
use room_tables::connection_lemmas::lemma_committed;
use room_tables_rows::area_sql::ALL_AREAS;
use room_tables_rows::assignment_sql::ALL_ASSIGNMENTS;
use room_tables_rows::call_sql::ALL_CALLS;
use room_tables_rows::division_sql::ALL_DIVISIONS;
use room_tables_rows::incident_sql::ALL_INCIDENTS;
use room_tables_rows::loan_sql::ALL_LOANS;
use room_tables_rows::meta_sql::ALL_META;
use room_tables_rows::offer_sql::ALL_OFFERS;
use room_tables_rows::point_sql::ALL_POINTS;
use room_tables_rows::report_sql::ALL_REPORTS;
use room_tables_rows::terminal_sql::ALL_TERMINALS;
use room_tables_rows::turn_sql::ALL_TURNS;
use room_tables_rows::vehicle_sql::ALL_VEHICLES;
use room_tables_schema::database_faults::Fault;
use room_tables_schema::queries::select_inside;
use sha2::{Digest, Sha256};
use sqlite::{Alter, Connection, Transaction};

// Selects all rows of each table, the tables in the order in which they are made. The first is that
// of the zone.
const WHOLE_TABLES: [&str; 13] = [
    ALL_META,
    ALL_AREAS,
    ALL_TERMINALS,
    ALL_DIVISIONS,
    ALL_INCIDENTS,
    ALL_CALLS,
    ALL_VEHICLES,
    ALL_TURNS,
    ALL_ASSIGNMENTS,
    ALL_POINTS,
    ALL_LOANS,
    ALL_REPORTS,
    ALL_OFFERS,
];

/// The digest of this version of a room, read in a transaction that is undone. All stays as it was,
/// but that a fault may have shut the connection.
pub fn digest_in<S: Alter>(conn: &mut Connection<S>, version: Version) -> Result<[u8; 32], Fault>
    requires room { HasRoomSchema S.Store conn.old }
    requires outside { conn.old.in_transaction ≡ false }
    ensures digest { IsClean S.Store conn.new
        → IfOk result (λ digest. (config : Configuration) (room : Room)
        → Stands (state S.Store conn.old).now.trees config room
        → digest ≡ digest_of version config.zone config.terminals room) }
    ensures leaves { IsClean S.Store conn.new
        → Leaves (state S.Store conn.old) (state S.Store conn.new) }
    ensures ended { conn.new.in_transaction ≡ false }
    ensures survives { Survives (state S.Store conn.old) (state S.Store conn.new) (λ _. ⊥) }
{
    lemma_committed(conn);
    let mut tx = conn.transaction();
    let digest = digest_inside(&mut tx, version);
    tx.rollback();
    digest
}

/// The digest of this version of a room as a transaction sees it: the SHA-256 of its rows, table by
/// table. Two tables are never in memory at once.
pub fn digest_inside<S: Alter>(
    tx: &mut Transaction<'_, S>,
    version: Version,
) -> Result<[u8; 32], Fault>
    requires room { HasRoomSchema S.Store tx.old.conn.now }
    ensures same_reference { tx.new.conn.ghost_name ≡ tx.old.conn.ghost_name }
    ensures digest { IsClean S.Store tx.new.conn.now
        → IfOk result (λ digest. (config : Configuration) (room : Room)
        → Stands (state S.Store tx.old.conn.now).now.trees config room
        → digest ≡ digest_of version config.zone config.terminals room) }
    ensures reads { ReadsInside S.Store tx.old.conn.now tx.new.conn.now result }
{
    let mut hasher = Sha256::new();
    add_tables(tx, &mut hasher, texts_of(version))?;
    Ok(hasher.finalize())
}

// The texts that select the rows of which a digest is. That of the first version leaves the zone
// out.
fn texts_of(version: Version) -> &'static [&'static str]
    ensures known { AllByRecursion IsKnown (map (λ text. text.now) result.now) }
    ensures some { 0 < length result.now }
    ensures read { (trees : Trees) (config : Configuration) (room : Room) → Stands trees config room
        → ReadEach (map (λ text. text.now) result.now) trees
        (tables_in version config.zone config.terminals room) }
{
    match version {
        Version::First => &WHOLE_TABLES[1..],
        Version::Second => &WHOLE_TABLES,
    }
}

// Adds the rows of several tables, by the texts that select them.
fn add_tables<S: Alter>(
    tx: &mut Transaction<'_, S>,
    hasher: &mut Sha256,
    texts: &[&str],
) -> Result<(), Fault>
    requires room { HasRoomSchema S.Store tx.old.conn.now }
    requires known { AllByRecursion IsKnown (map (λ text. text.now) texts.now) }
    requires some { 0 < length texts.now }
    ensures same_reference { tx.new.conn.ghost_name ≡ tx.old.conn.ghost_name }
    ensures rows { IsClean S.Store tx.new.conn.now
        → OnOk result ((tables : List (List Row))
        → ReadEach (map (λ text. text.now) texts.now) (state S.Store tx.old.conn.now).now.trees
        tables
        → Adds hasher.old hasher.new (flat_map table_text tables)) }
    ensures reads { ReadsInside S.Store tx.old.conn.now tx.new.conn.now result }
{
    for text in texts {
        add_table(tx, hasher, text)?;
    }
    Ok(())
}

// Adds the rows of a table, by the text that selects them.
fn add_table<S: Alter>(
    tx: &mut Transaction<'_, S>,
    hasher: &mut Sha256,
    text: &str,
) -> Result<(), Fault>
    requires room { HasRoomSchema S.Store tx.old.conn.now }
    requires known { IsKnown text.now }
    ensures same_reference { tx.new.conn.ghost_name ≡ tx.old.conn.ghost_name }
    ensures rows { IsClean S.Store tx.new.conn.now
        → OnOk result ((rows : List Row)
        → ReadsTable text.now (state S.Store tx.old.conn.now).now.trees rows
        → Adds hasher.old hasher.new (table_text rows)) }
    ensures reads { ReadsInside S.Store tx.old.conn.now tx.new.conn.now result }
{
    let shown = select_inside(tx, text, &[])?;
    add_rows(hasher, shown.as_slice());
    Ok(())
}
