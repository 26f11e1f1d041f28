//! A room of the first version made one of this, and opened.
ghost use Rattle.std.specs.Prelude.{◌≡◌, ◌⊎◌, false, List, IfErr, IfOk};
ghost use Rattle.sqlite.specs.Held.{state};
ghost use Rattle.sqlite.specs.State.{Survives};
ghost use Rattle.room_types.specs.declared.fleet.Terminal.{Terminal};
ghost use Rattle.room_model.specs.Room.{Room};
ghost use Rattle.room_tables_schema.specs.Schema.{room_schema};
ghost use Rattle.room_tables_schema.specs.Versions.{HasFirstTables};
ghost use Rattle.room_tables.specs.RoomsInTables.{StandsInFirst};
ghost use Rattle.room_store.specs.StoredRoom.{IsKept, IsReady, IsRoom};
ghost use Rattle.room_store_writes.specs.Configurations.{config_of};
ghost use Rattle.room_store_writes.specs.Transactions.{Leaves};
ghost use Rattle.room_store_file.specs.OpenedFile.{HoldsFirstRoom, IsNewRoom, IsOldRoom};
ghost use Rattle.room_store_file.specs.OpenedFile.{MayBeMoved};
ghost use Rattle.room_store_check_tables.specs.HeldRooms.{WritesNothing};
ghost use Rattle.room_store_file.specs.declared.opened_file.OpenFault.TheVariants.{
  NotARoom,
  OtherVersion,
};
ghost use Rattle.room_tables_schema.specs.FileConnections.{IsClean};

use crate::store::Store;
use room_store_cache::cache::Cache;
use room_store_cache::known_terminals::Terminals;
use room_store_file::migrated_file::migrate_in;
use room_store_file::opened_file::OpenFault;
use sqlite::{Alter, Connection};
use std::alloc::Global;

impl<S: Alter> Store<S> {
    /// Makes a file of the first version, which had no offers, one of this, and opens it. In one
    /// transaction the table of offers and the indexes are made and the version is set; no other
    /// row changes, and the room after is the room before, with no offers. All its rows are read
    /// for that. A fault leaves the file as it was.
    pub fn migrate(
        alloc: Global,
        mut conn: Connection<S>,
    ) -> Result<Store<S>, (OpenFault, Connection<S>)>
        requires outside { conn.in_transaction ≡ false }
        ensures ready { IfOk result (IsReady S.Store) }
        ensures room { IfOk result (λ store. IsClean S.Store store.conn
            → (terminals : List Terminal) × (room : Room) × IsRoom S.Store store terminals room
            × StandsInFirst (state S.Store conn).now.trees (config_of store.plan terminals) room) }
        ensures schema { IfOk result (λ store. IsClean S.Store store.conn
            → (state S.Store store.conn).now.schema ≡ room_schema) }
        ensures kept { IfOk result (λ store. IsClean S.Store store.conn
            → IsKept S.Store store) }
        ensures moved { IfOk result (λ store. IsClean S.Store store.conn
            → MayBeMoved (state S.Store conn).now (state S.Store store.conn).now.trees) }
        ensures old_room { IfOk result (λ store. IsClean S.Store store.conn
            → IsOldRoom (state S.Store conn).now) }
        ensures not_old { IfErr result (λ e. IsClean S.Store e.1
            → (e.0 ≡ OtherVersion → IsNewRoom (state S.Store conn).now)
            × (e.0 ≡ NotARoom → ¬ IsNewRoom (state S.Store conn).now)) }
        ensures no_room { IfErr result (λ e. IsClean S.Store e.1 → e.0 ≡ NotARoom
            → HasFirstTables (state S.Store conn).now.schema
            → ¬ HoldsFirstRoom (state S.Store conn).now.trees) }
        ensures same_fault { IfErr result (λ e. IsClean S.Store e.1
            → Leaves (state S.Store conn) (state S.Store e.1)) }
        ensures untouched { IfErr result (λ e. (e.0 ≡ OtherVersion) ⊎ (e.0 ≡ NotARoom)
            → WritesNothing (state S.Store conn) (state S.Store e.1)) }
        ensures ended { IfErr result (λ e. e.1.in_transaction ≡ false) }
        // What a stop may leave is what it could before, or the room of this version.
        ensures survives { IfOk result (λ store.
            Survives (state S.Store conn) (state S.Store store.conn)
            (MayBeMoved (state S.Store conn).now)) }
        ensures survives_fault { IfErr result (λ e.
            Survives (state S.Store conn) (state S.Store e.1)
            (MayBeMoved (state S.Store conn).now)) }
    {
        match migrate_in(alloc, &mut conn) {
            Ok(plan) => Ok(Store {
                conn,
                plan,
                terminals: Terminals::new(alloc),
                cache: Cache::new(alloc),
                is_sound: true,
            }),
            Err(fault) => Err((fault, conn)),
        }
    }
}
