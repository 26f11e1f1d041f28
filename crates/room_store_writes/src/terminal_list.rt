//! The terminals of a room, listed.
ghost use Rattle.std.specs.Prelude.{◌≡◌, false, IfOk};
ghost use Rattle.sqlite.specs.Held.{state};
ghost use Rattle.sqlite.specs.State.{Survives};
ghost use Rattle.room_model.specs.Room.{Room};
ghost use Rattle.room_tables_rows.specs.RoomsInTables.{Configuration, Stands};
ghost use Rattle.room_tables_schema.specs.FileConnections.{HasRoomSchema, IsClean};
ghost use Rattle.room_store_writes.specs.Transactions.{Leaves};

use room_tables::connection_lemmas::lemma_committed;
use room_tables::terminal_table::all_terminals;
use room_tables_schema::database_faults::Fault;
use room_types::fleet::Terminal;
use sqlite::{Alter, Connection};
use std::alloc::Global;

/// All terminals of a room, in the order of their tokens, read in a transaction that is undone. All
/// stays as it was, but that a fault may have shut the connection.
pub fn list<S: Alter>(alloc: Global, conn: &mut Connection<S>) -> Result<Vec<Terminal>, Fault>
    requires room { HasRoomSchema S.Store conn.old }
    requires outside { conn.old.in_transaction ≡ false }
    ensures terminals { IsClean S.Store conn.new
        → IfOk result (λ terminals. (config : Configuration) (room : Room)
        → Stands (state S.Store conn.old).now.trees config room
        → terminals.items ≡ config.terminals) }
    ensures leaves { IsClean S.Store conn.new
        → Leaves (state S.Store conn.old) (state S.Store conn.new) }
    ensures ended { conn.new.in_transaction ≡ false }
    ensures survives { Survives (state S.Store conn.old) (state S.Store conn.new) (λ _. ⊥) }
{
    lemma_committed(conn);
    let mut tx = conn.transaction();
    let terminals = all_terminals(alloc, &mut tx);
    tx.rollback();
    terminals
}
