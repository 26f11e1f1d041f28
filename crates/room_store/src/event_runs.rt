//! Events acted on one after another.
ghost use Rattle.std.specs.Prelude.{◌≡◌, ◌++◌, ◌∷◌, [], List, false, IsTrue, IfErr, OnOk, OnErr};
ghost use Rattle.std.specs.Prelude.{length};
ghost use Rattle.sqlite.specs.Held.{state};
ghost use Rattle.sqlite.specs.State.{Survives};
ghost use Rattle.sqlite_trees.specs.Tree.{Trees};
ghost use Rattle.room_tables_schema.specs.FileConnections.{HasRoomSchema, IsClean, StandsOpen};
ghost use Rattle.room_types.specs.declared.fleet.Terminal.{Terminal as Known};
ghost use Rattle.room_model.specs.Events.{AreAddressed};
ghost use Rattle.room_model.specs.Room.{Room};
ghost use Rattle.room_model.specs.Rooms.{IsUnavailable};
ghost use Rattle.room_model.specs.Step.{IsAddressed, answer_to, room_after};
ghost use Rattle.room_tables.specs.RoomsInTables.{Configuration, Stands};
ghost use Rattle.room_store_writes.specs.Configurations.{config_of};
ghost use Rattle.room_store_writes.specs.Transactions.{Commits, IsSettled, LeavesOnErr};
ghost use Rattle.room_store_cache.specs.Cache.{IsCacheOf, KnowsNothing};
ghost use Rattle.room_store.specs.ActedEvents.{IsFor};
ghost use Rattle.room_store.specs.EventRuns.{HasRun, MayBeRun};
ghost use Rattle.room_store.specs.StoredRoom.{IsReady, IsRoom};

use crate::acted_events::{answered, lemma_numbered};
use crate::store::Store;
use crate::store_faults::refusal_of;
use room_place::plans::Plan;
use room_store_cache::cache::Cache;
use room_store_writes::transactions::write;
use room_tables::connection_lemmas::lemma_committed;
use room_types::answers::Answer;
use room_types::asks::Event;
use room_types::refusal_statuses::Refusal;
use sqlite::{Alter, Connection};
use std::alloc::Global;

/// The machine's answer to an event, or its refusal of it.
pub type Answered = Result<Answer, Refusal>;

impl<S: Alter> Store<S> {
    /// Acts on addressed events in order, and adds the machine's answer to each to `out`. What the
    /// machine refuses is answered so, changes nothing, and the events after it are acted on all
    /// the same.
    ///
    /// It ends at the first event for which memory or storage fails. That one changes nothing;
    /// `out` then holds the answers to those before it.
    pub fn run(
        &mut self,
        alloc: Global,
        events: &[Event],
        out: &mut Vec<Answered>,
    ) -> Result<(), Refusal>
        requires ready { IsReady S.Store self.old }
        ensures ready { IsReady S.Store self.new }
        ensures plan { self.new.plan ≡ self.old.plan }
        ensures known { self.new.terminals ≡ self.old.terminals }
        ensures run { IsClean S.Store self.new.conn
            → (terminals : List Known) (room : Room) → IsRoom S.Store self.old terminals room
            → AreAddressed events.now room
            → (done : HasRun S.Store self.old self.new events.now out.old.items out.new.items
            terminals room) × OnOk result (done.count ≡ length events.now) }
        ensures unavailable { IfErr result IsUnavailable }
        ensures survives { Survives (state S.Store self.old.conn) (state S.Store self.new.conn)
            (MayBeRun S.Store self.old events.now) }
    {
        for event in events {
            match self.answer(alloc, event, out) {
                Ok(()) => {}
                Err(refusal) => return Err(refusal),
            }
        }
        Ok(())
    }

    // Acts on an addressed event, and adds the machine's answer to `out`.
    fn answer(
        &mut self,
        alloc: Global,
        event: &Event,
        out: &mut Vec<Answered>,
    ) -> Result<(), Refusal>
        requires ready { IsReady S.Store self.old }
        ensures ready { IsReady S.Store self.new }
        ensures plan { self.new.plan ≡ self.old.plan }
        ensures known { self.new.terminals ≡ self.old.terminals }
        ensures failed { OnErr result (KnowsNothing self.new.cache) }
        ensures answer { IsClean S.Store self.new.conn
            → OnOk result ((terminals : List Known) (room : Room)
            → IsRoom S.Store self.old terminals room → IsAddressed event.now room
            → out.new.items ≡ out.old.items ++ answer_to event.now room ∷ []) }
        ensures ok { IsClean S.Store self.new.conn
            → OnOk result ((terminals : List Known) (room : Room)
            → IsRoom S.Store self.old terminals room → IsAddressed event.now room
            → IsRoom S.Store self.new terminals (room_after event.now room)) }
        ensures settled { IsClean S.Store self.new.conn
            → OnOk result (IsSettled (state S.Store self.new.conn)) }
        ensures only_left { IsClean S.Store self.new.conn
            → OnOk result ((db : Trees) → (state S.Store self.new.conn).may_leave db
            → db ≡ (state S.Store self.new.conn).now.trees) }
        ensures err { LeavesOnErr S.Store self.old.conn self.new.conn result }
        ensures kept { OnErr result (out.new.items ≡ out.old.items) }
        ensures unavailable { IfErr result IsUnavailable }
        ensures survives { Survives (state S.Store self.old.conn) (state S.Store self.new.conn)
            (λ db. IsTrue (state S.Store self.old.conn).is_open
            → (terminals : List Known) (room : Room) → IsRoom S.Store self.old terminals room
            → IsAddressed event.now room
            → Stands db (config_of self.old.plan terminals) (room_after event.now room)) }
    {
        if !self.is_sound {
            return Err(Refusal::Storage);
        }
        lemma_numbered(&event.ask);
        match add_answer(
            alloc,
            &mut self.conn,
            &self.plan,
            &mut self.cache,
            event,
            out,
        ) {
            Ok(()) => Ok(()),
            Err(refusal) => {
                self.test_file();
                Err(refusal)
            }
        }
    }
}

// Acts on an event, and adds the machine's answer to `out` before anything is written. A refusal
// changes neither.
fn add_answer<S: Alter>(
    alloc: Global,
    conn: &mut Connection<S>,
    plan: &Plan,
    cache: &mut Cache,
    event: &Event,
    out: &mut Vec<Answered>,
) -> Result<(), Refusal>
    requires room { HasRoomSchema S.Store conn.old }
    requires outside { conn.old.in_transaction ≡ false }
    requires open { IsTrue cache.old.fleet.is_known → StandsOpen S.Store conn.old }
    ensures answer { IsClean S.Store conn.new
        → OnOk result ((config : Configuration) (room : Room)
        → IsFor (state S.Store conn.old).now.trees plan.now cache.old event.now config room
        → out.new.items ≡ out.old.items ++ answer_to event.now room ∷ []) }
    ensures ok { IsClean S.Store conn.new
        → OnOk result (Commits (state S.Store conn.old) (state S.Store conn.new)
        (IsFor (state S.Store conn.old).now.trees plan.now cache.old event.now)
        (room_after event.now)) }
    ensures cache { IsClean S.Store conn.new
        → OnOk result ((config : Configuration) (room : Room)
        → IsFor (state S.Store conn.old).now.trees plan.now cache.old event.now config room
        → IsCacheOf cache.new (room_after event.now room)) }
    ensures err { LeavesOnErr S.Store conn.old conn.new result }
    ensures kept { OnErr result (out.new.items ≡ out.old.items) }
    ensures unavailable { IfErr result IsUnavailable }
    ensures ended { conn.new.in_transaction ≡ false }
    ensures survives { Survives (state S.Store conn.old) (state S.Store conn.new) (λ db.
        (config : Configuration) (room : Room)
        → IsFor (state S.Store conn.old).now.trees plan.now cache.old event.now config room
        → Stands db config (room_after event.now room)) }
{
    lemma_committed(conn);
    let (changes, answer) = match answered(alloc, conn, plan, cache, event) {
        Ok(parts) => parts,
        Err(refusal) => return Err(refusal),
    };
    out.push(answer)?;
    if let Err(fault) = write(conn, changes.as_slice()) {
        let _ = out.pop();
        return Err(refusal_of(fault));
    }
    cache.apply(changes.as_slice());
    Ok(())
}
