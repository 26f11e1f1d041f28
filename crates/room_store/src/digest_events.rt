//! One event acted on where the room comes to a digest by it.
ghost use Rattle.std.specs.Prelude.{◌≡◌, false, Ok, Result, IsTrue, IfOk, IfErr, OnOk};
ghost use Rattle.std.specs.Fn.{FnOnceReturnsAt};
ghost use Rattle.sqlite.specs.Held.{state};
ghost use Rattle.sqlite.specs.State.{Survives};
ghost use Rattle.room_tables_schema.specs.FileConnections.{HasRoomSchema, IsClean, StandsOpen};
ghost use Rattle.room_types.specs.declared.answers.Answer.{Answer as Answered};
ghost use Rattle.room_types.specs.declared.refusal_statuses.Refusal.{Refusal as Why};
ghost use Rattle.room_types.specs.declared.refusal_statuses.Refusal.TheVariants.{Memory};
ghost use Rattle.room_model.specs.Room.{Room};
ghost use Rattle.room_model.specs.Step.{answer_to, room_after};
ghost use Rattle.room_model.specs.Digests.{IsMiss};
ghost use Rattle.room_model.specs.declared.digests.DigestMismatch.TheVariants.{OtherDigest};
ghost use Rattle.room_tables.specs.RoomsInTables.{Configuration, Stands};
ghost use Rattle.room_store_writes.specs.Transactions.{Commits, LeavesOnErr};
ghost use Rattle.room_store_cache.specs.Cache.{IsCacheOf};
ghost use Rattle.room_store.specs.ActedEvents.{IsFor};
ghost use Rattle.room_store.specs.StoreFaults.{miss_of};
ghost use Rattle.room_store.specs.DigestEvents.{IsHeadAfter};

use crate::acted_events::{Prepared, prepare};
use crate::store::Store;
use crate::store_faults::refusal_of;
use room_model::digests::{DigestMismatch, StartDigest};
use room_store_file::digest_changes::{FailedStep, write_towards};
use room_tables::connection_lemmas::lemma_committed;
use room_types::answers::Answer;
use room_types::asks::Event;
use room_types::refusal_statuses::Refusal;
use sqlite::Alter;
use std::alloc::Global;

impl<S: Alter> Store<S> {
    /// Acts on an event as `act_on` does, where the room comes by it to the digest of this head.
    /// Where it would come to another one, nothing is changed.
    pub(crate) fn commit_towards<F: FnOnce(&Result<Answer, Refusal>) -> Result<Vec<u8>, Refusal>>(
        &mut self,
        alloc: Global,
        event: &Event,
        head: &StartDigest,
        render: F,
    ) -> Result<Vec<u8>, DigestMismatch>
        requires room { HasRoomSchema S.Store self.old.conn }
        requires outside { self.old.conn.in_transaction ≡ false }
        requires open { IsTrue self.old.cache.fleet.is_known → StandsOpen S.Store self.old.conn }
        requires callable { F.IsAlwaysCallable render }
        requires memory { (answer : Result Answered Why) (r : _)
            → FnOnceReturnsAt F.FnOnce render answer r → IfErr r (λ e. e ≡ Memory) }
        ensures bytes { IsClean S.Store self.new.conn
            → IfOk result (λ bytes. (config : Configuration) (room : Room)
            → IsFor (state S.Store self.old.conn).now.trees self.old.plan self.old.cache event.now
            config room
            → FnOnceReturnsAt F.FnOnce render (answer_to event.now room) (Ok bytes)) }
        ensures ok { IsClean S.Store self.new.conn
            → OnOk result (Commits (state S.Store self.old.conn) (state S.Store self.new.conn)
            (IsFor (state S.Store self.old.conn).now.trees self.old.plan self.old.cache event.now)
            (room_after event.now)) }
        ensures cache { IsClean S.Store self.new.conn
            → OnOk result ((config : Configuration) (room : Room)
            → IsFor (state S.Store self.old.conn).now.trees self.old.plan self.old.cache event.now
            config room
            → IsCacheOf self.new.cache (room_after event.now room)) }
        ensures reaches { IsClean S.Store self.new.conn
            → OnOk result ((config : Configuration) (room : Room)
            → IsFor (state S.Store self.old.conn).now.trees self.old.plan self.old.cache event.now
            config room
            → IsHeadAfter event.now config.zone config.terminals room head.now) }
        ensures another { IsClean S.Store self.new.conn
            → IfErr result (λ miss. miss ≡ OtherDigest → (config : Configuration) (room : Room)
            → IsFor (state S.Store self.old.conn).now.trees self.old.plan self.old.cache event.now
            config room
            → ¬ (IsHeadAfter event.now config.zone config.terminals room head.now)) }
        ensures err { LeavesOnErr S.Store self.old.conn self.new.conn result }
        ensures unavailable { IfErr result IsMiss }
        ensures ended { self.new.conn.in_transaction ≡ false }
        ensures survives { Survives (state S.Store self.old.conn) (state S.Store self.new.conn)
            (λ db. (config : Configuration) (room : Room)
            → IsFor (state S.Store self.old.conn).now.trees self.old.plan self.old.cache event.now
            config room
            → Stands db config (room_after event.now room)) }
        ensures plan { self.new.plan ≡ self.old.plan }
        ensures known { self.new.terminals ≡ self.old.terminals }
        ensures sound { self.new.is_sound ≡ self.old.is_sound }
    {
        lemma_committed(&self.conn);
        let prepared = match prepare(
            alloc,
            &mut self.conn,
            &self.plan,
            &mut self.cache,
            event,
            render,
        ) {
            Ok(prepared) => prepared,
            Err(refusal) => return Err(DigestMismatch::Unavailable(refusal)),
        };
        let Prepared { changes, bytes } = prepared;
        if let Err(undone) = write_towards(&mut self.conn, changes.as_slice(), head) {
            return Err(miss_of(undone));
        }
        self.cache.apply(changes.as_slice());
        Ok(bytes)
    }
}

// The miss that reports that changes were undone.
fn miss_of(undone: FailedStep) -> DigestMismatch
    ensures { result ≡ miss_of undone }
{
    match undone {
        FailedStep::OtherDigest => DigestMismatch::OtherDigest,
        FailedStep::Unavailable(fault) => DigestMismatch::Unavailable(refusal_of(fault)),
    }
}
