//! One event acted on: decided, answered, kept.
ghost use Rattle.std.specs.Prelude.{◌≡◌, false, Ok, Result, IsTrue, IfOk, IfErr, OnOk};
ghost use Rattle.std.specs.Fn.{FnOnceReturnsAt};
ghost use Rattle.sqlite.specs.Held.{state};
ghost use Rattle.sqlite.specs.State.{Survives};
ghost use Rattle.room_tables_schema.specs.FileConnections.{HasRoomSchema, IsClean, StandsOpen};
ghost use Rattle.room_tables_schema.specs.Outcomes.{ReadsOnly};
ghost use Rattle.room_types.specs.declared.answers.Answer.{Answer as Answered};
ghost use Rattle.room_types.specs.declared.refusal_statuses.Refusal.{Refusal as Why};
ghost use Rattle.room_types.specs.declared.refusal_statuses.Refusal.TheVariants.{Memory};
ghost use Rattle.room_model.specs.Decisions.{changes_of};
ghost use Rattle.room_model.specs.Events.{IsNumbered};
ghost use Rattle.room_model.specs.Room.{Room};
ghost use Rattle.room_model.specs.Step.{answer_to, decided, room_after};
ghost use Rattle.room_model.specs.Rooms.{IsUnavailable};
ghost use Rattle.room_tables.specs.RoomsInTables.{Configuration, Stands};
ghost use Rattle.room_store_writes.specs.Transactions.{Commits, LeavesOnErr};
ghost use Rattle.room_store_cache.specs.Cache.{IsCacheOf};
ghost use Rattle.room_store.specs.ActedEvents.{IsFor};
ghost use Rattle.room_store.specs.EventDecisions.{in_parts, unless_unavailable};

use crate::event_decisions::decide;
use crate::store_faults::refusal_of;
use room_place::plans::Plan;
use room_store_cache::cache::Cache;
use room_store_writes::transactions::write;
use room_tables::connection_lemmas::lemma_committed;
use room_types::answers::Answer;
use room_types::asks::{Ask, Event};
use room_types::changes::{Changes, FewChanges};
use room_types::decisions::Decision;
use room_types::refusal_statuses::Refusal;
use sqlite::{Alter, Connection};
use std::alloc::Global;

/// Acts on an event: gives what `render` makes of the machine's answer, which it is asked for
/// before anything is written. A refusal is of memory or of storage, and changes nothing.
pub(crate) fn act_on<S: Alter, F: FnOnce(&Result<Answer, Refusal>) -> Result<Vec<u8>, Refusal>>(
    alloc: Global,
    conn: &mut Connection<S>,
    plan: &Plan,
    cache: &mut Cache,
    event: &Event,
    render: F,
) -> Result<Vec<u8>, Refusal>
    requires room { HasRoomSchema S.Store conn.old }
    requires outside { conn.old.in_transaction ≡ false }
    requires open { IsTrue cache.old.fleet.is_known → StandsOpen S.Store conn.old }
    requires callable { F.IsAlwaysCallable render }
    requires memory { (answer : Result Answered Why) (r : _)
        → FnOnceReturnsAt F.FnOnce render answer r → IfErr r (λ e. e ≡ Memory) }
    ensures bytes { IsClean S.Store conn.new
        → IfOk result (λ bytes. (config : Configuration) (room : Room)
        → IsFor (state S.Store conn.old).now.trees plan.now cache.old event.now config room
        → FnOnceReturnsAt F.FnOnce render (answer_to event.now room) (Ok bytes)) }
    ensures ok { IsClean S.Store conn.new
        → OnOk result (Commits (state S.Store conn.old) (state S.Store conn.new)
        (IsFor (state S.Store conn.old).now.trees plan.now cache.old event.now)
        (room_after event.now)) }
    ensures cache { IsClean S.Store conn.new
        → OnOk result ((config : Configuration) (room : Room)
        → IsFor (state S.Store conn.old).now.trees plan.now cache.old event.now config room
        → IsCacheOf cache.new (room_after event.now room)) }
    ensures err { LeavesOnErr S.Store conn.old conn.new result }
    ensures unavailable { IfErr result IsUnavailable }
    ensures ended { conn.new.in_transaction ≡ false }
    ensures survives { Survives (state S.Store conn.old) (state S.Store conn.new) (λ db.
        (config : Configuration) (room : Room)
        → IsFor (state S.Store conn.old).now.trees plan.now cache.old event.now config room
        → Stands db config (room_after event.now room)) }
{
    lemma_committed(conn);
    let prepared = match prepare(alloc, conn, plan, cache, event, render) {
        Ok(prepared) => prepared,
        Err(refusal) => return Err(refusal),
    };
    let Prepared { changes, bytes } = prepared;
    if let Err(fault) = write(conn, changes.as_slice()) {
        return Err(refusal_of(fault));
    }
    cache.apply(changes.as_slice());
    Ok(bytes)
}

/// What an event changes, and the answer to it.
#[derive(Drop)]
pub(crate) struct Prepared {
    pub(crate) changes: Changes,
    pub(crate) bytes: Vec<u8>,
}

/// What an event changes, and what `render` makes of the machine's answer. Nothing is written. A
/// refusal is of memory or of storage.
pub(crate) fn prepare<S: Alter, F: FnOnce(&Result<Answer, Refusal>) -> Result<Vec<u8>, Refusal>>(
    alloc: Global,
    conn: &mut Connection<S>,
    plan: &Plan,
    cache: &mut Cache,
    event: &Event,
    render: F,
) -> Result<Prepared, Refusal>
    requires room { HasRoomSchema S.Store conn.old }
    requires open { IsTrue cache.old.fleet.is_known → StandsOpen S.Store conn.old }
    requires callable { F.IsAlwaysCallable render }
    requires memory { (answer : Result Answered Why) (r : _)
        → FnOnceReturnsAt F.FnOnce render answer r → IfErr r (λ e. e ≡ Memory) }
    ensures changes { IsClean S.Store conn.new
        → IfOk result (λ prepared. (config : Configuration) (room : Room)
        → IsFor (state S.Store conn.old).now.trees plan.now cache.old event.now config room
        → prepared.changes ≡ changes_of (decided event.now room)) }
    ensures bytes { IsClean S.Store conn.new
        → IfOk result (λ prepared. (config : Configuration) (room : Room)
        → IsFor (state S.Store conn.old).now.trees plan.now cache.old event.now config room
        → FnOnceReturnsAt F.FnOnce render (answer_to event.now room) (Ok prepared.bytes)) }
    ensures cache { IsClean S.Store conn.new
        → OnOk result ((config : Configuration) (room : Room)
        → IsFor (state S.Store conn.old).now.trees plan.now cache.old event.now config room
        → IsCacheOf cache.new room) }
    ensures reads { ReadsOnly S.Store conn.old conn.new result }
    ensures unavailable { IfErr result IsUnavailable }
{
    let (changes, answer) = match answered(alloc, conn, plan, cache, event) {
        Ok(parts) => parts,
        Err(refusal) => return Err(refusal),
    };
    let rendered = render(&answer);
    drop(answer);
    match rendered {
        Ok(bytes) => Ok(Prepared { changes, bytes }),
        Err(refusal) => Err(refusal),
    }
}

/// What an event changes, and the machine's answer to it. Nothing is written. A refusal is of
/// memory or of storage.
pub(crate) fn answered<S: Alter>(
    alloc: Global,
    conn: &mut Connection<S>,
    plan: &Plan,
    cache: &mut Cache,
    event: &Event,
) -> Result<(Changes, Result<Answer, Refusal>), Refusal>
    requires room { HasRoomSchema S.Store conn.old }
    requires open { IsTrue cache.old.fleet.is_known → StandsOpen S.Store conn.old }
    ensures changes { IsClean S.Store conn.new
        → IfOk result (λ parts. (config : Configuration) (room : Room)
        → IsFor (state S.Store conn.old).now.trees plan.now cache.old event.now config room
        → parts.0 ≡ changes_of (decided event.now room)) }
    ensures answer { IsClean S.Store conn.new
        → IfOk result (λ parts. (config : Configuration) (room : Room)
        → IsFor (state S.Store conn.old).now.trees plan.now cache.old event.now config room
        → parts.1 ≡ answer_to event.now room) }
    ensures cache { IsClean S.Store conn.new
        → OnOk result ((config : Configuration) (room : Room)
        → IsFor (state S.Store conn.old).now.trees plan.now cache.old event.now config room
        → IsCacheOf cache.new room) }
    ensures reads { ReadsOnly S.Store conn.old conn.new result }
    ensures unavailable { IfErr result IsUnavailable }
{
    let decision = decide(alloc, conn, plan, cache, event);
    parts(decision)
}

// The changes of a decision, and the answer: a refusal too, unless memory was refused or storage
// failed.
fn parts(decision: Result<Decision, Refusal>) -> Result<(Changes, Result<Answer, Refusal>), Refusal>
    ensures { result ≡ in_parts (unless_unavailable decision) }
{
    match decision {
        Ok(Decision { changes, answer }) => Ok((changes, Ok(answer))),
        Err(Refusal::Memory) => Err(Refusal::Memory),
        Err(Refusal::Storage) => Err(Refusal::Storage),
        Err(refusal) => Ok((Changes::few(FewChanges::new()), Err(refusal))),
    }
}

// A report's number is from 1, as its type has it; the machine's laws ask for this.
pub(crate) fn lemma_numbered(ask: &Ask)
    ensures { IsNumbered ask.now }
{
    if let Ask::Report(press) = ask {
        let _ = press.number.get();
    }
}
