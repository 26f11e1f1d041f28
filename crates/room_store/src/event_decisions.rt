//! What the room in the tables decides of an event. Nothing is written.
ghost use Rattle.std.specs.Prelude.{◌≡◌, ℕ, IsTrue, IfOk, Some};
ghost use Rattle.sqlite.specs.Held.{state};
ghost use Rattle.room_tables_schema.specs.FileConnections.{HasRoomSchema, IsClean, StandsOpen};
ghost use Rattle.room_tables_schema.specs.Outcomes.{ReadsOnly};
ghost use Rattle.room_types.specs.declared.asks.Ask.TheVariants.{Call as CallAsk};
ghost use Rattle.room_types.specs.declared.asks.Ask.TheVariants.{Report as ReportAsk};
ghost use Rattle.room_types.specs.declared.asks.CallForm.{CallForm as FormModel};
ghost use Rattle.room_types.specs.declared.asks.Who.TheVariants.{Crew};
ghost use Rattle.room_model.specs.Calls.{new_call, show_last_serial, take_call};
ghost use Rattle.room_model.specs.CrewJobs.{show_job};
ghost use Rattle.room_model.specs.Queries.{assignment_at};
ghost use Rattle.room_model.specs.Room.{Room};
ghost use Rattle.room_model.specs.Step.{crew_asks, decided, desk_asks, single_asks, who_asks};
ghost use Rattle.room_model.specs.RoomAgreements.{IsWellFormed};
ghost use Rattle.room_tables.specs.RoomsInTables.{Configuration};
ghost use Rattle.room_tables.specs.FoundRows.{Finds};
ghost use Rattle.room_core.specs.DecisionRows.{IsUnsent};
ghost use Rattle.room_store.specs.ActedEvents.{IsFor};
ghost use Rattle.room_store.specs.EventDecisions.{unless_unavailable};
ghost use Rattle.room_store_cache.specs.Cache.{HasFleetOf, IsCacheOf};
ghost use Rattle.room_store_reads.specs.CrewParts.{HasVehicle};
ghost use Rattle.room_store_reads.specs.Partitions.{AreKnown};

use crate::move_decisions::decide_moves;
use crate::store_faults::refusal_of;
use room_core::call_decisions::{decide_call, decide_last_serial};
use room_core::crew_decisions::{decide_crew, decide_job};
use room_core::desk_decisions::decide_desk;
use room_core::kept_answers::{decide_repeated_call, decide_repeated_report};
use room_place::plans::{DivisionNumber, Plan};
use room_store_cache::cache::Cache;
use room_store_cache::fleets::Fleet;
use room_store_reads::crew_reads::{load_crew, load_report};
use room_store_reads::request_reads::reads_of;
use room_store_reads::working_rows::{load_history_rows, working_slice};
use room_tables::call_table::last_serial;
use room_tables::table_loads::row_at;
use room_types::asks::{Ask, CallForm, Event, NewCall, Press, Who};
use room_types::callsign::Callsign;
use room_types::crews::CrewSlice;
use room_types::decisions::Decision;
use room_types::numbers::{Moment, PositionNumber};
use room_types::refusal_statuses::Refusal;
use room_types::tables::{Assignment, Call, Vehicle};
use sqlite::{Alter, Connection};
use std::alloc::Global;

/// What the machine decides of an event in the room that the tables stand for. A lack of memory or
/// of storage is no decision of it: rows that don't agree are one of storage, and so is an event
/// that is not addressed.
pub(crate) fn decide<S: Alter>(
    alloc: Global,
    conn: &mut Connection<S>,
    plan: &Plan,
    cache: &mut Cache,
    event: &Event,
) -> Result<Decision, Refusal>
    requires room { HasRoomSchema S.Store conn.old }
    requires open { IsTrue cache.old.fleet.is_known → StandsOpen S.Store conn.old }
    ensures decided { IsClean S.Store conn.new
        → IfOk (unless_unavailable result) (λ x. (config : Configuration) (room : Room)
        → IsFor (state S.Store conn.old).now.trees plan.now cache.old event.now config room
        → x ≡ decided event.now room) }
    ensures cache { IsClean S.Store conn.new
        → IfOk (unless_unavailable result) (λ _. (config : Configuration) (room : Room)
        → IsFor (state S.Store conn.old).now.trees plan.now cache.old event.now config room
        → IsCacheOf cache.new room) }
    ensures reads { ReadsOnly S.Store conn.old conn.new (unless_unavailable result) }
{
    match cache.fleet.fill(alloc, conn) {
        Ok(()) => {}
        Err(fault) => return Err(refusal_of(fault)),
    }
    match &event.who {
        Who::Desk(division) => for_desk(alloc, conn, plan, cache, *division, event),
        Who::Crew(callsign) => for_crew(alloc, conn, cache, callsign, &event.ask, event.at),
        Who::Position(position) => match &event.ask {
            Ask::Call(form) => {
                let call = new_call(*position, form, event.at);
                for_call(alloc, conn, plan, cache, &call, &event.ask)
            }
            Ask::Last => for_last(conn, *position),
            _ => Err(Refusal::Storage),
        },
    }
}

// What a division's desk asks.
fn for_desk<S: Alter>(
    alloc: Global,
    conn: &mut Connection<S>,
    plan: &Plan,
    cache: &mut Cache,
    division: DivisionNumber,
    event: &Event,
) -> Result<Decision, Refusal>
    requires room { HasRoomSchema S.Store conn.old }
    requires open { StandsOpen S.Store conn.old }
    ensures decided { Finds S.Store conn.old conn.new (unless_unavailable result) (λ room x.
        IsWellFormed room → room.plan ≡ plan.now.areas → AreKnown cache.old room
        → x ≡ desk_asks division event.now.ask event.now.at room) }
    ensures known { Finds S.Store conn.old conn.new (unless_unavailable result) (λ room _.
        IsWellFormed room → AreKnown cache.old room → AreKnown cache.new room) }
    ensures fleet { cache.new.fleet ≡ cache.old.fleet }
    ensures reads { ReadsOnly S.Store conn.old conn.new (unless_unavailable result) }
{
    match &event.ask {
        Ask::Moves(moves) => decide_moves(alloc, conn, division, moves, event.at),
        ask => for_ask(alloc, conn, plan, cache, division, ask, event.at),
    }
}

// What a division's desk asks by anything but moves.
fn for_ask<S: Alter>(
    alloc: Global,
    conn: &mut Connection<S>,
    plan: &Plan,
    cache: &mut Cache,
    division: DivisionNumber,
    ask: &Ask,
    at: Moment,
) -> Result<Decision, Refusal>
    requires room { HasRoomSchema S.Store conn.old }
    requires open { StandsOpen S.Store conn.old }
    ensures decided { Finds S.Store conn.old conn.new (unless_unavailable result) (λ room x.
        IsWellFormed room → room.plan ≡ plan.now.areas → AreKnown cache.old room
        → x ≡ single_asks division ask.now at room) }
    ensures known { Finds S.Store conn.old conn.new (unless_unavailable result) (λ room _.
        IsWellFormed room → AreKnown cache.old room → AreKnown cache.new room) }
    ensures fleet { cache.new.fleet ≡ cache.old.fleet }
    ensures reads { ReadsOnly S.Store conn.old conn.new (unless_unavailable result) }
{
    let reads = reads_of(division, ask);
    let beside = match load_history_rows(alloc, conn, division, &reads, at, cache) {
        Ok(beside) => beside,
        Err(fault) => return Err(refusal_of(fault)),
    };
    let slice = match working_slice(alloc, division, &reads, cache.fleet.get(), beside) {
        Ok(slice) => slice,
        Err(fault) => return Err(refusal_of(fault)),
    };
    let decision = decide_desk(alloc, plan, &slice, ask, at);
    drop(slice);
    decision
}

// What a vehicle's crew asks.
fn for_crew<S: Alter>(
    alloc: Global,
    conn: &mut Connection<S>,
    cache: &mut Cache,
    callsign: &Callsign,
    ask: &Ask,
    at: Moment,
) -> Result<Decision, Refusal>
    requires room { HasRoomSchema S.Store conn.old }
    requires open { StandsOpen S.Store conn.old }
    ensures decided { Finds S.Store conn.old conn.new (unless_unavailable result) (λ room x.
        IsWellFormed room → HasFleetOf cache.old.fleet room → IsCacheOf cache.old room
        → x ≡ who_asks (Crew callsign.now) ask.now at room) }
    ensures cache { Finds S.Store conn.old conn.new (unless_unavailable result) (λ room _.
        IsWellFormed room → HasFleetOf cache.old.fleet room → IsCacheOf cache.old room
        → IsCacheOf cache.new room) }
    ensures reads { ReadsOnly S.Store conn.old conn.new (unless_unavailable result) }
{
    let Some(vehicle) = cache.fleet.get().vehicles.get(callsign).copied() else {
        return Err(Refusal::Storage);
    };
    match ask {
        Ask::Report(press) => for_report(conn, &mut cache.fleet, &vehicle, press, ask, at),
        Ask::Order => by_rows(conn, &mut cache.fleet, &vehicle, ask, at),
        Ask::Job => for_job(alloc, conn, cache, &vehicle, at),
        Ask::Last => by_rows(conn, &mut cache.fleet, &vehicle, ask, at),
        _ => Err(Refusal::WrongRole),
    }
}

// What a crew asks of its incident: without an order it asks for its order.
fn for_job<S: Alter>(
    alloc: Global,
    conn: &mut Connection<S>,
    cache: &mut Cache,
    vehicle: &Vehicle,
    at: Moment,
) -> Result<Decision, Refusal>
    requires room { HasRoomSchema S.Store conn.old }
    requires open { StandsOpen S.Store conn.old }
    ensures decided { Finds S.Store conn.old conn.new (unless_unavailable result) (λ room x.
        IsWellFormed room → HasFleetOf cache.old.fleet room → IsCacheOf cache.old room
        → HasVehicle vehicle.now room → x ≡ show_job vehicle.now.callsign room) }
    ensures cache { Finds S.Store conn.old conn.new (unless_unavailable result) (λ room _.
        IsWellFormed room → HasFleetOf cache.old.fleet room → IsCacheOf cache.old room
        → IsCacheOf cache.new room) }
    ensures reads { ReadsOnly S.Store conn.old conn.new (unless_unavailable result) }
{
    let assigned = cache
        .fleet
        .get()
        .assignments
        .get(&vehicle.callsign)
        .copied();
    match assigned {
        Some(order) => for_order(alloc, conn, cache, vehicle, &order, at),
        None => by_rows(conn, &mut cache.fleet, vehicle, &Ask::Order, at),
    }
}

// What a crew that has an order is told of its incident, on the rows that its history reads.
fn for_order<S: Alter>(
    alloc: Global,
    conn: &mut Connection<S>,
    cache: &mut Cache,
    vehicle: &Vehicle,
    order: &Assignment,
    at: Moment,
) -> Result<Decision, Refusal>
    requires room { HasRoomSchema S.Store conn.old }
    requires open { StandsOpen S.Store conn.old }
    ensures decided { Finds S.Store conn.old conn.new (unless_unavailable result) (λ room x.
        IsWellFormed room → AreKnown cache.old room → HasVehicle vehicle.now room
        → assignment_at vehicle.now.callsign room ≡ Some order.now
        → x ≡ show_job vehicle.now.callsign room) }
    ensures known { Finds S.Store conn.old conn.new (unless_unavailable result) (λ room _.
        IsWellFormed room → AreKnown cache.old room → AreKnown cache.new room) }
    ensures fleet { cache.new.fleet ≡ cache.old.fleet }
    ensures reads { ReadsOnly S.Store conn.old conn.new (unless_unavailable result) }
{
    let reads = reads_of(order.division, &Ask::Incident(order.incident));
    let beside = match load_history_rows(alloc, conn, order.division, &reads, at, cache) {
        Ok(beside) => beside,
        Err(fault) => return Err(refusal_of(fault)),
    };
    let slice = match working_slice(alloc, order.division, &reads, cache.fleet.get(), beside) {
        Ok(slice) => slice,
        Err(fault) => return Err(refusal_of(fault)),
    };
    let decision = decide_job(alloc, &slice, vehicle, order);
    drop(slice);
    decision
}

// A report, kept already or new.
fn for_report<S: Alter>(
    conn: &mut Connection<S>,
    fleet: &mut Fleet,
    vehicle: &Vehicle,
    press: &Press,
    ask: &Ask,
    at: Moment,
) -> Result<Decision, Refusal>
    requires room { HasRoomSchema S.Store conn.old }
    requires open { StandsOpen S.Store conn.old }
    requires report { ask.now ≡ ReportAsk press.now }
    ensures decided { Finds S.Store conn.old conn.new (unless_unavailable result) (λ room x.
        IsWellFormed room → HasFleetOf fleet.old room → HasVehicle vehicle.now room
        → x ≡ crew_asks vehicle.now.callsign ask.now at room) }
    ensures known { Finds S.Store conn.old conn.new (unless_unavailable result) (λ room _.
        HasFleetOf fleet.old room → HasFleetOf fleet.new room) }
    ensures reads { ReadsOnly S.Store conn.old conn.new (unless_unavailable result) }
{
    match load_report(conn, vehicle, press.number) {
        Ok(Some(kept)) => decide_repeated_report(&kept, press),
        Ok(None) => by_rows(conn, fleet, vehicle, ask, at),
        Err(fault) => Err(refusal_of(fault)),
    }
}

// What a crew asks that is no report of a number that is kept.
fn by_rows<S: Alter>(
    conn: &mut Connection<S>,
    fleet: &mut Fleet,
    vehicle: &Vehicle,
    ask: &Ask,
    at: Moment,
) -> Result<Decision, Refusal>
    requires room { HasRoomSchema S.Store conn.old }
    requires open { StandsOpen S.Store conn.old }
    ensures decided { Finds S.Store conn.old conn.new (unless_unavailable result) (λ room x.
        IsWellFormed room → HasFleetOf fleet.old room → HasVehicle vehicle.now room
        → IsUnsent vehicle.now.callsign ask.now room
        → x ≡ crew_asks vehicle.now.callsign ask.now at room) }
    ensures known { Finds S.Store conn.old conn.new (unless_unavailable result) (λ room _.
        HasFleetOf fleet.old room → HasFleetOf fleet.new room) }
    ensures reads { ReadsOnly S.Store conn.old conn.new (unless_unavailable result) }
{
    let rows = match load_crew(conn, fleet, vehicle) {
        Ok(rows) => rows,
        Err(fault) => return Err(refusal_of(fault)),
    };
    match CrewSlice::build(rows) {
        Some(slice) => decide_crew(&slice, ask, at),
        None => Err(Refusal::Storage),
    }
}

// What a call taker's position asks: a call, kept already or new.
fn for_call<S: Alter>(
    alloc: Global,
    conn: &mut Connection<S>,
    plan: &Plan,
    cache: &mut Cache,
    call: &NewCall,
    ask: &Ask,
) -> Result<Decision, Refusal>
    requires room { HasRoomSchema S.Store conn.old }
    ensures decided { Finds S.Store conn.old conn.new (unless_unavailable result) (λ room x.
        (position at : ℕ) (form : FormModel) → IsWellFormed room → room.plan ≡ plan.now.areas
        → call.now ≡ new_call position form at → ask.now ≡ CallAsk form
        → HasFleetOf cache.old.fleet room → IsCacheOf cache.old room
        → x ≡ take_call call.now room) }
    ensures cache { Finds S.Store conn.old conn.new (unless_unavailable result) (λ room _.
        IsWellFormed room → HasFleetOf cache.old.fleet room → IsCacheOf cache.old room
        → IsCacheOf cache.new room) }
    ensures reads { ReadsOnly S.Store conn.old conn.new (unless_unavailable result) }
{
    let found = match row_at::<Call, S>(conn, &(call.position, call.serial)) {
        Ok(found) => found,
        Err(fault) => return Err(refusal_of(fault)),
    };
    if let Some(kept) = found {
        return decide_repeated_call(&kept, call);
    }
    let Some(division) = plan.division_of(call.place) else {
        return Err(Refusal::OutsideArea);
    };
    let reads = reads_of(division, ask);
    let beside = match load_history_rows(alloc, conn, division, &reads, call.at, cache) {
        Ok(beside) => beside,
        Err(fault) => return Err(refusal_of(fault)),
    };
    let slice = match working_slice(alloc, division, &reads, cache.fleet.get(), beside) {
        Ok(slice) => slice,
        Err(fault) => return Err(refusal_of(fault)),
    };
    let decision = decide_call(&slice, call);
    drop(slice);
    decision
}

// The greatest serial of a position's calls.
fn for_last<S: Alter>(
    conn: &mut Connection<S>,
    position: PositionNumber,
) -> Result<Decision, Refusal>
    requires room { HasRoomSchema S.Store conn.old }
    ensures decided { Finds S.Store conn.old conn.new (unless_unavailable result) (λ room x.
        x ≡ show_last_serial position room) }
    ensures reads { ReadsOnly S.Store conn.old conn.new (unless_unavailable result) }
{
    match last_serial(conn, position) {
        Ok(serial) => Ok(decide_last_serial(serial)),
        Err(fault) => Err(refusal_of(fault)),
    }
}

fn new_call(position: PositionNumber, form: &CallForm, at: Moment) -> NewCall
    ensures { result ≡ new_call position form.now at }
{
    NewCall {
        position,
        serial: form.serial,
        place: form.place,
        class: form.class,
        needs: form.needs,
        note: form.note,
        at,
    }
}
