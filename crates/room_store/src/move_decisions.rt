//! What the room in the tables decides of moves. What they read is read before the first is made.
//! Then each is decided on what is known, and what it changes is known to the next one. Nothing is
//! written.
ghost use Rattle.std.specs.Prelude.{◌≡◌, ◌++◌, ◌∷◌, ◌⊎◌, [], Err, List, IfErr, IfOk, OnOk};
ghost use Rattle.room_tables.specs.FoundRows.{Finds};
ghost use Rattle.room_tables_schema.specs.FileConnections.{HasRoomSchema, StandsOpen};
ghost use Rattle.room_tables_schema.specs.Outcomes.{ReadsOnly};
ghost use Rattle.room_types.specs.KeyedRows.{listed};
ghost use Rattle.room_types.specs.declared.asks.Ask.TheVariants.{Moves as MovesAsk};
ghost use Rattle.room_types.specs.declared.asks.Move.{Move as MoveModel};
ghost use Rattle.room_model.specs.Room.{Room};
ghost use Rattle.room_model.specs.RoomAgreements.{IsWellFormed};
ghost use Rattle.room_model.specs.Rooms.{IsUnavailable};
ghost use Rattle.room_model.specs.Step.{ask_of, course, desk_asks, single_asks};
ghost use Rattle.room_store_cache.specs.Cache.{IsCacheOf};
ghost use Rattle.room_store.specs.EventDecisions.{unless_unavailable};
ghost use Rattle.room_store.specs.MoveDecisions.{Comes};

use crate::store_faults::refusal_of;
use room_core::move_decisions::{decide_move, move_line};
use room_place::plans::DivisionNumber;
use room_store_cache::cache::Cache;
use room_store_reads::move_rows::{learn_moves, rows_known};
use room_types::answers::{Answer, Listed, MoveLine};
use room_types::asks::{Move, Moves};
use room_types::changes::{Change, Changes};
use room_types::decisions::Decision;
use room_types::numbers::Moment;
use room_types::refusal_statuses::Refusal;
use room_types::slices::Slice;
use sqlite::{Alter, Connection};
use std::alloc::Global;

/// What a division's desk comes to that asks for moves.
pub(crate) fn decide_moves<S: Alter>(
    alloc: Global,
    conn: &mut Connection<S>,
    division: DivisionNumber,
    moves: &Moves,
    at: Moment,
) -> Result<Decision, Refusal>
    requires room { HasRoomSchema S.Store conn.old }
    requires open { StandsOpen S.Store conn.old }
    ensures decided { Finds S.Store conn.old conn.new (unless_unavailable result) (λ room x.
        IsWellFormed room → x ≡ desk_asks division (MovesAsk moves.now) at room) }
    ensures reads { ReadsOnly S.Store conn.old conn.new (unless_unavailable result) }
{
    let mut known = Cache::new(alloc);
    match learn_moves(alloc, conn, division, moves, at, &mut known) {
        Ok(()) => decide_course(alloc, division, moves, at, known),
        Err(fault) => Err(refusal_of(fault)),
    }
}

// What moves come to in a room of which what they ask for is known.
fn decide_course(
    alloc: Global,
    division: DivisionNumber,
    moves: &Moves,
    at: Moment,
    known: Cache,
) -> Result<Decision, Refusal>
    ensures { IfOk (unless_unavailable result) (λ x. (room : Room) → IsWellFormed room
        → IsCacheOf known room → x ≡ desk_asks division (MovesAsk moves.now) at room) }
{
    let mut course = Course {
        known,
        changes: Listed::new(alloc),
        lines: Listed::new(alloc),
    };
    match course.make(alloc, division, &moves.first, at) {
        Ok(()) => {}
        Err(refusal) => return Err(refusal),
    }
    let others = moves.others.as_slice();
    for other in others {
        match course.make_if(alloc, division, other, at) {
            Ok(()) => {}
            Err(refusal) => return Err(refusal),
        }
    }
    Ok(Decision {
        changes: Changes::many(course.changes),
        answer: Answer::Moved(course.lines),
    })
}

// What the first moves come to, and what is known of the room after them.
#[derive(Drop)]
struct Course {
    known: Cache,
    changes: Listed<Change>,
    lines: Listed<MoveLine>,
}

impl Course {
    // Makes one more move, where there is one.
    fn make_if(
        &mut self,
        alloc: Global,
        division: DivisionNumber,
        next: &Option<Move>,
        at: Moment,
    ) -> Result<(), Refusal>
        ensures made { OnOk result ((done : List MoveModel) (room : Room)
            → Comes division at done room self.old.known self.old.changes self.old.lines
            → Comes division at (done ++ listed next.now) room self.new.known self.new.changes
            self.new.lines) }
        ensures refused { IfErr result (λ why. IsUnavailable why
            ⊎ ((done others : List MoveModel) (room : Room)
            → Comes division at done room self.old.known self.old.changes self.old.lines
            → course division ((done ++ listed next.now) ++ others) at room ≡ Err why)) }
    {
        match next {
            Some(next) => self.make(alloc, division, next, at),
            None => Ok(()),
        }
    }

    // Makes one more move.
    fn make(
        &mut self,
        alloc: Global,
        division: DivisionNumber,
        next: &Move,
        at: Moment,
    ) -> Result<(), Refusal>
        ensures made { OnOk result ((done : List MoveModel) (room : Room)
            → Comes division at done room self.old.known self.old.changes self.old.lines
            → Comes division at (done ++ next.now ∷ []) room self.new.known self.new.changes
            self.new.lines) }
        ensures refused { IfErr result (λ why. IsUnavailable why
            ⊎ ((done others : List MoveModel) (room : Room)
            → Comes division at done room self.old.known self.old.changes self.old.lines
            → course division ((done ++ next.now ∷ []) ++ others) at room ≡ Err why)) }
    {
        let decision = match decide_known(alloc, division, &self.known, next, at) {
            Ok(decision) => decision,
            Err(refusal) => return Err(refusal),
        };
        match add_line(&mut self.lines, move_line(next, &decision.answer)) {
            Ok(()) => {}
            Err(refusal) => return Err(refusal),
        }
        match add_changes(&mut self.changes, decision.changes.as_slice()) {
            Ok(()) => {}
            Err(refusal) => return Err(refusal),
        }
        self.known.apply(decision.changes.as_slice());
        Ok(())
    }
}

// What a move comes to in a room of which what it asks for is known. Where it isn't, memory was
// refused for it.
fn decide_known(
    alloc: Global,
    division: DivisionNumber,
    known: &Cache,
    next: &Move,
    at: Moment,
) -> Result<Decision, Refusal>
    ensures { IfOk (unless_unavailable result) (λ x. (room : Room) → IsWellFormed room
        → IsCacheOf known.now room → x ≡ single_asks division (ask_of next.now) at room) }
{
    let rows = match rows_known(alloc, division, known, next) {
        Ok(rows) => rows,
        Err(fault) => return Err(refusal_of(fault)),
    };
    match Slice::build(division, rows) {
        Some(slice) => decide_move(&slice, next, at),
        None => Err(Refusal::Storage),
    }
}

// Adds a line at the end.
fn add_line(lines: &mut Listed<MoveLine>, line: MoveLine) -> Result<(), Refusal>
    ensures added { OnOk result (lines.new ≡ lines.old ++ line ∷ []) }
    ensures memory { IfErr result IsUnavailable }
{
    lines.push(line)?;
    Ok(())
}

// Adds changes at the end.
fn add_changes(changes: &mut Listed<Change>, added: &[Change]) -> Result<(), Refusal>
    ensures added { OnOk result (changes.new ≡ changes.old ++ added.now) }
    ensures memory { IfErr result IsUnavailable }
{
    for change in added {
        changes.push(*change)?;
    }
    Ok(())
}
