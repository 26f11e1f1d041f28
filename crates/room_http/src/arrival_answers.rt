//! Answers what arrives.
ghost use Rattle.std.specs.Prelude.{◌≡◌, ◌≢◌, ℕ, false, Err, IfErr, OnOk};
ghost use Rattle.room_http.specs.Arrivals.{Arrival, IsBounded, IsShown};
ghost use Rattle.room_http.specs.ArrivalAnswers.{Answers, EndsAnswering};
ghost use Rattle.room_http.specs.KeptMessages.{Acts, KeepsOne, Unmoved};
ghost use Rattle.room_http.specs.declared.session.ServeEnd.TheVariants as endings;
ghost use Rattle.room_http_messages.specs.Streams.{WritesAll};
ghost use Rattle.room_http.specs.ServedRuns.{IsAtMost, KeepsPromises};
ghost use Rattle.room_http.specs.Dialogues.{IsUnserved, Stays};
ghost use Rattle.room_model.specs.Rooms.{machine};

use crate::arrivals::Arrived;
use crate::clocks::Clock;
use crate::fixed_answers::fixed;
use crate::handlers::Handler;
use crate::moments::moment;
use crate::observers::{Asked, Observer};
use crate::replies::reply;
use crate::session::ServeEnd;
use room_http_messages::sinks::{Sink, WriteFailed, write_all};
use room_model::rooms::Room;

/// Answers what has arrived at the moment of the clock, or says why serving ends with it. The
/// observer keeps a message before the room acts on it, and its answer before any byte of it is
/// written.
pub fn answer<W: Sink, M: Room, C: Clock, N: Observer>(
    handler: &Handler,
    arrived: &Arrived,
    writer: &mut W,
    room: &mut M,
    clock: &mut C,
    observer: &mut N,
) -> Result<(), ServeEnd>
    requires ready { M.is_ready room.old }
    requires sound { W.has_failed writer.old ≡ false }
    requires bounded { IsBounded arrived.now }
    ensures ready { M.is_ready room.new }
    ensures zone { M.zone room.new ≡ M.zone room.old }
    ensures trusted { M.is_trusted room.new → M.is_trusted room.old }
    ensures ends { IfErr result EndsAnswering }
    ensures answers { (o : Arrival) → IsShown arrived.now o → (at : ℕ) × Answers M.step
        handler.now.setting (W.held writer.old) (W.held writer.new)
        (C.given clock.old) (C.given clock.new)
        (W.has_failed writer.new) (C.was_none clock.new) (N.has_failed observer.new)
        (M.is_trusted room.new) (M.stands room.old)
        (Stays (M.is_kept room.old) (M.stands room.new) (M.leaves_one_of room.new))
        (IsUnserved M.step handler.now.setting (M.is_kept room.old) (M.stands room.new)
        (M.leaves_one_of room.new))
        (M.has_failed room.new) at o result
        × KeepsOne N.came N.response
        (M.is_trusted room.new → M.is_kept room.old → M.is_kept room.new)
        (Unmoved (M.is_trusted room.new) (M.stands room.old) (M.stands room.new))
        (Acts M.step handler.now.setting (M.is_trusted room.new) (M.stands room.old)
        (M.stands room.new))
        (record {
          given = C.given clock.old;
          kept = N.held observer.old;
          held = W.held writer.old;
        })
        (record {
          given = C.given clock.new;
          kept = N.held observer.new;
          held = W.held writer.new;
        })
        at o result }
    ensures failed { result ≢ Err endings.JournalFailed
        → N.has_failed observer.new ≡ N.has_failed observer.old }
    ensures kept { M.is_trusted room.new → OnOk result (M.is_kept room.old
        → M.is_kept room.new) }
    ensures promised { M.step ≡ machine → (o : Arrival) → IsShown arrived.now o
        → KeepsPromises handler.now.setting (IsAtMost o (C.given clock.old) (C.given clock.new))
        (W.held writer.old) (W.held writer.new)
        (M.is_trusted room.new) (M.is_kept room.old)
        (M.stands room.old) (M.stands room.new) (M.leaves_one_of room.new) }
{
    let Some(at) = moment(clock) else {
        return Err(ServeEnd::ClockFault);
    };
    if let Err(_) = observer.arrived(arrived, at) {
        return Err(ServeEnd::JournalFailed);
    }
    let mut asked = Asked {
        arrived,
        at,
        who: None,
    };
    match reply(handler, room, arrived, at, &mut asked.who) {
        Ok(bytes) => {
            let text = bytes.as_slice();
            if let Err(_) = observer.answering(arrived, text) {
                return Err(ServeEnd::JournalFailed);
            }
            match write_answer(writer, observer, &asked, text) {
                Ok(()) => Ok(()),
                Err(_) => Err(ServeEnd::WriteFault),
            }
        }
        Err(refusal) => match write_answer(
            writer,
            observer,
            &asked,
            fixed(refusal, arrived.head_only()),
        ) {
            Ok(()) => Err(ServeEnd::Closed),
            Err(_) => Err(ServeEnd::WriteFault),
        },
    }
}

// Writes an answer, and then reports it to the observer.
fn write_answer<W: Sink, N: Observer>(
    writer: &mut W,
    observer: &mut N,
    asked: &Asked<'_>,
    answer: &[u8],
) -> Result<(), WriteFailed>
    requires { W.has_failed writer.old ≡ false }
    ensures written { WritesAll W.held W.has_failed writer.old writer.new answer.now result }
    ensures kept { N.held observer.new ≡ N.held observer.old }
    ensures failed { N.has_failed observer.new ≡ N.has_failed observer.old }
    ensures noted { N.notes observer.old observer.new asked.now answer.now }
{
    let written = write_all(writer, answer);
    observer.answered(asked, answer);
    written
}
