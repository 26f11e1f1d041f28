//! A connection that is served.
ghost use Rattle.std.specs.Prelude.{◌≡◌, ◌≢◌, ◌⊎◌, false, IfErr, IfOk};
ghost use Rattle.room_http_messages.specs.Layouts.{IsWhole};
ghost use Rattle.room_model.specs.Rooms.{machine};
ghost use Rattle.room_http.specs.Arrivals.{Arrival, IsShown};
ghost use Rattle.room_http.specs.declared.session.ServeEnd.TheVariants as endings;
ghost use Rattle.room_http.specs.KeptMessages.{ActsOnEach, KeepsEach};
ghost use Rattle.room_http.specs.ConnectionReads.{EndsAs, IsReadAs};
ghost use Rattle.room_http.specs.ServedTrace.{AreFirstIn, OneTrace};
ghost use Rattle.room_http.specs.ServedRuns.{KeepsPromises};
ghost use Rattle.room_http.specs.Session.{MissesNone, ReadsAtMost, ServeIs};
ghost use Rattle.room_http.specs.Dialogues.{IsUnserved, Stays};

use crate::arrival_answers::answer;
use crate::arrivals::Arrived;
use crate::clocks::Clock;
use crate::handlers::Handler;
use crate::observers::Observer;
use room_http_messages::inbox::Inbox;
use room_http_messages::message_reader::read_message;
use room_http_messages::messages::Layout;
use room_http_messages::read_faults::Unread;
use room_http_messages::sinks::Sink;
use room_http_messages::sources::Source;
use room_model::rooms::Room;

/// A connection: what is read from, and what is written to.
#[derive(Drop)]
pub struct Connection<R, W> {
    pub reader: R,
    pub writer: W,
}

/// Why serving ended.
#[derive(Clone, Copy, PartialEq, Eq)]
pub enum ServeEnd {
    /// An answer closed the connection, or the input ended between messages.
    Closed,
    /// The input ended within a message.
    Cut,
    /// A read failed.
    ReadFault,
    /// A write failed, or took nothing.
    WriteFault,
    /// The clock gave no moment, or a later one than the last of the room.
    ClockFault,
    /// What was to be kept of a message could not be kept.
    JournalFailed,
    /// The reads that were granted are used up.
    ReadsSpent,
    /// Memory was refused before anything was read.
    Memory,
}

/// Answers the messages of a stream, until it ends or an answer closes the connection, or until
/// something fails. It makes at most `budget` reads, and reads the clock once for each message,
/// after the message is whole or refused. Where the room is the dispatch machine's, what is served
/// keeps the room's promises, and a stop leaves the room after every answer that was written. So it
/// is for each observer. One that keeps what is reported to it keeps each message before the room
/// acts on it, and its answer before it is written.
pub fn serve<R: Source, W: Sink, M: Room, C: Clock, N: Observer>(
    handler: &Handler,
    connection: &mut Connection<R, W>,
    room: &mut M,
    clock: &mut C,
    observer: &mut N,
    budget: u32,
) -> ServeEnd
    requires reader { R.has_failed connection.old.reader ≡ false }
    requires writer { W.has_failed connection.old.writer ≡ false }
    requires ready { M.is_ready room.old }
    ensures ready { M.is_ready room.new }
    ensures zone { M.zone room.new ≡ M.zone room.old }
    ensures reads { ReadsAtMost budget (R.reads connection.old.reader)
        (R.reads connection.new.reader) }
    ensures trusted { M.is_trusted room.new → M.is_trusted room.old }
    ensures run { OneTrace
        (λ course. ServeIs M.step handler.now.setting
        (record {
          left = R.left connection.old.reader;
          reads = R.reads connection.old.reader;
          held = W.held connection.old.writer;
          given = C.given clock.old;
        })
        (record {
          reads = R.reads connection.new.reader;
          held = W.held connection.new.writer;
          given = C.given clock.new;
          read_failed = R.has_failed connection.new.reader;
          read_ended = R.has_ended connection.new.reader;
          write_failed = W.has_failed connection.new.writer;
          was_none = C.was_none clock.new;
          observer_failed = N.has_failed observer.new;
        })
        (M.is_trusted room.new) (M.stands room.old)
        (Stays (M.is_kept room.old) (M.stands room.new) (M.leaves_one_of room.new))
        (IsUnserved M.step handler.now.setting (M.is_kept room.old) (M.stands room.new)
        (M.leaves_one_of room.new))
        (M.has_failed room.new) course budget result)
        (λ course. M.step ≡ machine → KeepsPromises handler.now.setting
        (AreFirstIn course (R.left connection.old.reader) (C.given clock.old) (C.given clock.new))
        (W.held connection.old.writer) (W.held connection.new.writer)
        (M.is_trusted room.new) (M.is_kept room.old)
        (M.stands room.old) (M.stands room.new) (M.leaves_one_of room.new))
        (λ course. KeepsEach N.came N.response
        (M.is_trusted room.new → M.is_kept room.old → M.is_kept room.new)
        (ActsOnEach M.step handler.now.setting (M.is_trusted room.new) (M.stands room.old)
        (M.stands room.new))
        (R.left connection.old.reader)
        (record {
          given = C.given clock.old;
          kept = N.held observer.old;
          held = W.held connection.old.writer;
        })
        (record {
          given = C.given clock.new;
          kept = N.held observer.new;
          held = W.held connection.new.writer;
        })
        result course) }
    ensures kept { M.is_trusted room.new → M.is_kept room.new ⊎ M.is_shut room.new }
    ensures failed { result ≢ endings.JournalFailed
        → N.has_failed observer.new ≡ N.has_failed observer.old }
    ensures none_missed { MissesNone (R.left connection.old.reader)
        (R.left connection.new.reader) (C.given clock.old) (C.given clock.new) result }
{
    let Ok(mut inbox) = Inbox::new(handler.alloc) else {
        return ServeEnd::Memory;
    };
    let mut left = budget;
    'messages: loop {
        let read = read_message(&mut inbox, &mut connection.reader, &mut left);
        let arrived = match arrived(&inbox, &read) {
            Ok(arrived) => arrived,
            Err(end) => return end,
        };
        if let Err(end) = answer(
            handler,
            &arrived,
            &mut connection.writer,
            room,
            clock,
            observer,
        ) {
            return end;
        }
        if arrived.is_closing() {
            return ServeEnd::Closed;
        }
        if let Ok(layout) = &read {
            inbox.remove(layout);
        }
    }
}

// What was read, as it is answered, or why serving ends with no answer.
fn arrived<'inbox>(
    inbox: &'inbox Inbox,
    read: &Result<Layout, Unread>,
) -> Result<Arrived<'inbox>, ServeEnd>
    requires { IfOk read.now (IsWhole inbox.now) }
    ensures ok { IfOk result (λ arrived. (o : Arrival) × IsReadAs inbox.now read.now o
        × IsShown arrived o) }
    ensures err { IfErr result (EndsAs read.now) }
{
    match read {
        Ok(layout) => Ok(Arrived::Message {
            message: inbox.message(layout),
            bytes: &inbox.bytes()[..layout.body.end],
        }),
        Err(Unread::Refused { refusal, head_only }) => Ok(Arrived::Refused {
            refusal: *refusal,
            head_only: *head_only,
        }),
        Err(Unread::End) => Err(ServeEnd::Closed),
        Err(Unread::Cut) => Err(ServeEnd::Cut),
        Err(Unread::ReadFault) => Err(ServeEnd::ReadFault),
        Err(Unread::ReadsSpent) => Err(ServeEnd::ReadsSpent),
    }
}
