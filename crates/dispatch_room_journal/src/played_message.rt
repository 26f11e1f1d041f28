//! One message of a journal, played.
ghost use Rattle.std.specs.Prelude.{◌≡◌, ◌≤◌, ◌↔◌, [], length, IsTrue, IfOk, IfErr, List, decimal};
ghost use Rattle.std.specs.Prelude.{MatchOption};
ghost use Rattle.room_types.specs.declared.fleet.Terminal.{Terminal};
ghost use Rattle.room_model.specs.Room.{Room as Held};
ghost use Rattle.room_http_messages.specs.declared.limits.TheConstants.{INBOX_ROOM};
ghost use Rattle.room_http_messages.specs.Layouts.{Shows};
ghost use Rattle.room_http_messages.specs.Messages.{WholeMessage, HasMessage};
ghost use Rattle.dispatch_room_journal.specs.ReplayFaults.{IsNoMessage, IsUnavailableFault};
ghost use Rattle.dispatch_room_journal.specs.ReplayFaults.{miss_fault};
ghost use Rattle.dispatch_room_journal.specs.JournalRecords.{status_in};
ghost use Rattle.dispatch_room_journal.specs.Replays.{IsHeadOf, UnlessUnavailable, digits_of};
ghost use Rattle.dispatch_room_journal.specs.ReplaySteps.{Plays, PlaysTowards};

use crate::answer_statuses::status_in;
use crate::journal_digests::digest_of;
use crate::replay_faults::ReplayFault;
use itoa::Buffer;
use room_http::arrivals::Arrived;
use room_http::digest_replies::reply_towards;
use room_http::handlers::Handler;
use room_http::replies::reply;
use room_http_messages::message_prefixes::{MessagePrefix, look_at};
use room_http_messages::messages::Message;
use room_model::digests::{DigestMismatch, Digested, StartDigest};
use room_model::rooms::Room;
use room_types::numbers::Moment;

/// The message that the bytes are, one and nothing after it.
fn message_in(bytes: &[u8]) -> Option<Message<'_>>
    requires { length bytes.now ≤ INBOX_ROOM }
    ensures { MatchOption result (IsNoMessage bytes.now)
        (λ shown. (m : WholeMessage) × HasMessage bytes.now m [] × Shows shown m
        × (1 ≤ length bytes.now)) }
{
    let MessagePrefix::Whole(layout) = look_at(bytes) else {
        return None;
    };
    if layout.body.end != bytes.len() {
        return None;
    }
    Some(Message {
        method: layout.method.of(bytes),
        target: layout.target.of(bytes),
        body: layout.body.of(bytes),
        terminal: layout.terminal.map(|value| value.of(bytes)),
        head_only: layout.head_only,
        closing: layout.closing,
    })
}

/// Plays a message: the bytes of its answer. Where the bytes are no message, nothing is done.
pub fn play<M: Room>(
    handler: &Handler,
    room: &mut M,
    sent: &[u8],
    at: Moment,
) -> Result<Vec<u8>, ReplayFault>
    requires ready { M.is_ready room.old }
    requires fits { length sent.now ≤ INBOX_ROOM }
    ensures ready { M.is_ready room.new }
    ensures zone { M.zone room.new ≡ M.zone room.old }
    ensures trusted { M.is_trusted room.new → M.is_trusted room.old }
    ensures plays { Plays M.step handler.now.setting (M.is_trusted room.new) (M.stands room.old)
        (M.stands room.new) at sent.now result }
    ensures kept { M.is_trusted room.new → UnlessUnavailable result (M.is_kept room.old
        → M.is_kept room.new) }
{
    let Some(message) = message_in(sent) else {
        return Err(ReplayFault::Bad);
    };
    let mut asker = None;
    match reply(
        handler,
        room,
        &Arrived::Message {
            message,
            bytes: sent,
        },
        at,
        &mut asker,
    ) {
        Ok(response) => Ok(response),
        Err(refusal) => Err(ReplayFault::Unavailable(refusal)),
    }
}

/// Plays a message where the room comes by it to the digest of this head. Where not, nothing is
/// done.
pub fn play_towards<M: Digested>(
    handler: &Handler,
    room: &mut M,
    sent: &[u8],
    at: Moment,
    head: &StartDigest,
) -> Result<(), ReplayFault>
    requires ready { M.is_ready room.old }
    requires fits { length sent.now ≤ INBOX_ROOM }
    ensures ready { M.is_ready room.new }
    ensures zone { M.zone room.new ≡ M.zone room.old }
    ensures trusted { M.is_trusted room.new → M.is_trusted room.old }
    ensures plays { PlaysTowards M.step handler.now.setting
        (digits_of M.digest_of (M.zone room.old)) (M.is_trusted room.new)
        (M.stands room.old) (M.stands room.new) at sent.now head.now result }
    ensures kept { M.is_trusted room.new → UnlessUnavailable result (M.is_kept room.old
        → M.is_kept room.new) }
{
    let Some(message) = message_in(sent) else {
        return Err(ReplayFault::Bad);
    };
    match reply_towards(
        handler,
        room,
        &Arrived::Message {
            message,
            bytes: sent,
        },
        at,
        head,
    ) {
        Ok(response) => {
            drop(response);
            Ok(())
        }
        Err(miss) => Err(fault_of(miss)),
    }
}

// The fault that reports that a room did not come to a digest.
fn fault_of(miss: DigestMismatch) -> ReplayFault
    ensures { result ≡ miss_fault miss }
{
    match miss {
        DigestMismatch::OtherDigest => ReplayFault::OtherRoom,
        DigestMismatch::Unavailable(refusal) => ReplayFault::Unavailable(refusal),
    }
}

/// Whether an answer has this status.
pub fn has_status(answer: &[u8], status: u16) -> bool
    ensures { IsTrue result ↔ (status_in answer.now ≡ decimal status) }
{
    Buffer::new().format(status).as_bytes() == status_in(answer)
}

/// Whether the digest of the room's rows is that of this head.
pub fn is_at<M: Digested>(room: &mut M, head: &StartDigest) -> Result<bool, ReplayFault>
    requires { M.is_ready room.old }
    ensures ready { M.is_ready room.new }
    ensures zone { M.zone room.new ≡ M.zone room.old }
    ensures trusted { M.is_trusted room.new → M.is_trusted room.old }
    ensures same { M.is_trusted room.new → (terminals : List Terminal) (room_then : Held)
        → M.stands room.old terminals room_then → M.stands room.new terminals room_then }
    ensures says { M.is_trusted room.new → IfOk result (λ is. (terminals : List Terminal)
        (room_then : Held) → M.stands room.old terminals room_then
        → (IsTrue is ↔ IsHeadOf (digits_of M.digest_of (M.zone room.old)) head.now
        terminals room_then)) }
    ensures kept { M.is_trusted room.new → UnlessUnavailable result (M.is_kept room.old
        → M.is_kept room.new) }
    ensures unavailable { IfErr result IsUnavailableFault }
{
    match room.digest(head.version) {
        Ok(hash) => Ok(digest_of(&hash).as_slice() == head.digits.as_slice()),
        Err(refusal) => Err(ReplayFault::Unavailable(refusal)),
    }
}
