//! What becomes of a message, by what follows it in the journal.
ghost use Rattle.std.specs.Prelude.{◌≡◌, ◌≤◌, length};
ghost use Rattle.room_http_messages.specs.declared.limits.TheConstants.{INBOX_ROOM};
ghost use Rattle.dispatch_room_journal.specs.declared.entry_lines.EntryLine.TheVariants.{Answer};
ghost use Rattle.dispatch_room_journal.specs.declared.entry_lines.EntryLine.TheVariants.{Room};
ghost use Rattle.dispatch_room_journal.specs.Replays.{UnlessUnavailable, digits_of};
ghost use Rattle.dispatch_room_journal.specs.ReplaySteps.{Settles};

use crate::entry_lines::EntryLine;
use crate::played_message::{has_status, is_at, play, play_towards};
use crate::replay_faults::ReplayFault;
use room_http::handlers::Handler;
use room_model::digests::{Digested, StartDigest};
use room_types::numbers::Moment;

/// Plays a message that has this status, whose entry is taken with it.
fn play_answered<M: Digested>(
    handler: &Handler,
    room: &mut M,
    sent: &[u8],
    at: Moment,
    status: u16,
) -> Result<bool, ReplayFault>
    requires ready { M.is_ready room.old }
    requires fits { length sent.now ≤ INBOX_ROOM }
    ensures ready { M.is_ready room.new }
    ensures zone { M.zone room.new ≡ M.zone room.old }
    ensures trusted { M.is_trusted room.new → M.is_trusted room.old }
    ensures turn { Settles M.step handler.now.setting (digits_of M.digest_of (M.zone room.old))
        (M.is_trusted room.new)
        (M.stands room.old) (M.stands room.new) at sent.now (Answer status) result }
    ensures kept { M.is_trusted room.new → UnlessUnavailable result (M.is_kept room.old
        → M.is_kept room.new) }
{
    match play(handler, room, sent, at) {
        Ok(response) => {
            if has_status(response.as_slice(), status) {
                Ok(true)
            } else {
                Err(ReplayFault::Differs)
            }
        }
        Err(fault) => Err(fault),
    }
}

/// Plays a message that has no status before the head of a part, where the room has not come to
/// the head's digest yet and comes to it by the message. Where it would come to another digest,
/// nothing is done. Returns whether the message was played.
fn replay_unanswered<M: Digested>(
    handler: &Handler,
    room: &mut M,
    sent: &[u8],
    at: Moment,
    head: &StartDigest,
) -> Result<bool, ReplayFault>
    requires ready { M.is_ready room.old }
    requires fits { length sent.now ≤ INBOX_ROOM }
    ensures ready { M.is_ready room.new }
    ensures zone { M.zone room.new ≡ M.zone room.old }
    ensures trusted { M.is_trusted room.new → M.is_trusted room.old }
    ensures turn { Settles M.step handler.now.setting (digits_of M.digest_of (M.zone room.old))
        (M.is_trusted room.new)
        (M.stands room.old) (M.stands room.new) at sent.now (Room head.now) result }
    ensures kept { M.is_trusted room.new → UnlessUnavailable result (M.is_kept room.old
        → M.is_kept room.new) }
{
    match is_at(room, head) {
        Ok(true) => Ok(false),
        Ok(false) => match play_towards(handler, room, sent, at, head) {
            Ok(()) => Ok(true),
            Err(fault) => Err(fault),
        },
        Err(fault) => Err(fault),
    }
}

/// Plays a message or leaves it out, by the line that follows it. Returns whether that line's entry
/// is taken with it.
pub fn settle<M: Digested>(
    handler: &Handler,
    room: &mut M,
    sent: &[u8],
    at: Moment,
    line: &EntryLine,
) -> Result<bool, ReplayFault>
    requires ready { M.is_ready room.old }
    requires fits { length sent.now ≤ INBOX_ROOM }
    ensures ready { M.is_ready room.new }
    ensures zone { M.zone room.new ≡ M.zone room.old }
    ensures trusted { M.is_trusted room.new → M.is_trusted room.old }
    ensures turn { Settles M.step handler.now.setting (digits_of M.digest_of (M.zone room.old))
        (M.is_trusted room.new)
        (M.stands room.old) (M.stands room.new) at sent.now line.now result }
    ensures kept { M.is_trusted room.new → UnlessUnavailable result (M.is_kept room.old
        → M.is_kept room.new) }
{
    match line {
        EntryLine::Answer(status) => play_answered(handler, room, sent, at, *status),
        EntryLine::Room(head) => replay_unanswered(handler, room, sent, at, head),
        EntryLine::Message { .. } => Ok(false),
    }
}
