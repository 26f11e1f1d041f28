//! The answer to what has arrived, and what becomes of the room.
ghost use Rattle.std.specs.Prelude.{◌≡◌, Err, IfErr, IfOk};
ghost use Rattle.room_types.specs.declared.refusal_statuses.Refusal.TheVariants as refusals;
ghost use Rattle.room_http.specs.ReplyMessages.{IsReply};
ghost use Rattle.room_http.specs.Replies.{KeepsReply, Replies};

use crate::arrivals::Arrived;
use crate::handlers::Handler;
use crate::message_events::event_of;
use crate::reply_messages::render;
use room_model::rooms::Room;
use room_types::asks::Who;
use room_types::numbers::Moment;
use room_types::refusal_statuses::Refusal;
use std::alloc::Global;

/// The bytes of the answer to what has arrived. The room has acted on it once they are there. A
/// refusal is lack of memory or of storage; it leaves the room as it was. Whose terminal asks, is
/// noted once it is known.
pub fn reply<M: Room>(
    handler: &Handler,
    room: &mut M,
    arrived: &Arrived,
    at: Moment,
    asker: &mut Option<Who>,
) -> Result<Vec<u8>, Refusal>
    requires { M.is_ready room.old }
    ensures ready { M.is_ready room.new }
    ensures zone { M.zone room.new ≡ M.zone room.old }
    ensures reply { Replies M.step M.is_trusted M.has_failed M.stands room.old room.new
        handler.now.setting arrived.now at result }
    ensures keeps { KeepsReply M.step M.is_trusted M.is_kept M.stands M.leaves_one_of
        room.old room.new handler.now.setting arrived.now at result }
{
    let (head_only, closing) = (arrived.head_only(), arrived.is_closing());
    let message = match arrived {
        Arrived::Message { message, .. } => message,
        Arrived::Refused { refusal, .. } => {
            return refused(handler.alloc, *refusal, at, head_only, closing);
        }
    };
    match event_of(handler, room, message, at, asker) {
        Ok(event) => room.act(handler.alloc, &event, |answer| {
            render(handler.alloc, answer, at, head_only, closing)
        }),
        Err(Refusal::Memory) => Err(Refusal::Memory),
        Err(Refusal::Storage) => Err(Refusal::Storage),
        Err(refusal) => refused(handler.alloc, refusal, at, head_only, closing),
    }
}

// The bytes of the answer that reports a refusal.
fn refused(
    alloc: Global,
    refusal: Refusal,
    at: Moment,
    head_only: bool,
    closing: bool,
) -> Result<Vec<u8>, Refusal>
    ensures ok { IfOk result (λ bytes. IsReply (Err refusal) at head_only closing bytes.items) }
    ensures err { IfErr result (λ cause. cause ≡ refusals.Memory) }
{
    render(alloc, &Err(refusal), at, head_only, closing)
}
