//! The answer to what has arrived, where the room comes to a digest by it.
ghost use Rattle.std.specs.Prelude.{◌≡◌};
ghost use Rattle.room_model.specs.Digests.{digits_of};
ghost use Rattle.room_http.specs.DigestReplies.{RepliesTowards};

use crate::arrivals::Arrived;
use crate::handlers::Handler;
use crate::message_events::event_of;
use crate::reply_messages::render;
use room_model::digests::{DigestMismatch, Digested, StartDigest};
use room_types::numbers::Moment;
use room_types::refusal_statuses::Refusal;

/// The bytes of the answer to what has arrived, where the room comes by it to the digest of this
/// head. The room has acted on it once they are there; where not, it is as it was. What is
/// refused before it reaches the room leaves it at the digest that it has, which is another.
pub fn reply_towards<M: Digested>(
    handler: &Handler,
    room: &mut M,
    arrived: &Arrived,
    at: Moment,
    head: &StartDigest,
) -> Result<Vec<u8>, DigestMismatch>
    requires { M.is_ready room.old }
    ensures ready { M.is_ready room.new }
    ensures zone { M.zone room.new ≡ M.zone room.old }
    ensures reply { RepliesTowards M.step (digits_of M.digest_of (M.zone room.old)) M.is_trusted
        M.is_kept M.stands room.old room.new handler.now.setting arrived.now at head.now result }
{
    let (head_only, closing) = (arrived.head_only(), arrived.is_closing());
    let message = match arrived {
        Arrived::Message { message, .. } => message,
        Arrived::Refused { .. } => return Err(DigestMismatch::OtherDigest),
    };
    let mut asker = None;
    match event_of(handler, room, message, at, &mut asker) {
        Ok(event) => room.act_towards(handler.alloc, &event, head, |answer| {
            render(handler.alloc, answer, at, head_only, closing)
        }),
        Err(Refusal::Memory) => Err(DigestMismatch::Unavailable(Refusal::Memory)),
        Err(Refusal::Storage) => Err(DigestMismatch::Unavailable(Refusal::Storage)),
        Err(_) => Err(DigestMismatch::OtherDigest),
    }
}
