//! Messages read from a source. A message is found where it lies in the inbox: nothing is copied.
ghost use Rattle.std.specs.Prelude.{◌≡◌, false};
ghost use Rattle.room_http_messages.specs.Readings.{ReadsMessage};

use crate::inbox::Inbox;
use crate::message_prefixes::{MessagePrefix, look_at};
use crate::messages::Layout;
use crate::read_faults::Unread;
use crate::sources::Source;

/// Reads until the first message of the stream is whole, and returns where its parts are in the
/// inbox; or why there is none. The message stays at the front of the inbox, where `Inbox::message`
/// shows it, until `Inbox::remove` lets it go.
///
/// Each read takes one of the `budget`. The head is looked at after each read that may have made it
/// whole, and not while only the body is short: so a peer that sends single bytes makes at most
/// `HEAD_LIMIT` looks a message.
pub fn read_message<R: Source>(
    inbox: &mut Inbox,
    reader: &mut R,
    budget: &mut u32,
) -> Result<Layout, Unread>
    requires { R.has_failed reader.old ≡ false }
    ensures { ReadsMessage R.left R.reads R.has_failed R.has_ended reader.old reader.new inbox.old
        inbox.new budget.old budget.new result }
{
    'looks: loop {
        let wanted = match look_at(inbox.bytes()) {
            MessagePrefix::Whole(layout) => return Ok(layout),
            MessagePrefix::Refused { refusal, head_only } => {
                return Err(Unread::Refused { refusal, head_only });
            }
            MessagePrefix::Needs(count) => count,
        };
        'reads: while inbox.bytes().len() < wanted {
            inbox.read_once(reader, budget)?;
        }
    }
}
