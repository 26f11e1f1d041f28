//! What stands ahead in a stream, before any of it is served.
ghost use Rattle.std.specs.Io.KnownBytes.{Keeps, prepend_known};
ghost use Rattle.std.specs.Prelude.{◌≡◌, ◌≤◌, false, length, true};
ghost use Rattle.room_http_messages.specs.declared.limits.TheConstants.{INBOX_ROOM};
ghost use Rattle.dispatch_room_sockets.specs.Lookaheads.{LookaheadIs, StandsAhead, StaysInFront};
ghost use Rattle.dispatch_room_sockets.specs.Lookaheads.{heard_of, may_grow};

use crate::kept_callers::Heard;
use crate::nonblocking_streams::{NoBytes, NonblockingStream};
use crate::unserved_bytes::UnservedBytes;
use room_http_messages::limits::INBOX_ROOM;
use room_http_messages::message_prefixes::{MessagePrefix, look_at};

/// What stands ahead in a stream.
#[derive(Clone, Copy)]
pub enum Lookahead {
    /// Nothing yet.
    Nothing,
    /// A part of a request.
    Part,
    /// A request of so many bytes, which is whole.
    Whole(usize),
    /// What is refused, whatever follows, or a part of a request of which no more comes.
    Last,
    /// The end, or the stream is lost.
    End,
}

/// What stands ahead in a stream that doesn't block, by what was read of it and can be read now, by
/// way of some room. Once that is more than a part, no more is read.
pub(crate) fn look_ahead<T: NonblockingStream>(
    unserved: &mut UnservedBytes,
    stream: &mut T,
    room: &mut [u8],
) -> Lookahead
    ensures seen { StandsAhead (length room.old) (T.gives stream.new) (T.left stream.new)
        unserved.new result }
    ensures kept { Keeps (prepend_known unserved.old (T.left stream.old))
        (prepend_known unserved.new (T.left stream.new)) }
    ensures front { StaysInFront unserved.old unserved.new }
{
    for _read in 0..INBOX_ROOM {
        let ahead = lookahead_of(unserved.bytes(), false);
        if !ahead.may_grow() {
            return ahead;
        }
        match unserved.fill(stream, room) {
            Ok(0) => return lookahead_of(unserved.bytes(), true),
            Ok(_) => {}
            Err(NoBytes::Yet) => return ahead,
            Err(NoBytes::Ever) => return Lookahead::End,
        }
    }
    lookahead_of(unserved.bytes(), false)
}

// What these bytes are at the front of a stream that has ended after them or may go on. It is said
// by what reads them.
fn lookahead_of(bytes: &[u8], has_ended: bool) -> Lookahead
    requires { length bytes.now ≤ INBOX_ROOM }
    ensures { LookaheadIs (has_ended ≡ true) (has_ended ≡ false) bytes.now result }
{
    if bytes.is_empty() {
        return if has_ended {
            Lookahead::End
        } else {
            Lookahead::Nothing
        };
    }
    match look_at(bytes) {
        MessagePrefix::Whole(layout) => Lookahead::Whole(layout.body.end),
        MessagePrefix::Refused { .. } => Lookahead::Last,
        MessagePrefix::Needs(_) if has_ended => Lookahead::Last,
        MessagePrefix::Needs(_) => Lookahead::Part,
    }
}

impl Lookahead {
    /// Whether more may come of it.
    pub(crate) fn may_grow(self) -> bool
        ensures { result ≡ may_grow self }
    {
        matches!(self, Lookahead::Nothing | Lookahead::Part)
    }

    /// What is heard of one in whose stream this stands ahead.
    pub(crate) fn heard(self) -> Heard
        ensures { result ≡ heard_of self }
    {
        match self {
            Lookahead::Nothing => Heard::Nothing,
            Lookahead::Part => Heard::Part,
            Lookahead::Whole(_) | Lookahead::Last => Heard::Whole,
            Lookahead::End => Heard::Gone,
        }
    }
}
