//! The bytes of a stream that were read and that no message has taken yet.
ghost use Rattle.std.specs.Prelude.{◌≡◌, ◌≤◌, ◌<◌, ℕ, List, [], length, drop, take, vec_len, IfOk};
ghost use Rattle.std.specs.Prelude.{false};
ghost use Rattle.room_http_messages.specs.declared.limits.TheConstants.{INBOX_ROOM};
ghost use Rattle.room_http_messages.specs.Layouts.{IsLayout, LiesWithin, Shows};
ghost use Rattle.room_http_messages.specs.Messages.{IsPart, WholeMessage};
ghost use Rattle.room_http_messages.specs.Readings.{ReadsOnce};

use crate::limits::INBOX_ROOM;
use crate::messages::{Layout, Message};
use crate::read_faults::Unread;
use crate::sources::Source;
use std::alloc::{AllocError, Global};
use std::marker::Model;

/// The bytes of a stream that were read and that no message has taken yet. It has room for the
/// longest message, which `new` takes once: nothing else here takes memory.
#[derive(Drop)]
pub struct Inbox {
    room: Vec<u8>,
    len: usize,
}

impl Model for Inbox {
    ghost Value = { List ℕ };

    ghost view = { λ inbox. take inbox.len inbox.room.items };

    ghost invariant = { λ inbox. (vec_len inbox.room ≡ INBOX_ROOM) × (inbox.len ≤ INBOX_ROOM) };
}

impl Inbox {
    /// An inbox without bytes.
    pub fn new(alloc: Global) -> Result<Inbox, AllocError>
        ensures { IfOk result (λ inbox. inbox ≡ []) }
    {
        Ok(Inbox {
            room: vec![in alloc; 0; INBOX_ROOM]?,
            len: 0,
        })
    }

    /// The bytes.
    pub fn bytes(&self) -> &[u8]
        ensures value { result.now ≡ self.now }
        ensures fits { length result.now ≤ INBOX_ROOM }
    {
        &self.room.as_slice()[..self.len]
    }

    /// One read into the room that is left, which takes one of the budget. The inbox holds a part
    /// of a message.
    pub fn read_once<R: Source>(&mut self, reader: &mut R, budget: &mut u32) -> Result<(), Unread>
        requires sound { R.has_failed reader.old ≡ false }
        requires room { length self.old < INBOX_ROOM }
        requires part { IsPart self.old }
        ensures { ReadsOnce R.left R.reads R.has_failed R.has_ended reader.old reader.new self.old
            self.new budget.old budget.new result }
    {
        if *budget == 0 {
            return Err(Unread::ReadsSpent);
        }
        *budget -= 1;
        let len = self.len;
        match reader.read(&mut self.room.as_mut_slice()[len..]) {
            Ok(0) if len == 0 => Err(Unread::End),
            Ok(0) => Err(Unread::Cut),
            Ok(count) => {
                self.len = len + count;
                Ok(())
            }
            Err(_) => Err(Unread::ReadFault),
        }
    }

    /// The message that has this layout.
    pub fn message(&self, layout: &Layout) -> Message<'_>
        requires { LiesWithin (length self.now) layout.now }
        ensures { (m : WholeMessage) → IsLayout self.now layout.now m → Shows result m }
    {
        let bytes = self.bytes();
        Message {
            method: layout.method.of(bytes),
            target: layout.target.of(bytes),
            body: layout.body.of(bytes),
            terminal: layout.terminal.map(|value| value.of(bytes)),
            head_only: layout.head_only,
            closing: layout.closing,
        }
    }

    /// Lets the message at the front go, so that what follows it comes to the front.
    pub fn remove(&mut self, layout: &Layout)
        requires { layout.now.body.end ≤ length self.old }
        ensures { self.new ≡ drop layout.now.body.end self.old }
    {
        let (end, len) = (layout.body.end, self.len);
        self.room.copy_within(end..len, 0);
        self.len = len - end;
    }
}
