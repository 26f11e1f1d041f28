//! What stands next in a journal.
ghost use Rattle.std.specs.Prelude.{◌≡◌, ◌↔◌, None, Ok, false, true, IsTrue};
ghost use Rattle.std.specs.Io.KnownBytes.{prepend_known};
ghost use Rattle.dispatch_room_journal.specs.declared.next_entry.Next.TheVariants.{End};
ghost use Rattle.dispatch_room_journal.specs.ReplayFaults.{read_fault};
ghost use Rattle.dispatch_room_journal.specs.Replays.{UnlessUnavailable, digits_of};
ghost use Rattle.dispatch_room_journal.specs.ReplaySteps.{NextIs};
ghost use Rattle.dispatch_room_journal.specs.ReplayedTurns.{IsAfter};

use crate::entry_lines::EntryLine;
use crate::entry_prefixes::EntryLayout;
use crate::entry_reader::{EntryFault, read_entry};
use crate::journal_inbox::JournalInbox;
use crate::played_message::is_at;
use crate::replay_faults::ReplayFault;
use room_http_messages::sources::Source;
use room_model::digests::Digested;
use room_types::numbers::Moment;

/// What stands next in a journal.
#[derive(Clone, Copy)]
pub enum Next {
    /// A head, which was taken: the room has its digest.
    StartDigest,
    /// A message, which is at the front of the inbox.
    Message(MessageEntry),
    /// Nothing, or a message that is later than the last to be played.
    End,
}

/// The entry of a message: its moment, and where it is in the inbox.
#[derive(Clone, Copy)]
pub struct MessageEntry {
    pub at: Moment,
    pub layout: EntryLayout,
}

/// The fault of a read.
pub fn read_fault(fault: EntryFault) -> ReplayFault
    ensures { result ≡ read_fault fault }
{
    match fault {
        EntryFault::Cut | EntryFault::Foreign => ReplayFault::Bad,
        EntryFault::Read => ReplayFault::ReadFailed,
    }
}

/// Whether a moment is after this one, if there is one.
fn is_after(until: &Option<Moment>, at: Moment) -> bool
    ensures { IsTrue result ↔ IsAfter until.now at }
{
    match until {
        Some(until) => until.get() < at.get(),
        None => false,
    }
}

/// What stands next in a journal, up to a moment. A head is compared with the room, and taken.
pub fn next_entry<R: Source, M: Digested>(
    inbox: &mut JournalInbox,
    reader: &mut R,
    room: &mut M,
    until: &Option<Moment>,
    is_begun: bool,
) -> Result<Next, ReplayFault>
    requires ready { M.is_ready room.old }
    requires sound { R.has_failed reader.old ≡ false }
    ensures ready { M.is_ready room.new }
    ensures zone { M.zone room.new ≡ M.zone room.old }
    ensures trusted { M.is_trusted room.new → M.is_trusted room.old }
    ensures next { NextIs (digits_of M.digest_of (M.zone room.old)) (M.is_trusted room.new)
        (M.stands room.old) (M.stands room.new) (prepend_known inbox.old.kept (R.left reader.old))
        (prepend_known inbox.new.kept (R.left reader.new)) (R.has_failed reader.new) until.now
        is_begun inbox.new.kept result }
    ensures ended { until.now ≡ None → result ≡ Ok End → R.has_ended reader.new ≡ true }
    ensures kept { M.is_trusted room.new → UnlessUnavailable result (M.is_kept room.old
        → M.is_kept room.new) }
{
    match read_entry(inbox, reader) {
        Err(fault) => Err(read_fault(fault)),
        Ok(None) => Ok(Next::End),
        Ok(Some(layout)) => match &layout.line {
            EntryLine::Room(head) => match is_at(room, head) {
                Ok(true) => {
                    inbox.remove(&layout);
                    Ok(Next::StartDigest)
                }
                Ok(false) => Err(ReplayFault::OtherRoom),
                Err(fault) => Err(fault),
            },
            EntryLine::Message { at, .. } => {
                if !is_begun {
                    Err(ReplayFault::Bad)
                } else if is_after(until, *at) {
                    Ok(Next::End)
                } else {
                    Ok(Next::Message(MessageEntry { at: *at, layout }))
                }
            }
            EntryLine::Answer(_) => Err(ReplayFault::Bad),
        },
    }
}
