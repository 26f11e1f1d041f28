//! A message of a journal, and what becomes of it.
ghost use Rattle.std.specs.Prelude.{◌≡◌, ℕ, List, Ok, false, true};
ghost use Rattle.std.specs.Io.KnownBytes.{prepend_known};
ghost use Rattle.dispatch_room_journal.specs.Entries.{message};
ghost use Rattle.dispatch_room_journal.specs.EntryPrefixes.{IsLayout};
ghost use Rattle.dispatch_room_journal.specs.declared.journal_messages.MessageOutcome.TheVariants.{Last};
ghost use Rattle.dispatch_room_journal.specs.Replays.{UnlessUnavailable, digits_of};
ghost use Rattle.dispatch_room_journal.specs.ReplaySteps.{MessageIs};

use crate::entry_reader::read_entry;
use crate::journal_inbox::JournalInbox;
use crate::next_entry::{MessageEntry, read_fault};
use crate::replay_faults::ReplayFault;
use crate::replay_outcomes::settle;
use room_http::handlers::Handler;
use room_http_messages::sources::Source;
use room_model::digests::Digested;
use room_types::refusal_statuses::Refusal;

/// What became of a message.
#[derive(Clone, Copy)]
pub enum MessageOutcome {
    /// It was played, with what followed it.
    Played,
    /// It has no status, and was left out.
    LeftOut,
    /// It was left out too, and nothing follows it.
    Last,
}

/// Plays the message at the front of the journal, or leaves it out, by what follows it. It is
/// copied, since what follows it takes its place.
pub fn replay_message<R: Source, M: Digested>(
    handler: &Handler,
    inbox: &mut JournalInbox,
    reader: &mut R,
    room: &mut M,
    entry: &MessageEntry,
) -> Result<MessageOutcome, ReplayFault>
    requires ready { M.is_ready room.old }
    requires sound { R.has_failed reader.old ≡ false }
    requires front { (sent : List ℕ) × IsLayout inbox.old.kept entry.now.layout
        (message entry.now.at sent) }
    ensures ready { M.is_ready room.new }
    ensures zone { M.zone room.new ≡ M.zone room.old }
    ensures trusted { M.is_trusted room.new → M.is_trusted room.old }
    ensures turn { MessageIs M.step handler.now.setting (digits_of M.digest_of (M.zone room.old))
        (M.is_trusted room.new) (M.stands room.old) (M.stands room.new)
        (prepend_known inbox.old.kept (R.left reader.old))
        (prepend_known inbox.new.kept (R.left reader.new)) (R.has_failed reader.new)
        entry.now.at result }
    ensures ended { result ≡ Ok Last → R.has_ended reader.new ≡ true }
    ensures kept { M.is_trusted room.new → UnlessUnavailable result (M.is_kept room.old
        → M.is_kept room.new) }
{
    let Ok(sent) = inbox.message(&entry.layout).to_vec(handler.alloc) else {
        return Err(ReplayFault::Unavailable(Refusal::Memory));
    };
    inbox.remove(&entry.layout);
    match read_entry(inbox, reader) {
        Err(fault) => Err(read_fault(fault)),
        Ok(None) => Ok(MessageOutcome::Last),
        Ok(Some(next)) => match settle(handler, room, sent.as_slice(), entry.at, &next.line) {
            Ok(true) => {
                inbox.remove(&next);
                Ok(MessageOutcome::Played)
            }
            Ok(false) => Ok(MessageOutcome::LeftOut),
            Err(fault) => Err(fault),
        },
    }
}
