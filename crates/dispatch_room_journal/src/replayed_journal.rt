//! A journal, replayed.
ghost use Rattle.std.specs.Prelude.{◌≡◌, ◌+◌, [], None, Ok, OnOk, false, min, true};
ghost use Rattle.std.specs.Io.KnownBytes.{prepend_known};
ghost use Rattle.room_types.specs.declared.refusal_statuses.Refusal.TheVariants.{Memory};
ghost use Rattle.dispatch_room_journal.specs.declared.replay_faults.ReplayFault.TheVariants.{Unavailable};
ghost use Rattle.dispatch_room_journal.specs.Replays.{Replays, UnlessStopped, UnlessUnavailable};
ghost use Rattle.dispatch_room_journal.specs.Replays.{digits_of};
ghost use Rattle.dispatch_room_journal.specs.ReplaySteps.{TakesTurn};
ghost use Rattle.dispatch_room_journal.specs.ReplayedTurns.{IsReplayed};

use crate::journal_inbox::JournalInbox;
use crate::journal_messages::{MessageOutcome, replay_message};
use crate::next_entry::{Next, next_entry};
use crate::replay_faults::{ReplayFault, Stopped};
use crate::replay_progress::Progress;
use room_http::handlers::Handler;
use room_http::settings::HttpSettings;
use room_http_messages::sources::Source;
use room_model::digests::Digested;
use room_types::numbers::Moment;
use room_types::refusal_statuses::Refusal;
use std::alloc::Global;

/// A journal was replayed.
#[derive(Clone, Copy)]
pub struct Replayed {
    /// The number of its messages, which stops at the greatest of its type.
    pub messages: u64,
    /// Whether the last of them has no status, and was left out.
    pub is_open: bool,
}

/// Replays a journal to a room that stands where it begins: each message that has a status is
/// played at its moment, and its answer's status compared. A message that has none is played where
/// the journal goes on at a room that comes from it. It stops before the first message that is
/// later than `until`. Where no `until` is given, it ends well only where the journal has ended.
pub fn replay<R: Source, M: Digested>(
    alloc: Global,
    reader: &mut R,
    room: &mut M,
    setting: &HttpSettings,
    until: &Option<Moment>,
) -> Result<Replayed, Stopped>
    requires reader { R.has_failed reader.old ≡ false }
    requires ready { M.is_ready room.old }
    ensures ready { M.is_ready room.new }
    ensures zone { M.zone room.new ≡ M.zone room.old }
    ensures trusted { M.is_trusted room.new → M.is_trusted room.old }
    ensures replay { Replays M.step setting.now (digits_of M.digest_of (M.zone room.old))
        (M.is_trusted room.new)
        (M.stands room.old) (M.stands room.new) (R.left reader.old) until.now
        (R.has_failed reader.new) result }
    ensures ended { until.now ≡ None → OnOk result (R.has_ended reader.new ≡ true) }
    ensures kept { M.is_trusted room.new → UnlessStopped result (M.is_kept room.old
        → M.is_kept room.new) }
{
    let Ok(mut inbox) = JournalInbox::new(alloc) else {
        return Err(memory());
    };
    match Handler::new(alloc, *setting) {
        Ok(handler) => replay_turns(&handler, &mut inbox, reader, room, until),
        Err(_) => Err(memory()),
    }
}

/// Replays a journal of which nothing was read yet.
fn replay_turns<R: Source, M: Digested>(
    handler: &Handler,
    inbox: &mut JournalInbox,
    reader: &mut R,
    room: &mut M,
    until: &Option<Moment>,
) -> Result<Replayed, Stopped>
    requires reader { R.has_failed reader.old ≡ false }
    requires ready { M.is_ready room.old }
    requires empty { inbox.old.kept ≡ [] }
    ensures ready { M.is_ready room.new }
    ensures zone { M.zone room.new ≡ M.zone room.old }
    ensures trusted { M.is_trusted room.new → M.is_trusted room.old }
    ensures replay { Replays M.step handler.now.setting (digits_of M.digest_of (M.zone room.old))
        (M.is_trusted room.new)
        (M.stands room.old) (M.stands room.new) (R.left reader.old) until.now
        (R.has_failed reader.new) result }
    ensures ended { until.now ≡ None → OnOk result (R.has_ended reader.new ≡ true) }
    ensures kept { M.is_trusted room.new → UnlessStopped result (M.is_kept room.old
        → M.is_kept room.new) }
{
    let mut progress = Progress::new();
    'turns: for _turn in 0..u64::MAX {
        match replay_turn(handler, inbox, reader, room, until, &mut progress) {
            Ok(true) => {}
            Ok(false) => return Ok(done(&progress)),
            Err(fault) => return Err(stopped(fault, &progress)),
        }
    }
    Err(stopped(ReplayFault::Bad, &progress))
}

/// Takes the next turn of a journal, and returns whether the journal goes on.
fn replay_turn<R: Source, M: Digested>(
    handler: &Handler,
    inbox: &mut JournalInbox,
    reader: &mut R,
    room: &mut M,
    until: &Option<Moment>,
    progress: &mut Progress,
) -> Result<bool, ReplayFault>
    requires ready { M.is_ready room.old }
    requires sound { R.has_failed reader.old ≡ false }
    ensures ready { M.is_ready room.new }
    ensures zone { M.zone room.new ≡ M.zone room.old }
    ensures trusted { M.is_trusted room.new → M.is_trusted room.old }
    ensures turn { TakesTurn M.step handler.now.setting (digits_of M.digest_of (M.zone room.old))
        (M.is_trusted room.new) (M.stands room.old) (M.stands room.new)
        (prepend_known inbox.old.kept (R.left reader.old))
        (prepend_known inbox.new.kept (R.left reader.new)) until.now IsReplayed progress.old
        progress.new (R.has_failed reader.new) result }
    ensures ended { until.now ≡ None → result ≡ Ok false → R.has_ended reader.new ≡ true }
    ensures kept { M.is_trusted room.new → UnlessUnavailable result (M.is_kept room.old
        → M.is_kept room.new) }
{
    match next_entry(inbox, reader, room, until, progress.is_begun) {
        Err(fault) => Err(fault),
        Ok(next) => match &next {
            Next::End => Ok(false),
            Next::StartDigest => {
                progress.note_head();
                Ok(true)
            }
            Next::Message(entry) => {
                match replay_message(handler, inbox, reader, room, entry) {
                    Err(fault) => Err(fault),
                    Ok(MessageOutcome::Played) => {
                        progress.note_message(false);
                        Ok(true)
                    }
                    Ok(MessageOutcome::LeftOut) => {
                        progress.note_message(true);
                        Ok(true)
                    }
                    Ok(MessageOutcome::Last) => {
                        progress.note_message(true);
                        Ok(false)
                    }
                }
            }
        },
    }
}

// What was replayed.
fn done(progress: &Progress) -> Replayed
    ensures { result ≡ record {
      messages = progress.now.messages;
      is_open = progress.now.is_open;
    } }
{
    Replayed {
        messages: progress.messages,
        is_open: progress.is_open,
    }
}

/// Memory was refused before anything was read.
pub fn memory() -> Stopped
    ensures { result ≡ record { fault = Unavailable Memory; number = 1 } }
{
    Stopped {
        fault: ReplayFault::Unavailable(Refusal::Memory),
        number: 1,
    }
}

/// It stopped at the next message.
pub fn stopped(fault: ReplayFault, progress: &Progress) -> Stopped
    ensures { result ≡ record {
      fault = fault;
      number = min (progress.now.messages + 1) u64.MAX;
    } }
{
    Stopped {
        fault,
        number: progress.messages.saturating_add(1),
    }
}
