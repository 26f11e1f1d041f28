//! The messages of a journal, each played as soon as it is whole.
ghost use Rattle.std.specs.Prelude.{◌≡◌, [], ℕ, List, Ok, OnOk, false, true, None};
ghost use Rattle.std.specs.Io.KnownBytes.{prepend_known};
ghost use Rattle.dispatch_room_journal.specs.Entries.{message};
ghost use Rattle.dispatch_room_journal.specs.EntryPrefixes.{IsLayout};
ghost use Rattle.dispatch_room_journal.specs.AnswerFrames.{AnswersEach, AnswersTurn, EachIs};
ghost use Rattle.dispatch_room_journal.specs.AnswerFrames.{FollowIs};
ghost use Rattle.dispatch_room_journal.specs.Replays.{UnlessStopped, UnlessUnavailable, digits_of};

use crate::answer_frames::put_frame;
use crate::answer_writers::AnswerWriter;
use crate::entry_lines::EntryLine;
use crate::entry_reader::read_entry;
use crate::journal_inbox::JournalInbox;
use crate::next_entry::{MessageEntry, Next, next_entry, read_fault};
use crate::played_message::{has_status, play};
use crate::replay_faults::{ReplayFault, Stopped};
use crate::replay_progress::Progress;
use crate::replayed_journal::{memory, stopped};
use room_http::handlers::Handler;
use room_http::settings::HttpSettings;
use room_http_messages::sources::Source;
use room_model::digests::Digested;
use std::alloc::Global;
use std::io::Write;

/// Compares the status that follows an answer, if one does, and returns whether it was taken.
fn follow<R: Source>(
    inbox: &mut JournalInbox,
    reader: &mut R,
    response: &[u8],
) -> Result<bool, ReplayFault>
    requires { R.has_failed reader.old ≡ false }
    ensures { FollowIs (prepend_known inbox.old.kept (R.left reader.old))
        (prepend_known inbox.new.kept (R.left reader.new)) (R.has_failed reader.new) response.now
        result }
{
    match read_entry(inbox, reader) {
        Err(fault) => Err(read_fault(fault)),
        Ok(None) => Ok(false),
        Ok(Some(next)) => match &next.line {
            EntryLine::Answer(status) => {
                if has_status(response, *status) {
                    inbox.remove(&next);
                    Ok(true)
                } else {
                    Err(ReplayFault::Differs)
                }
            }
            _ => Ok(false),
        },
    }
}

/// Plays the message at the front of the journal, writes its answer in its frame, and compares the
/// status that follows, if one does.
fn answer_message<R: Source, O: Write, M: Digested>(
    handler: &Handler,
    inbox: &mut JournalInbox,
    reader: &mut R,
    writer: &mut AnswerWriter<'_, O>,
    room: &mut M,
    entry: &MessageEntry,
) -> Result<(), ReplayFault>
    requires ready { M.is_ready room.old }
    requires reader { R.has_failed reader.old ≡ false }
    requires writer { writer.old.failed ≡ false }
    requires front { (sent : List ℕ) × IsLayout inbox.old.kept entry.now.layout
        (message entry.now.at sent) }
    ensures same_reference { writer.new.output.ghost_name ≡ writer.old.output.ghost_name }
    ensures ready { M.is_ready room.new }
    ensures zone { M.zone room.new ≡ M.zone room.old }
    ensures trusted { M.is_trusted room.new → M.is_trusted room.old }
    ensures turn { EachIs M.step handler.now.setting (digits_of M.digest_of (M.zone room.old))
        (M.is_trusted room.new) (M.stands room.old) (M.stands room.new)
        (prepend_known inbox.old.kept (R.left reader.old))
        (prepend_known inbox.new.kept (R.left reader.new)) (O.contents writer.old.output.now)
        (O.contents writer.new.output.now) entry.now.at (R.has_failed reader.new)
        writer.new.failed result }
    ensures kept { M.is_trusted room.new → UnlessUnavailable result (M.is_kept room.old
        → M.is_kept room.new) }
{
    match play(handler, room, inbox.message(&entry.layout), entry.at) {
        Err(fault) => Err(fault),
        Ok(response) => {
            inbox.remove(&entry.layout);
            match put_frame(writer, response.as_slice()) {
                Err(_) => Err(ReplayFault::WriteFailed),
                Ok(()) => match follow(inbox, reader, response.as_slice()) {
                    Ok(_) => Ok(()),
                    Err(fault) => Err(fault),
                },
            }
        }
    }
}

/// Takes the next turn of a journal, and returns whether the journal goes on.
fn answer_turn<R: Source, O: Write, M: Digested>(
    handler: &Handler,
    inbox: &mut JournalInbox,
    reader: &mut R,
    writer: &mut AnswerWriter<'_, O>,
    room: &mut M,
    progress: &mut Progress,
) -> Result<bool, ReplayFault>
    requires ready { M.is_ready room.old }
    requires reader { R.has_failed reader.old ≡ false }
    requires writer { writer.old.failed ≡ false }
    ensures same_reference { writer.new.output.ghost_name ≡ writer.old.output.ghost_name }
    ensures ready { M.is_ready room.new }
    ensures zone { M.zone room.new ≡ M.zone room.old }
    ensures trusted { M.is_trusted room.new → M.is_trusted room.old }
    ensures turn { AnswersTurn M.step handler.now.setting (digits_of M.digest_of (M.zone room.old))
        (M.is_trusted room.new) (M.stands room.old) (M.stands room.new)
        (prepend_known inbox.old.kept (R.left reader.old))
        (prepend_known inbox.new.kept (R.left reader.new)) (O.contents writer.old.output.now)
        (O.contents writer.new.output.now) progress.old progress.new (R.has_failed reader.new)
        writer.new.failed result }
    ensures ended { result ≡ Ok false → R.has_ended reader.new ≡ true }
    ensures kept { M.is_trusted room.new → UnlessUnavailable result (M.is_kept room.old
        → M.is_kept room.new) }
{
    match next_entry(inbox, reader, room, &None, progress.is_begun) {
        Err(fault) => Err(fault),
        Ok(next) => match &next {
            Next::End => Ok(false),
            Next::StartDigest => {
                progress.note_head();
                Ok(true)
            }
            Next::Message(entry) => {
                match answer_message(handler, inbox, reader, writer, room, entry) {
                    Err(fault) => Err(fault),
                    Ok(()) => {
                        progress.note_message(false);
                        Ok(true)
                    }
                }
            }
        },
    }
}

/// Plays the messages of a journal of which nothing was read yet.
fn answer_turns<R: Source, O: Write, M: Digested>(
    handler: &Handler,
    inbox: &mut JournalInbox,
    reader: &mut R,
    writer: &mut AnswerWriter<'_, O>,
    room: &mut M,
) -> Result<u64, Stopped>
    requires reader { R.has_failed reader.old ≡ false }
    requires writer { writer.old.failed ≡ false }
    requires ready { M.is_ready room.old }
    requires empty { inbox.old.kept ≡ [] }
    ensures same_reference { writer.new.output.ghost_name ≡ writer.old.output.ghost_name }
    ensures ready { M.is_ready room.new }
    ensures zone { M.zone room.new ≡ M.zone room.old }
    ensures trusted { M.is_trusted room.new → M.is_trusted room.old }
    ensures answers { AnswersEach M.step handler.now.setting
        (digits_of M.digest_of (M.zone room.old)) (M.is_trusted room.new)
        (M.stands room.old) (M.stands room.new) (R.left reader.old)
        (O.contents writer.old.output.now) (O.contents writer.new.output.now)
        (R.has_failed reader.new) writer.new.failed result }
    ensures ended { OnOk result (R.has_ended reader.new ≡ true) }
    ensures kept { M.is_trusted room.new → UnlessStopped result (M.is_kept room.old
        → M.is_kept room.new) }
{
    let mut progress = Progress::new();
    'turns: for _turn in 0..u64::MAX {
        match answer_turn(handler, inbox, reader, writer, room, &mut progress) {
            Ok(true) => {}
            Ok(false) => return Ok(progress.messages),
            Err(fault) => return Err(stopped(fault, &progress)),
        }
    }
    Err(stopped(ReplayFault::Bad, &progress))
}

/// Plays each message of a journal as soon as it is whole, to a room that stands where the journal
/// begins, and writes each answer in its frame. A status that follows a message is compared with
/// that of its answer, and a head with the room. Returns the number of messages, once the journal
/// has ended.
pub fn answer_each<R: Source, O: Write, M: Digested>(
    alloc: Global,
    reader: &mut R,
    writer: &mut AnswerWriter<'_, O>,
    room: &mut M,
    setting: &HttpSettings,
) -> Result<u64, Stopped>
    requires reader { R.has_failed reader.old ≡ false }
    requires writer { writer.old.failed ≡ false }
    requires ready { M.is_ready room.old }
    ensures same_reference { writer.new.output.ghost_name ≡ writer.old.output.ghost_name }
    ensures ready { M.is_ready room.new }
    ensures zone { M.zone room.new ≡ M.zone room.old }
    ensures trusted { M.is_trusted room.new → M.is_trusted room.old }
    ensures answers { AnswersEach M.step setting.now (digits_of M.digest_of (M.zone room.old))
        (M.is_trusted room.new)
        (M.stands room.old) (M.stands room.new) (R.left reader.old)
        (O.contents writer.old.output.now) (O.contents writer.new.output.now)
        (R.has_failed reader.new) writer.new.failed result }
    ensures ended { OnOk result (R.has_ended reader.new ≡ true) }
    ensures kept { M.is_trusted room.new → UnlessStopped result (M.is_kept room.old
        → M.is_kept room.new) }
{
    let Ok(mut inbox) = JournalInbox::new(alloc) else {
        return Err(memory());
    };
    match Handler::new(alloc, *setting) {
        Ok(handler) => answer_turns(&handler, &mut inbox, reader, writer, room),
        Err(_) => Err(memory()),
    }
}
