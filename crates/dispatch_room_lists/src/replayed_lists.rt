//! A list that is replayed to the room of a database, and what is reported of it.
ghost use Rattle.std.specs.Prelude.{◌≡◌, ◌⊎◌, Ok, false, IfErr, IfOk};
ghost use Rattle.std.specs.Option.{option_map};
ghost use Rattle.room_http.specs.Settings.{IsSetting};
ghost use Rattle.room_store.specs.StoredRoom.{IsReady};
ghost use Rattle.dispatch_room_journal.specs.Chains.{sha256_digits};
ghost use Rattle.dispatch_room_journal.specs.RecordFronts.{list_says};
ghost use Rattle.dispatch_room_journal.specs.declared.read_progress.Reach.TheVariants.{Segment};
ghost use Rattle.dispatch_room_tasks.specs.OpenedRoom.{IsUnopened};
ghost use Rattle.dispatch_room_lists.specs.ReplayedLegs.{StandsBehind, count_in};
ghost use Rattle.dispatch_room_lists.specs.ReplayedLists.{EndsAs, HasReplayed, HasReplayedList};
ghost use Rattle.dispatch_room_lists.specs.ReplayedLists.{IsPlayed, LosesList, LosesPlayed};
ghost use Rattle.dispatch_room_lists.specs.ReplayedLists.{LosesReplayed, PrintsReplayed};
ghost use Rattle.dispatch_room_lists.specs.ReplayedLists.{failure_of};

use crate::followed_rows::Stage;
use crate::replay_ends::conclude;
use crate::replayed_segments::{Played, ReplayCourse, replay_legs};
use crate::segment_readers::{SegmentReader, Segments};
use dispatch_room_exit::exit_status::{Done, Failure, refused};
use dispatch_room_journal::answer_writers::AnswerWriter;
use dispatch_room_journal::replay_faults::{ReplayFault, Stopped};
use dispatch_room_journal::replayed_journal::Replayed;
use dispatch_room_tasks::opened_room::{TaskResult, open_room};
use room_http::settings::HttpSettings;
use room_http_messages::sources::Source;
use room_store::store::Store;
use sqlite::{Alter, Connection};
use std::io::{self, Write};

/// Replays a list, read from a source, to the room of a database. Prints how many messages that
/// were, and the room's digest if `replay.digest` asks for it; or writes the answer to each message
/// as soon as it is given.
pub fn replay_from<S: Alter + Drop, R: Source + Drop, O: Write, E: Write>(
    course: &ReplayCourse<'_>,
    conn: Connection<S>,
    reader: R,
    out: &mut O,
    err: &mut E,
) -> TaskResult<Done, S>
    requires outside { conn.in_transaction ≡ false }
    requires reads { R.has_failed reader ≡ false }
    requires unread { R.has_ended reader ≡ false }
    ensures replayed { IfOk result (λ worked. HasReplayed S.Store conn worked.1
        course.now.replay.now (option_map (list_says sha256_digits Segment) (R.left reader))
        (O.contents out.old) (O.contents out.new) worked.0) }
    ensures lost { IfErr result (λ fault. (IsUnopened S.Store conn fault
        × (O.contents out.new ≡ O.contents out.old))
        ⊎ LosesReplayed S.Store conn course.now.replay.now
        (option_map (list_says sha256_digits Segment) (R.left reader)) (O.contents out.old)
        (O.contents out.new) fault) }
{
    let mut list = SegmentReader::new(reader);
    replay_list(course, conn, &mut list, out, err)
}

/// Replays what is left of a list to the room of a database. Each segment is read to its end, unless
/// the list is replayed up to a moment, or the replay fails. A record that is cut off may be left
/// out only if the end of the list was found.
pub fn replay_list<S: Alter + Drop, L: Segments, O: Write, E: Write>(
    course: &ReplayCourse<'_>,
    conn: Connection<S>,
    list: &mut L,
    out: &mut O,
    err: &mut E,
) -> TaskResult<Done, S>
    requires outside { conn.in_transaction ≡ false }
    requires reads { L.has_failed list.old ≡ false }
    ensures replayed { IfOk result (λ worked. HasReplayedList S.Store conn worked.1
        course.now.replay.now (L.left list.old) (O.contents out.old) (O.contents out.new)
        (L.has_failed list.new) (L.found_end list.new)
        (StandsBehind L.left L.has_ended L.takes course.now.replay.now) worked.0) }
    ensures lost { IfErr result (λ fault. (IsUnopened S.Store conn fault
        × (O.contents out.new ≡ O.contents out.old))
        ⊎ LosesList S.Store conn course.now.replay.now (L.left list.old) (O.contents out.old)
        (O.contents out.new) (StandsBehind L.left L.has_ended L.takes course.now.replay.now)
        fault) }
{
    let (room, zone) = open_room(course.alloc, conn)?;
    let replay = course.replay;
    let stage = Stage {
        room,
        setting: HttpSettings {
            zone,
            history: replay.history,
        },
    };
    let (came, mut room) = replay_in(course, list, stage, out, err)?;
    let done = conclude(&mut room, replay, came, list.has_found_end(), out, err);
    Ok((done, room.close()))
}

// Replays a list in a room, and prints how many messages that were, or answers each message. The
// room is given back.
fn replay_in<L: Segments, S: Alter + Drop, O: Write, E: Write>(
    course: &ReplayCourse<'_>,
    list: &mut L,
    stage: Stage<S>,
    out: &mut O,
    err: &mut E,
) -> Played<Result<Done, Failure>, S>
    requires list { L.has_failed list.old ≡ false }
    requires ready { IsReady S.Store stage.room }
    requires set { IsSetting stage.room.plan.zone course.now.replay.now.history stage.setting }
    ensures played { IfOk result (λ it. IsPlayed S.Store course.now.replay.now stage.room
        stage.setting it.1 (L.left list.old) (O.contents out.old) (O.contents out.new)
        (L.has_failed list.new)
        (StandsBehind L.left L.has_ended L.takes course.now.replay.now) it.0) }
    ensures lost { IfErr result (LosesPlayed S.Store course.now.replay.now stage.room stage.setting
        (L.left list.old) (O.contents out.old) (O.contents out.new)
        (StandsBehind L.left L.has_ended L.takes course.now.replay.now)) }
{
    if course.replay.answers {
        let mut writer = AnswerWriter::new(out);
        let (came, room) = replay_legs(course, list, stage, &mut writer, err)?;
        return Ok((answered(&came), room));
    }
    let mut nowhere = io::sink();
    let mut writer = AnswerWriter::new(&mut nowhere);
    let (came, room) = replay_legs(course, list, stage, &mut writer, err)?;
    match came {
        Ok(replayed) => Ok((print_replayed(&replayed, out, err), room)),
        Err(stopped) => Ok((Err(failure_of(&stopped)), room)),
    }
}

// How the program ends once each message was answered, or answering stopped.
fn answered(came: &Result<Replayed, Stopped>) -> Result<Done, Failure>
    ensures { EndsAs (count_in came.now) result }
{
    match came {
        Ok(_) => Ok(Done::Whole),
        Err(stopped) => Err(failure_of(stopped)),
    }
}

// Prints how many messages were replayed.
fn print_replayed<O: Write, E: Write>(
    replayed: &Replayed,
    out: &mut O,
    err: &mut E,
) -> Result<Done, Failure>
    ensures { PrintsReplayed (Ok replayed.now) (O.contents out.old) (O.contents out.new) result }
{
    if replayed.is_open {
        let _ = writeln!(err, "the last record has no status, and was left out");
    }
    match writeln!(out, "replayed {}", replayed.messages) {
        Ok(()) => Ok(Done::Whole),
        Err(_) => Err(Failure::Network),
    }
}

// Why a replay stopped, as the program reports it.
fn failure_of(stopped: &Stopped) -> Failure
    ensures { result ≡ failure_of stopped.now }
{
    match stopped.fault {
        ReplayFault::Bad => Failure::Record(stopped.number),
        ReplayFault::Differs => Failure::Differs(stopped.number),
        ReplayFault::OtherRoom => Failure::OtherRoom(stopped.number),
        ReplayFault::ReadFailed | ReplayFault::WriteFailed => Failure::Network,
        ReplayFault::Unavailable(refusal) => refused(refusal),
    }
}
