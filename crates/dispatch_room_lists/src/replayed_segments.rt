//! A list with changes among its messages, replayed segment by segment.
ghost use Rattle.std.specs.Prelude.{◌≡◌, [], Err, List, Ok, ℕ, IfErr, IfOk, OnOk, false, true};
ghost use Rattle.room_http.specs.Settings.{IsSetting};
ghost use Rattle.room_store.specs.StoredRoom.{IsReady};
ghost use Rattle.room_model.specs.declared.digests.StartDigest.{StartDigest};
ghost use Rattle.dispatch_room_journal.specs.declared.row_runs.Behind.{Behind as Which};
ghost use Rattle.dispatch_room_journal.specs.declared.row_runs.Behind.TheVariants.{Room};
ghost use Rattle.dispatch_room_lists.specs.ListedRows.{IsUnfollowed, LosesText};
ghost use Rattle.dispatch_room_lists.specs.ReplayedLegs.{FollowsBy, IsLeg, LosesLeg, ReadsAll};
ghost use Rattle.dispatch_room_lists.specs.ReplayedLegs.{PlaysLegs, StandsBehind, StopsBehind};
ghost use Rattle.dispatch_room_lists.specs.ReplayedLegs.{begins_leg, in_all, sum_of};
ghost use Rattle.dispatch_room_lists.specs.StoodRooms.{GoesOn, StageGoesOn};

use crate::followed_rows::{Followed, Stage, follow};
use crate::segment_readers::Segments;
use dispatch_room_cli::tasks::Replay;
use dispatch_room_exit::exit_status::Failure;
use dispatch_room_exit::failure_causes::Explainer;
use dispatch_room_journal::answer_writers::AnswerWriter;
use dispatch_room_journal::replay_faults::{ReplayFault, Stopped};
use dispatch_room_journal::replayed_journal::{self, Replayed};
use dispatch_room_journal::row_runs::{Behind, RowsFault};
use dispatch_room_journal::streamed_messages::answer_each;
use room_http_messages::sources::Source;
use room_store::store::Store;
use room_types::refusal_statuses::Refusal;
use sqlite::Alter;
use std::alloc::Global;
use std::io::Write;

/// How a list is replayed, and who explains why a change is not made.
#[derive(Clone, Copy)]
pub struct ReplayCourse<'a> {
    pub alloc: Global,
    pub explainer: Explainer<'a>,
    pub replay: &'a Replay,
}

/// What came of a replay, and the room after it; or why no room is open any more.
pub type Played<T, S> = Result<(T, Store<S>), Failure>;

/// Replays the segments of a list in a room, one after another, or answers each of their messages; and
/// makes the changes between two segments. It fails if no room can be opened again for a change, or
/// after it.
pub fn replay_legs<S: Alter + Drop, L: Segments, O: Write, E: Write>(
    course: &ReplayCourse<'_>,
    list: &mut L,
    first: Stage<S>,
    out: &mut AnswerWriter<'_, O>,
    err: &mut E,
) -> Played<Result<Replayed, Stopped>, S>
    requires list { L.has_failed list.old ≡ false }
    requires ready { IsReady S.Store first.room }
    requires set { IsSetting first.room.plan.zone course.now.replay.now.history first.setting }
    ensures same_reference { out.new.output.ghost_name ≡ out.old.output.ghost_name }
    ensures played { IfOk result (λ played. PlaysLegs S.Store course.now.replay.now
        (StandsBehind L.left L.has_ended L.takes course.now.replay.now)
        (begins_leg first.room first.setting (L.left list.old) (O.contents out.old.output.now))
        played.1 (O.contents out.new.output.now) (L.has_failed list.new) out.new.failed
        played.0) }
    ensures lost { IfErr result (LosesLeg S.Store course.now.replay.now
        (StandsBehind L.left L.has_ended L.takes course.now.replay.now)
        (begins_leg first.room first.setting (L.left list.old) (O.contents out.old.output.now))
        (O.contents out.new.output.now)) }
{
    let mut stage = first;
    let mut before = 0;
    let mut came = replay_leg(course, list, &mut stage, out);
    for _segment in 1..u64::MAX {
        let Ok(replayed) = came else {
            return Ok((in_all(before, came), room_of(stage)));
        };
        let (goes_on, left) = follow_between(course, list, stage, err)?;
        stage = left;
        match goes_on {
            Ok(true) => {}
            Ok(false) => return Ok((in_all(before, came), room_of(stage))),
            Err(fault) => return Ok((stopped_behind(fault, before, &replayed), room_of(stage))),
        }
        before = before.saturating_add(replayed.messages);
        came = replay_leg(course, list, &mut stage, out);
    }
    Ok((in_all(before, came), room_of(stage)))
}

fn room_of<S: Alter>(stage: Stage<S>) -> Store<S>
    ensures { result ≡ stage.room }
{
    let Stage { room, setting: _ } = stage;
    room
}

// The result of a replay, from that of its last segment and the number of messages before that segment.
fn in_all(before: u64, came: Result<Replayed, Stopped>) -> Result<Replayed, Stopped>
    ensures { result ≡ in_all before came }
{
    match came {
        Ok(replayed) => Ok(Replayed {
            messages: before.saturating_add(replayed.messages),
            is_open: replayed.is_open,
        }),
        Err(stopped) => Err(Stopped {
            fault: stopped.fault,
            number: before.saturating_add(stopped.number),
        }),
    }
}

// The replay stopped behind a segment, which is reported as at the next message.
fn stopped_behind(fault: ReplayFault, before: u64, replayed: &Replayed) -> Result<Replayed, Stopped>
    ensures { result ≡ Err (record {
      fault = fault;
      number = sum_of (sum_of before replayed.now.messages) 1;
    }) }
{
    let messages = before.saturating_add(replayed.messages);
    Err(Stopped {
        fault,
        number: messages.saturating_add(1),
    })
}

// Replays the next segment of a list, or answers each record of it.
fn replay_leg<S: Alter, R: Source, O: Write>(
    course: &ReplayCourse<'_>,
    list: &mut R,
    stage: &mut Stage<S>,
    out: &mut AnswerWriter<'_, O>,
) -> Result<Replayed, Stopped>
    requires list { R.has_failed list.old ≡ false }
    requires ready { IsReady S.Store stage.old.room }
    ensures same_reference { out.new.output.ghost_name ≡ out.old.output.ghost_name }
    ensures goes { GoesOn S.Store stage.old.room stage.new.room }
    ensures setting { stage.new.setting ≡ stage.old.setting }
    ensures segment { (before : ℕ) → IsLeg S.Store course.now.replay.now
        (record {
          store = stage.old.room;
          setting = stage.old.setting;
          left = R.left list.old;
          held = O.contents out.old.output.now;
          messages = before;
        })
        stage.new.room (O.contents out.new.output.now) (R.has_failed list.new) out.new.failed
        result }
    ensures ended { ReadsAll course.now.replay.now
        → OnOk result (R.has_ended list.new ≡ true) }
{
    let replay = course.replay;
    let setting = stage.setting;
    let room = &mut stage.room;
    if !replay.answers {
        return replayed_journal::replay(course.alloc, list, room, &setting, &replay.until);
    }
    out.begin();
    match answer_each(course.alloc, list, out, room, &setting) {
        Ok(messages) => Ok(Replayed {
            messages,
            is_open: false,
        }),
        Err(stopped) => Err(stopped),
    }
}

// Takes and follows the rows behind a segment that was replayed whole. Returns whether a segment follows.
#[tactic(auto, using(crate::proofs::DueLemmas::stage_stays))]
fn follow_between<S: Alter + Drop, L: Segments, E: Write>(
    course: &ReplayCourse<'_>,
    list: &mut L,
    stage: Stage<S>,
    err: &mut E,
) -> Followed<bool, S>
    requires ready { IsReady S.Store stage.room }
    ensures goes { IfOk result (λ it. StageGoesOn S.Store stage it.1) }
    ensures sound { IfOk result (λ it. OnOk it.0 (L.has_failed list.new ≡ false)) }
    ensures between { IfOk result (λ it. IfOk it.0 (λ goes_on.
        (rows : List ℕ) × (which : Which) × L.takes list.old list.new [] rows which
        × FollowsBy S.Store stage.room it.1.room rows which goes_on)) }
    ensures fault { IfOk result (λ it. IfErr it.0 (StopsBehind S.Store
        (L.takes list.old list.new [])
        (L.has_failed list.new) stage.room it.1.room)) }
    ensures lost { IfErr result (λ fault. (rows : List ℕ) × (head : StartDigest)
        × L.takes list.old list.new [] rows (Room head)
        × LosesText S.Store stage.room rows head fault) }
{
    let mut rows = Vec::new(course.alloc);
    match list.take_rows(&mut rows) {
        Ok(behind) => follow_by(course, stage, rows.as_slice(), &behind, err),
        Err(RowsFault::Read) => Ok((Err(ReplayFault::ReadFailed), stage)),
        Err(RowsFault::Memory) => Ok((Err(ReplayFault::Unavailable(Refusal::Memory)), stage)),
    }
}

// Follows rows as what stands behind them says. Returns whether another segment follows.
#[tactic(auto, using(crate::proofs::DueLemmas::stage_stays))]
fn follow_by<S: Alter + Drop, E: Write>(
    course: &ReplayCourse<'_>,
    stage: Stage<S>,
    rows: &[u8],
    behind: &Behind,
    err: &mut E,
) -> Followed<bool, S>
    requires ready { IsReady S.Store stage.room }
    ensures goes { IfOk result (λ it. StageGoesOn S.Store stage it.1) }
    ensures by { IfOk result (λ it. IfOk it.0
        (FollowsBy S.Store stage.room it.1.room rows.now behind.now)) }
    ensures fault { IfOk result (λ it. IfErr it.0 (λ fault. (head : StartDigest)
        × (behind.now ≡ Room head)
        × IsUnfollowed S.Store stage.room it.1.room rows.now head fault)) }
    ensures lost { IfErr result (λ fault. (head : StartDigest) × (behind.now ≡ Room head)
        × LosesText S.Store stage.room rows.now head fault) }
{
    if rows.is_empty() {
        return Ok((Ok(false), stage));
    }
    match behind {
        Behind::Room(head) => {
            let (done, stage) = follow(course.alloc, course.explainer, stage, rows, head)?;
            match done {
                Ok(()) => Ok((Ok(true), stage)),
                Err(fault) => Ok((Err(fault), stage)),
            }
        }
        Behind::End => {
            let _ = writeln!(err, "the list ends with a change, which was left out");
            Ok((Ok(false), stage))
        }
        Behind::Other => Ok((Ok(true), stage)),
        Behind::Unread => Ok((Ok(false), stage)),
    }
}
