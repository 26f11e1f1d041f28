//! Carries out what the rows of a list say, in the room that the list is replayed to. The head
//! behind the rows decides how much of it is done.
ghost use Rattle.std.specs.Prelude.{◌≡◌, ◌⊎◌, Err, IfErr, IfOk, Ok, OnErr, OnOk};
ghost use Rattle.room_store.specs.StoredRoom.{IsReady};
ghost use Rattle.dispatch_room_exit.specs.declared.exit_status.Failure.{Failure as Why};
ghost use Rattle.dispatch_room_journal.specs.ReplayFaults.{IsUnavailableFault};
ghost use Rattle.dispatch_room_journal.specs.declared.replay_faults.ReplayFault.TheVariants.{Bad};
ghost use Rattle.dispatch_room_lists.specs.ListedRows.{EnrolsDue, EnrolsSome, Follows, IsElsewhere};
ghost use Rattle.dispatch_room_lists.specs.ListedRows.{IsMadeTowards, IsThere, IsUnfollowed};
ghost use Rattle.dispatch_room_lists.specs.ListedRows.{IsUnmadeTowards, IsUnread, LosesStage};
ghost use Rattle.dispatch_room_lists.specs.ListedRows.{LosesText, unmade_fault};
ghost use Rattle.dispatch_room_lists.specs.StoodRooms.{GoesOn, StageGoesOn};

use crate::listed_changes::{ListedChange, listed_in};
use crate::listed_rows::{enrol_rows, has_come_to};
use crate::room_changes::{Remade, RoomChange, remake};
use dispatch_room_exit::exit_status::Failure;
use dispatch_room_exit::failure_causes::Explainer;
use dispatch_room_journal::replay_faults::ReplayFault;
use room_http::settings::HttpSettings;
use room_model::digests::StartDigest;
use room_store::store::Store;
use room_types::fleet::FleetRow;
use room_types::refusal_statuses::Refusal;
use sqlite::Alter;
use std::alloc::Global;

/// The room that a list is replayed to, and the setting in which it answers.
pub struct Stage<S: Alter> {
    pub room: Store<S>,
    pub setting: HttpSettings,
}

/// What came of following rows, and the room after them; or why no room is open any more.
pub type Followed<T, S> = Result<(Result<T, ReplayFault>, Stage<S>), Failure>;

/// Does what the rows of a text say, as far as the head behind them shows that it was done. Of a
/// fleet, rows are enrolled one after another until the room has the head's digest. Any other
/// change is made, unless the room has that digest already: then it was not made, or it changed
/// nothing. If the room doesn't allow it, the list is of another room (`OtherRoom`). Rows that make
/// no whole change were left by a stop, before the change was made: the room must have the digest
/// already, or the list is `Bad`.
#[tactic(auto, using(crate::proofs::DueLemmas::stage_goes, crate::proofs::DueLemmas::stage_stays))]
pub fn follow<S: Alter + Drop>(
    alloc: Global,
    explainer: Explainer<'_>,
    stage: Stage<S>,
    text: &[u8],
    head: &StartDigest,
) -> Followed<(), S>
    requires ready { IsReady S.Store stage.room }
    ensures goes { IfOk result (λ it. StageGoesOn S.Store stage it.1) }
    ensures followed { IfOk result (λ it.
        OnOk it.0 (Follows S.Store stage.room it.1.room text.now head.now)) }
    ensures fault { IfOk result (λ it. IfErr it.0
        (IsUnfollowed S.Store stage.room it.1.room text.now head.now)) }
    ensures lost { IfErr result (LosesText S.Store stage.room text.now head.now) }
{
    match listed_in(alloc, text) {
        Ok(Some(ListedChange::Fleet(rows))) => Ok(enrol(alloc, stage, rows.as_slice(), head)),
        Ok(Some(ListedChange::Change(change))) => {
            make_towards(alloc, explainer, stage, &change, head)
        }
        Ok(None) => Ok(stay(stage, head)),
        Err(_) => Ok((Err(ReplayFault::Unavailable(Refusal::Memory)), stage)),
    }
}

// Enrols as many rows as are due.
fn enrol<S: Alter>(
    alloc: Global,
    stage: Stage<S>,
    rows: &[FleetRow],
    head: &StartDigest,
) -> (Result<(), ReplayFault>, Stage<S>)
    requires ready { IsReady S.Store stage.room }
    ensures goes { GoesOn S.Store stage.room result.1.room }
    ensures setting { result.1.setting ≡ stage.setting }
    ensures enrolled { OnOk result.0
        (EnrolsDue S.Store stage.room result.1.room rows.now head.now) }
    ensures part { OnErr result.0
        (EnrolsSome S.Store stage.room result.1.room rows.now head.now) }
    ensures unavailable { IfErr result.0 IsUnavailableFault }
{
    let Stage { mut room, setting } = stage;
    let done = enrol_rows(alloc, &mut room, rows, head);
    (done, Stage { room, setting })
}

// Changes nothing. If the room doesn't have the digest of the head, the list is bad.
fn stay<S: Alter>(stage: Stage<S>, head: &StartDigest) -> (Result<(), ReplayFault>, Stage<S>)
    requires ready { IsReady S.Store stage.room }
    ensures goes { GoesOn S.Store stage.room result.1.room }
    ensures setting { result.1.setting ≡ stage.setting }
    ensures there { OnOk result.0 (IsThere S.Store stage.room result.1.room head.now) }
    ensures fault { IfErr result.0 (λ fault. IsUnread S.Store stage.room result.1.room fault
        ⊎ ((fault ≡ Bad) × IsElsewhere S.Store stage.room result.1.room head.now)) }
{
    let Stage { mut room, setting } = stage;
    let met = has_come_to(&mut room, head, true);
    match met {
        Ok(true) => (Ok(()), Stage { room, setting }),
        Ok(false) => (Err(ReplayFault::Bad), Stage { room, setting }),
        Err(fault) => (Err(fault), Stage { room, setting }),
    }
}

// Makes a change, unless the room has the digest of a head.
#[tactic(auto, using(crate::proofs::DueLemmas::stage_goes))]
fn make_towards<S: Alter + Drop>(
    alloc: Global,
    explainer: Explainer<'_>,
    stage: Stage<S>,
    change: &RoomChange,
    head: &StartDigest,
) -> Followed<(), S>
    requires ready { IsReady S.Store stage.room }
    ensures goes { IfOk result (λ it. StageGoesOn S.Store stage it.1) }
    ensures made { IfOk result (λ it. OnOk it.0
        (IsThere S.Store stage.room it.1.room head.now
        ⊎ IsMadeTowards S.Store stage.room it.1.room change.now head.now)) }
    ensures fault { IfOk result (λ it. IfErr it.0 (λ fault.
        IsUnread S.Store stage.room it.1.room fault
        ⊎ IsUnmadeTowards S.Store stage.room it.1.room change.now head.now fault)) }
    ensures lost { IfErr result (LosesStage S.Store stage.room change.now head.now) }
{
    let Stage { mut room, setting } = stage;
    match has_come_to(&mut room, head, true) {
        Ok(false) => {}
        Ok(true) => return Ok((Ok(()), Stage { room, setting })),
        Err(fault) => return Ok((Err(fault), Stage { room, setting })),
    }
    let remade = remake(alloc, explainer, room, change)?;
    Ok(followed_by(remade, setting.history))
}

// What is reported of a change that was made, or not.
fn followed_by<S: Alter>(remade: Remade<S>, history: bool) -> (Result<(), ReplayFault>, Stage<S>)
    ensures room { result.1.room ≡ remade.room }
    ensures setting { result.1.setting
        ≡ record { zone = remade.zone; history = history } }
    ensures made { OnOk result.0 (remade.done ≡ Ok tt) }
    ensures fault { IfErr result.0 (λ fault. (failure : Why) × (remade.done ≡ Err failure)
        × (fault ≡ unmade_fault failure)) }
{
    let Remade { done, room, zone } = remade;
    let done = match done {
        Ok(()) => Ok(()),
        Err(failure) => Err(unmade_fault(failure)),
    };
    let setting = HttpSettings { zone, history };
    (done, Stage { room, setting })
}

// The fault that reports that a change was not made.
fn unmade_fault(failure: Failure) -> ReplayFault
    ensures { result ≡ unmade_fault failure }
{
    match failure {
        Failure::Memory => ReplayFault::Unavailable(Refusal::Memory),
        Failure::Storage => ReplayFault::Unavailable(Refusal::Storage),
        _ => ReplayFault::OtherRoom,
    }
}
