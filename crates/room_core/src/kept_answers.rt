//! What a call or a report gets that was sent before: its kept answer, or a refusal.
ghost use Rattle.std.specs.Prelude.{◌≡◌, not};
ghost use Rattle.room_types.specs.declared.answers.Answer.TheVariants.{Called};
ghost use Rattle.room_types.specs.declared.refusal_statuses.Refusal.TheVariants.{SerialReused};
ghost use Rattle.room_model.specs.Calls.{same_call};
ghost use Rattle.room_model.specs.Decisions.{refuse_if, show};
ghost use Rattle.room_core.specs.DecisionRows.{again};

use room_types::answers::Answer;
use room_types::asks::{NewCall, Press};
use room_types::decisions::Decision;
use room_types::refusal_statuses::Refusal;
use room_types::tables::{Call, Report};

/// A call whose serial the room has kept. Of the same content it gets its kept answer, and changes
/// nothing; of another it is refused as `SerialReused`.
#[tactic(auto, unfolding(room_model::specs::Decisions::refuse_if))]
pub fn decide_repeated_call(kept: &Call, new: &NewCall) -> Result<Decision, Refusal>
    ensures { result ≡ refuse_if (not (same_call kept.now new.now)) SerialReused
        (show (Called kept.now.division kept.now.given kept.now.linked)) }
{
    let is_same_call = kept.place == new.place
        && kept.class == new.class
        && kept.needs == new.needs
        && kept.note == new.note;
    if !is_same_call {
        return Err(Refusal::SerialReused);
    }
    let answer = Answer::Called(kept.division, kept.given, kept.linked);
    Ok(Decision::show(answer))
}

/// A report whose number the room has kept. Of the same content it gets its kept answer, and
/// changes nothing; of another it is refused as `NumberReused`.
#[tactic(auto, unfolding(room_model::specs::Decisions::refuse_if))]
pub fn decide_repeated_report(kept: &Report, press: &Press) -> Result<Decision, Refusal>
    ensures { result ≡ again kept.now press.now }
{
    let is_same_press = kept.button == press.button
        && kept.order == press.order
        && kept.place == press.place;
    if !is_same_press {
        return Err(Refusal::NumberReused);
    }
    let answer = Answer::Reported(kept.number, kept.outcome, kept.status);
    Ok(Decision::show(answer))
}
