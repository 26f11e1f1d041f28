//! A call, decided on the rows of the division that it is placed in.
ghost use Rattle.std.specs.Prelude.{◌≡◌, None, Ok, Some};
ghost use Rattle.room_place.specs.Plans.{division_of};
ghost use Rattle.room_types.specs.declared.asks.Ask.TheVariants.{Call as CallAsk};
ghost use Rattle.room_types.specs.declared.asks.CallForm.{CallForm};
ghost use Rattle.room_types.specs.declared.answers.Answer.TheVariants.{LastSerial};
ghost use Rattle.room_model.specs.Calls.{new_call, take_call};
ghost use Rattle.room_model.specs.Decisions.{show};
ghost use Rattle.room_model.specs.Queries.{kept_call};
ghost use Rattle.room_model.specs.Room.{Room};
ghost use Rattle.room_model.specs.Shares.{own};
ghost use Rattle.room_model.specs.RoomSlices.{room_of};
ghost use Rattle.room_model.specs.RoomAgreements.{IsWellFormed};
ghost use Rattle.room_core.specs.DecisionRows.{AreRead};

use room_incident::calls::take_call;
use room_types::answers::Answer;
use room_types::asks::NewCall;
use room_types::decisions::Decision;
use room_types::numbers::LastNumber;
use room_types::refusal_statuses::Refusal;
use room_types::slices::Slice;

/// Decides a call that the room has not kept, placed in the slice's division (the caller sees to
/// both). Where the slice's rows are those that the call reads, or the division's whole share, the
/// decision is the room's, in every well-formed room.
pub fn decide_call(slice: &Slice, new: &NewCall) -> Result<Decision, Refusal>
    ensures decides { (r : Room) (f : CallForm) → IsWellFormed r
        → new.now ≡ new_call new.now.position f new.now.at
        → kept_call new.now.position f.serial r ≡ None
        → division_of r.plan f.place ≡ Some slice.now.division
        → AreRead slice.now.division (CallAsk f) new.now.at (room_of r.plan slice.now.rows) r
        → result ≡ take_call new.now r }
    // In every other room that has not kept it either, and where the division has the same rows, it
    // is that room's too.
    ensures apart { (r other : Room) (f : CallForm) → IsWellFormed r
        → new.now ≡ new_call new.now.position f new.now.at
        → kept_call new.now.position f.serial r ≡ None
        → division_of r.plan f.place ≡ Some slice.now.division
        → AreRead slice.now.division (CallAsk f) new.now.at (room_of r.plan slice.now.rows) r
        → IsWellFormed other → kept_call new.now.position f.serial other ≡ None
        → own slice.now.division r ≡ own slice.now.division other
        → result ≡ take_call new.now other }
{
    take_call(slice, new)
}

/// The greatest serial of a position's calls, which the caller knows.
pub fn decide_last_serial(serial: LastNumber) -> Decision
    ensures { Ok result ≡ show (LastSerial serial) }
{
    Decision::show(Answer::LastSerial(serial))
}
