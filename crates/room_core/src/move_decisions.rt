//! One of a desk's moves, decided on the rows that it asks for.
ghost use Rattle.std.specs.Prelude.{◌≡◌, List, Ok};
ghost use Rattle.room_place.specs.declared.plans.Area.{Area};
ghost use Rattle.room_model.specs.Room.{Room};
ghost use Rattle.room_model.specs.RoomSlices.{room_of};
ghost use Rattle.room_model.specs.Step.{ask_of, line_of, single_asks};
ghost use Rattle.room_model.specs.Moves.{HasMove};

use room_alloc::orders::{mobilise, stand_down};
use room_types::answers::{Answer, MoveLine};
use room_types::asks::Move;
use room_types::decisions::Decision;
use room_types::numbers::Moment;
use room_types::refusal_statuses::Refusal;
use room_types::slices::Slice;

/// What a move comes to. In every room of which the slice has what the move asks, the decision is
/// the room's.
pub fn decide_move(slice: &Slice, next: &Move, at: Moment) -> Result<Decision, Refusal>
    ensures { (plan : List Area) (r : Room)
        → HasMove slice.now.division next.now (room_of plan slice.now.rows) r
        → result ≡ single_asks slice.now.division (ask_of next.now) at r }
{
    match next.incident {
        Some(number) => mobilise(slice, number, &next.callsign, at),
        None => stand_down(slice, &next.callsign, at),
    }
}

/// What became of a move, by the answer to it.
pub fn move_line(next: &Move, answer: &Answer) -> MoveLine
    ensures { result ≡ line_of next.now answer.now }
{
    match answer {
        Answer::Mobilised(order, callsign) => MoveLine {
            callsign: *callsign,
            order: Some(*order),
        },
        _ => MoveLine {
            callsign: next.callsign,
            order: None,
        },
    }
}
