//! What a vehicle's status, its assignment and its open turn agree in.
ghost use Rattle.std.specs.Prelude.{◌≡◌, option_copied};
ghost use Rattle.room_types.specs.SentVehicles.{is_assigned, is_ordered, is_sent, parts_agree};
ghost use Rattle.room_types.specs.SentVehicles.{sent_agrees};

use crate::tables::{Assignment, Turn, Vehicle};

fn is_sent(vehicle: &Vehicle, assignment: &Assignment, turn: &Turn) -> bool
    ensures { result ≡ is_sent vehicle.now assignment.now turn.now }
{
    let last_order = vehicle.last_order.get();
    vehicle.status.is_busy()
        && assignment.division == vehicle.holder
        && turn.division == vehicle.holder
        && turn.incident == assignment.incident
        && assignment.order.get() == last_order
        && turn.order.get() == last_order
}

fn is_assigned(vehicle: &Vehicle, assignment: &Assignment) -> bool
    ensures { result ≡ is_assigned vehicle.now assignment.now }
{
    vehicle.status.is_busy()
        && assignment.division == vehicle.holder
        && assignment.order.get() == vehicle.last_order.get()
}

fn is_ordered(vehicle: &Vehicle, turn: &Turn) -> bool
    ensures { result ≡ is_ordered vehicle.now turn.now }
{
    vehicle.status.is_busy()
        && turn.division == vehicle.holder
        && turn.order.get() == vehicle.last_order.get()
}

/// Whether what is there of an assignment and an open turn is for one incident, of the vehicle's
/// last order and its holder's, and the vehicle is busy.
pub fn parts_agree(vehicle: &Vehicle, assignment: Option<&Assignment>, turn: Option<&Turn>) -> bool
    ensures { result ≡ parts_agree vehicle.now (option_copied assignment.entry)
        (option_copied turn.entry) }
{
    match (assignment, turn) {
        (None, None) => true,
        (None, Some(turn)) => is_ordered(vehicle, turn),
        (Some(assignment), None) => is_assigned(vehicle, assignment),
        (Some(assignment), Some(turn)) => is_sent(vehicle, assignment, turn),
    }
}

/// Whether there are an assignment and an open turn exactly where the vehicle is busy, both for one
/// incident, its holder's and of its last order.
pub fn sent_agrees(vehicle: &Vehicle, assignment: Option<&Assignment>, turn: Option<&Turn>) -> bool
    ensures { result ≡ sent_agrees vehicle.now (option_copied assignment.entry)
        (option_copied turn.entry) }
{
    match (assignment, turn) {
        (None, None) => !vehicle.status.is_busy(),
        (Some(assignment), Some(turn)) => is_sent(vehicle, assignment, turn),
        _ => false,
    }
}
