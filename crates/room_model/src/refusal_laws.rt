//! Which refusals there are. Each law is the contract of a function that does nothing.
ghost use Rattle.std.specs.Prelude.{◌≡◌, Err, IfErr, false, true};
ghost use Rattle.room_types.specs.declared.asks.Event.{Event};
ghost use Rattle.room_types.specs.declared.refusal_statuses.Refusal.TheVariants.{WrongRole};
ghost use Rattle.room_model.specs.Room.{Room};
ghost use Rattle.room_model.specs.Step.{answer_to, is_of_role, is_of_the_room};

/// What a role may ask is refused only as 1 to 19 or 22, and what it may not ask as 39. So a
/// refusal of the machine is never one of a message, of a fleet row, of memory or of the storage.
pub fn a_refusal_is_of_the_room()
    ensures own { (e : Event) (r : Room) →
        is_of_role e.who e.ask ≡ true →
        IfErr (answer_to e r) (λ why. is_of_the_room why ≡ true) }
    ensures others { (e : Event) (r : Room) →
        is_of_role e.who e.ask ≡ false →
        answer_to e r ≡ Err WrongRole }
{}
