//! No order goes astray.
ghost use Rattle.std.specs.Prelude.{◌⊎◌, List};
ghost use Rattle.room_place.specs.Choice.{Among};
ghost use Rattle.room_types.specs.declared.asks.Event.{Event};
ghost use Rattle.room_types.specs.declared.tables.Assignment.{Assignment};
ghost use Rattle.room_model.specs.Events.{AreAddressed};
ghost use Rattle.room_model.specs.Room.{Room};
ghost use Rattle.room_model.specs.RoomAgreements.{IsWellFormed};
ghost use Rattle.room_model.specs.Run.{room_run};
ghost use Rattle.room_laws.specs.Happens.{Happens};
ghost use Rattle.room_laws.specs.Orders.{AreKept, EndsOrder, IsSent, ReachTheirCrews};

/// An event gives an order only to a vehicle that may be sent, and leaves every other as it is,
/// unless it ends it.
pub fn an_event_keeps_orders()
    ensures { (event : Event) (room : Room) → IsWellFormed room → AreKept event room }
{}

/// Over any run an order that stands at its end stood at its beginning or was sent, and one that
/// stands at its beginning stands at its end or was ended.
pub fn orders_stand_from_first_to_last()
    ensures given { (events : List Event) (room : Room) (order : Assignment) →
        IsWellFormed room → AreAddressed events room →
        Among order (room_run events room).assignments →
        Among order room.assignments
        ⊎ Happens (λ event now. IsSent event now order) events room }
    ensures stays { (events : List Event) (room : Room) (order : Assignment) →
        IsWellFormed room → AreAddressed events room →
        Among order room.assignments →
        Among order (room_run events room).assignments
        ⊎ Happens (λ event now. EndsOrder event now order) events room }
{}

/// In a well-formed room each order reaches the crew of its vehicle, and no other.
pub fn orders_reach_their_crews()
    ensures { (room : Room) → IsWellFormed room → ReachTheirCrews room }
{}
