//! What becomes of a room's terminals where a list replaces those of all that it names. The
//! contracts are the laws; the functions do nothing.
ghost use Rattle.std.specs.Prelude.{◌≡◌, length, List, Some, false};
ghost use Rattle.room_model.specs.FleetRows.{AreTerminals, terminal_at};
ghost use Rattle.room_model.specs.Room.{Room};
ghost use Rattle.room_types.specs.Texts.{Token};
ghost use Rattle.room_types.specs.declared.asks.Who.{Who};
ghost use Rattle.room_types.specs.declared.fleet.Terminal.{Terminal};
ghost use Rattle.dispatch_room_tasks.specs.ReplacedTerminals.{AreFree, is_listed, replaced_by};

/// They fit the room as before: no two have one token, each vehicle's crew has one, each desk's
/// division is in the plan.
pub fn replaced_terminals_fit()
    ensures { (room : Room) (ts listed : List Terminal) → AreTerminals room ts
        → AreFree room.plan ts listed (length listed)
        → AreTerminals room (replaced_by listed ts) }
{}

/// Whom the list doesn't name has the same tokens as before, and no others.
pub fn unlisted_stay()
    ensures stay { (room : Room) (ts listed : List Terminal) (who : Who) (k : Token)
        → AreTerminals room ts → AreFree room.plan ts listed (length listed)
        → is_listed listed who ≡ false
        → terminal_at k ts ≡ Some (record { token = k; who = who })
        → terminal_at k (replaced_by listed ts) ≡ Some (record { token = k; who = who }) }
    ensures come { (room : Room) (ts listed : List Terminal) (who : Who) (k : Token)
        → AreTerminals room ts → AreFree room.plan ts listed (length listed)
        → is_listed listed who ≡ false
        → terminal_at k (replaced_by listed ts) ≡ Some (record { token = k; who = who })
        → terminal_at k ts ≡ Some (record { token = k; who = who }) }
{}
