//! What becomes of a room's terminals where those of one user are changed. The contracts are the
//! laws; the functions do nothing.
ghost use Rattle.std.specs.Prelude.{◌≡◌, List, None, Option, Some, false};
ghost use Rattle.room_model.specs.FleetRows.{AreTerminals, terminal_at};
ghost use Rattle.room_model.specs.Room.{Room};
ghost use Rattle.room_types.specs.Texts.{Token};
ghost use Rattle.room_types.specs.declared.asks.Who.{Who};
ghost use Rattle.room_types.specs.declared.fleet.Terminal.{Terminal};
ghost use Rattle.room_store_writes.specs.TerminalChanges.{fault_in};
ghost use Rattle.room_store_writes.specs.TerminalHolders.{same_who, terminals_by, with_token};
ghost use Rattle.room_store_writes.specs.TerminalHolders.{without};

/// Changed terminals fit the room as before. No two have one token, each vehicle's crew has one,
/// each desk's division is in the plan.
pub fn changed_terminals_fit()
    ensures { (room : Room) (ts : List Terminal) (who : Who) (token : Option Token)
        → AreTerminals room ts → fault_in room.plan ts who token ≡ None
        → AreTerminals room (terminals_by who token ts) }
{}

/// Everybody else has the same tokens as before, and no others.
pub fn others_stay()
    ensures stay { (room : Room) (ts : List Terminal) (who other : Who) (token : Option Token)
        (k : Token) → AreTerminals room ts → fault_in room.plan ts who token ≡ None
        → same_who who other ≡ false
        → terminal_at k ts ≡ Some (record { token = k; who = other })
        → terminal_at k (terminals_by who token ts) ≡ Some (record { token = k; who = other }) }
    ensures come { (room : Room) (ts : List Terminal) (who other : Who) (token : Option Token)
        (k : Token) → AreTerminals room ts → same_who who other ≡ false
        → terminal_at k (terminals_by who token ts) ≡ Some (record { token = k; who = other })
        → terminal_at k ts ≡ Some (record { token = k; who = other }) }
{}

/// No token names who is to have none.
pub fn none_is_left()
    ensures { (room : Room) (ts : List Terminal) (who : Who) (k : Token) → AreTerminals room ts
        → ¬ (terminal_at k (without who ts) ≡ Some (record { token = k; who = who })) }
{}

/// Only the new token names who gets one.
pub fn one_token_is_left()
    ensures named { (ts : List Terminal) (who : Who) (k : Token)
        → terminal_at k (with_token who k ts) ≡ Some (record { token = k; who = who }) }
    ensures only { (room : Room) (ts : List Terminal) (who : Who) (j k : Token)
        → AreTerminals room ts
        → terminal_at j (with_token who k ts) ≡ Some (record { token = j; who = who }) → j ≡ k }
{}
