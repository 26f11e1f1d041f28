//! The open turns that are known of the fleet's vehicles.
ghost use Rattle.std.specs.Prelude.{◌≡◌, None, Some, [], IfSome};
ghost use Rattle.room_types.specs.KeyedRows.{row_at};
ghost use Rattle.room_types.specs.Keys.{numbered_cmp, turn_key};
ghost use Rattle.room_types.specs.declared.changes.Change.TheVariants.{PutTurn};
ghost use Rattle.room_model.specs.Room.{Room, apply_one};
ghost use Rattle.room_store_cache.specs.OpenTurns.{AreTurnsOf};

use room_types::callsign::Callsign;
use room_types::changes::Change;
use room_types::numbers::Number;
use room_types::rows::{Row, Rows};
use room_types::tables::Turn;
use std::alloc::Global;

/// Some open turns of the room. They are forgotten with the fleet, which is filled with none.
#[derive(Drop)]
pub struct Turns {
    kept: Rows<Turn>,
}

impl Turns {
    /// None is known yet.
    pub fn new(alloc: Global) -> Turns
        ensures { result.kept ≡ [] }
    {
        Turns {
            kept: Rows::new(alloc),
        }
    }

    /// The turn of a vehicle's order, if it is known.
    pub fn get(&self, key: &(Callsign, Number)) -> Option<Turn>
        ensures { (room : Room) → AreTurnsOf self.now.kept room → IfSome result (λ t.
            (row_at numbered_cmp turn_key room.turns key.now ≡ Some t) × (t.ended ≡ None)) }
    {
        self.kept.get(key).copied()
    }

    /// Keeps a turn that was read, where it is open and memory is not refused.
    pub fn fill(&mut self, turn: &Turn)
        ensures { (room : Room) → AreTurnsOf self.old.kept room
            → row_at numbered_cmp turn_key room.turns (turn_key turn.now) ≡ Some turn.now
            → AreTurnsOf self.new.kept room }
    {
        self.put(turn);
    }

    /// Makes a change of the room that was committed.
    pub fn apply(&mut self, change: &Change)
        ensures { (room : Room) → AreTurnsOf self.old.kept room
            → AreTurnsOf self.new.kept (apply_one room change.now) }
    {
        if let Change::PutTurn(turn) = change {
            self.put(turn);
        }
    }

    // Puts a turn in its key's place. One that has ended is not kept, nor one for which memory is
    // refused, nor the one that was there before.
    fn put(&mut self, turn: &Turn)
        ensures read { (room : Room) → AreTurnsOf self.old.kept room
            → row_at numbered_cmp turn_key room.turns (turn_key turn.now) ≡ Some turn.now
            → AreTurnsOf self.new.kept room }
        ensures made { (room : Room) → AreTurnsOf self.old.kept room
            → AreTurnsOf self.new.kept (apply_one room (PutTurn turn.now)) }
    {
        // It shows that the turns are in order, so that no other has the key of one that is taken
        // out.
        let _in_order = self.kept.as_slice();
        if turn.ended.is_some() || self.kept.put(*turn).is_err() {
            let _ = self.kept.take(&turn.key());
        }
    }
}
