//! What is known of parts of the room beside its tables: copies that each commit is applied to.
ghost use Rattle.room_model.specs.Room.{IsInOrder, Room, apply_one};

use room_types::changes::Change;

/// What is known of a part of the room. `fill` keeps what was read of the tables, where memory is
/// not refused, and `get` gives what is known.
pub trait View {
    /// Whether what is known is so in a room.
    ghost is_so: { Self → Room → Type 0 };

    /// Whether nothing is known.
    ghost is_empty: { Self → Type 0 };

    /// Makes a change of the room that was committed. What memory is refused for is not known any
    /// more.
    fn apply(&mut self, change: &Change)
        ensures { (room : Room) → IsInOrder room → is_so self.old room
            → is_so self.new (apply_one room change.now) };

    /// Nothing is known from now on.
    fn forget(&mut self)
        ensures { is_empty self.new };
}
