//! The whole numbers of the room, each with its range in its type.
use room_place::bounded_numbers::Bounded;

/// The greatest `Moment`: the last second of 2099.
pub const LAST_MOMENT: u32 = 4_102_444_799;

/// A call taker's position: 1 to 99.
pub type PositionNumber = Bounded<1, 99>;
/// A standby point of a division: 1 to 99.
pub type PointNumber = Bounded<1, 99>;
/// How urgent an incident is: 1 to 3, the most urgent first.
pub type Class = Bounded<1, 3>;
/// How many vehicles of one kind are wanted, sent or lacking: 0 to 9.
pub type Need = Bounded<0, 9>;
/// How many vehicles a standby point needs: 0 to 9.
pub type Cover = Bounded<0, 9>;
/// How far from a place an incident is sought: 1 to 99999 metres.
pub type Metres = Bounded<1, 99999>;
/// The number of a call, a report, an incident or an order: 1 to 2147483647.
pub type Number = Bounded<1, 2147483647>;
/// The number that was given last, 0 where none was.
pub type LastNumber = Bounded<0, 2147483647>;
/// A whole second of UTC since 1970, up to the end of 2099.
pub type Moment = Bounded<0, 4102444799>;
