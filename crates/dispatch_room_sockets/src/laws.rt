//! What holds of those who wait and of the pieces of a stream. Each law is the contract of a
//! function that does nothing.
ghost use Rattle.dispatch_room_sockets.specs.Pieces.{AreJoined};
ghost use Rattle.dispatch_room_sockets.specs.Turns.{AreGivenSoon};

/// A stream of whole messages, of which none closes, and then more, is split as these pieces are,
/// one after the other.
pub fn pieces_are_joined()
    ensures { AreJoined }
{}

/// Nobody starves: who is whole is given after at most so many others.
pub fn who_is_whole_is_given_soon<C>()
    ensures { AreGivenSoon C }
{}
