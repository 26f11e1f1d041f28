//! What a journal and a room decide by themselves. Each law is the contract of a function that does
//! nothing.
ghost use Rattle.std.specs.Prelude.{ℕ, List};
ghost use Rattle.dispatch_room_journal.specs.ReplayLaws.{IsKept, IsOneAnswering, IsOneReplay};
ghost use Rattle.dispatch_room_journal.specs.ReplayLaws.{IsTheRoom, IsWhole, IsWholeUpTo};
ghost use Rattle.dispatch_room_journal.specs.Replays.{digits_of};

use room_model::digests::Digested;

/// Two rooms that begin equal and replay the same entries play the same messages, answer them
/// equally, and end equal.
pub fn one_replay()
    ensures { IsOneReplay }
{}

/// Two equal rooms answer equally and end equal, too, where each message is played once it is
/// whole.
pub fn one_answering()
    ensures { IsOneAnswering }
{}

/// A replay to the dispatch machine is a run, which keeps the room's promises.
pub fn a_replay_keeps_the_promises()
    ensures { IsKept }
{}

/// What a journal keeps of a room that is served, replayed to an equal room, gives the answers that
/// were given, and leads to an equal room.
pub fn the_list_is_the_room()
    ensures { IsTheRoom }
{}

/// A list that can be replayed to a room is replayed to it. It stops only where a read fails,
/// memory is refused, storage fails, or after more turns than are counted.
pub fn a_list_that_can_be_replayed_is<M: Digested>()
    ensures { (place : List ℕ)
        → IsWhole M.step (digits_of M.digest_of place) M.is_trusted M.stands }
{}

/// A list that can be replayed is replayed up to any moment: what is done are its turns up to it.
pub fn a_list_up_to_a_moment_is_replayed<M: Digested>()
    ensures { (place : List ℕ)
        → IsWholeUpTo M.step (digits_of M.digest_of place) M.is_trusted M.stands }
{}
