//! What holds of a room's service over all its starts. Each law is the contract of a function that
//! does nothing.
ghost use Rattle.dispatch_room_serving.specs.KeptChanges.{ChangesAreTheRoom};
ghost use Rattle.dispatch_room_serving.specs.KeptChanges.{QuestionsChangeNothing};
ghost use Rattle.dispatch_room_serving.specs.Lists.{
  ListIsReplayed,
  ListIsTheRoom,
  ServedKeepsItsPart,
};
ghost use Rattle.dispatch_room_serving.specs.Lives.{LifeIsOneList};
ghost use Rattle.dispatch_room_serving.specs.Starts.{ServedIsAStart, ServingIsAStart};

use sqlite::Alter;

/// All that happens to a room's file is one list of deeds from the first room: services that end or
/// are stopped at any moment and begin again, imports, changes of terminals and of plans, in any
/// order. Each finds what the one before left, or what a stop of it may leave: of a service with one
/// event more than it answered, of an import the first rows, of a change all or nothing. The starts
/// of a service are one run, which keeps the promises.
pub fn a_life_is_one_list<S: Alter>()
    ensures { LifeIsOneList S.Store }
{}

/// What `serve_in` gives is a start of a run.
pub fn what_was_served_is_a_start<S: Alter>()
    ensures { ServedIsAStart S.Store }
{}

/// What is being served is a start of a run after every number of calls.
pub fn what_is_served_is_a_start<S: Alter>()
    ensures { ServingIsAStart S.Store }
{}

/// Where a message that changes a room changes its digest, the list of all starts leads from the
/// first room to the last, or to the one before a last message without a status. It can be replayed
/// so, with the answers that were given, from the room that the first start found to the one for
/// which the store stands at the end.
pub fn the_list_is_the_room_over_all_starts<S: Alter>()
    ensures { ListIsTheRoom S.Store }
{}

/// What `serve_in` gives where a list is kept is a start that kept its part of it.
pub fn what_was_served_kept_its_part<S: Alter>()
    ensures { ServedKeepsItsPart S.Store }
{}

/// `replay` of the list, over a room that is equal to the first, leads to the room at its end.
pub fn the_list_is_replayed<S: Alter, T: Alter>()
    ensures { ListIsReplayed S.Store T.Store }
{}

/// A room that gets only those of its messages that are no questions comes to the same room, and
/// answers them the same.
pub fn questions_change_nothing()
    ensures { QuestionsChangeNothing }
{}

/// So a list without questions leads to the room too, and each status in it is as it was written.
pub fn changes_are_the_room()
    ensures { ChangesAreTheRoom }
{}
