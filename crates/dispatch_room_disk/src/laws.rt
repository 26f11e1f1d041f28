//! What is known of the steps of a restore. A law is the contract of a function that does nothing.
ghost use Rattle.dispatch_room_disk.specs.StoppedRestores.{KeepsRooms, LeavesOneRoom};

/// Wherever a restore is stopped, there is no file at the path; or the room that was there, with
/// all the files beside it; or the copy, with none of that room's files beside it.
pub fn a_stop_leaves_one_room()
    ensures { LeavesOneRoom }
{}

/// Wherever restores of a copy are stopped, and however often they are done again, the room that
/// was there before the first is there or was set aside, with all the files beside it, and nothing
/// that was set aside is changed.
pub fn restores_keep_rooms()
    ensures { KeepsRooms }
{}
