//! How a replay ends: a last record that is cut off may be left out, and the digest of the room may
//! be printed.
ghost use Rattle.room_store.specs.StoredRoom.{IsReady};
ghost use Rattle.dispatch_room_lists.specs.ReplayEnds.{Concludes, IsLeftOut};

use crate::digest_lines::print_digest;
use dispatch_room_cli::tasks::Replay;
use dispatch_room_exit::exit_status::{Done, Failure};
use room_store::store::Store;
use sqlite::Alter;
use std::io::Write;

/// Ends a replay that came to this result. If the list may be open (`replay.open`) and its end was
/// found, a last record that is cut off is left out, and the number of messages before it is
/// printed. Then the digest of the room is printed, if `replay.digest` asks for it. If each message
/// is answered, nothing more is printed.
pub fn conclude<S: Alter, O: Write, E: Write>(
    room: &mut Store<S>,
    replay: &Replay,
    came: Result<Done, Failure>,
    has_ended: bool,
    out: &mut O,
    err: &mut E,
) -> Result<Done, Failure>
    requires ready { IsReady S.Store room.old }
    ensures { Concludes S.Store room.old room.new replay.now came has_ended
        (O.contents out.old) (O.contents out.new) result }
{
    if replay.answers {
        return came;
    }
    match without_cut(came, replay.open && has_ended, out, err) {
        Ok(_) if replay.digest => print_digest(room, out),
        done => done,
    }
}

// The result of a replay, where a record that is cut off is no fault if the list may be cut.
fn without_cut<O: Write, E: Write>(
    came: Result<Done, Failure>,
    may_be_cut: bool,
    out: &mut O,
    err: &mut E,
) -> Result<Done, Failure>
    ensures { IsLeftOut (O.contents out.old) (O.contents out.new) may_be_cut came result }
{
    match came {
        Err(Failure::Record(number)) if may_be_cut => {
            let _ = writeln!(err, "the last record is cut off, and was left out");
            match writeln!(out, "replayed {}", number.saturating_sub(1)) {
                Ok(()) => Ok(Done::Whole),
                Err(_) => Err(Failure::Network),
            }
        }
        _ => came,
    }
}
