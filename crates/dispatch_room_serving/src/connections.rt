//! The connections of a room, served one after another.
ghost use Rattle.std.specs.Prelude.{◌≡◌, ◌&&◌, None};
ghost use Rattle.room_store.specs.StoredRoom.{IsReady};
ghost use Rattle.dispatch_room_serving.specs.Connections.{AttendsNext, Serves, done_or, fault_by};
ghost use Rattle.dispatch_room_serving.specs.ListPlaces.{has_left};

use crate::callers::Callers;
use crate::list_places::{Finding, standing};
use crate::served_room::ServedPart;
use dispatch_room_exit::exit_status::{Done, Failure};
use room_http::clocks::Clock;
use room_http::handlers::Handler;
use room_http::observers::Observer;
use room_http::session::{Connection, ServeEnd, serve};
use room_store::store::Store;
use sqlite::Alter;

/// How many reads a connection has at most.
pub const MOST_READS: u32 = 100_000;

/// Serves a room to as many calls as the limits say, one after another, each as `serve_next` does.
/// If the limits allow a new part (`renews`), it ends early once a look before a call finds the list
/// moved or truncated, and only then.
pub fn serve_each<S: Alter, P: Callers, C: Clock, N: Observer>(
    handler: &Handler,
    callers: &mut P,
    room: &mut Store<S>,
    clock: &mut C,
    observer: &mut N,
    part: &mut ServedPart<'_>,
) -> Result<Done, Failure>
    requires ready { IsReady S.Store room.old }
    ensures ready { IsReady S.Store room.new }
    ensures served { Serves S.Store handler.now.setting N.came N.response
        (record {
          heard = P.heard callers.old;
          written = P.written callers.old;
          stage = record {
            given = C.given clock.old;
            kept = N.held observer.old;
            has_failed = N.has_failed observer.old;
            store = room.old;
          };
        })
        (record {
          heard = P.heard callers.new;
          written = P.written callers.new;
          stage = record {
            given = C.given clock.new;
            kept = N.held observer.new;
            has_failed = N.has_failed observer.new;
            store = room.new;
          };
        })
        (part.old.limits.renews && has_left part.new.place) part.old.limits.connections result }
    ensures prints { P.prints callers.new ≡ P.prints callers.old }
    ensures none { part.old.place ≡ None → part.new.place ≡ None }
{
    let limits = part.limits;
    for _connection in 0..limits.connections {
        if limits.renews && standing(&mut part.place) != Finding::There {
            return Ok(Done::Whole);
        }
        if let Err(fault) = serve_next(handler, callers, room, clock, observer) {
            return Err(fault);
        }
    }
    Ok(Done::Whole)
}

/// Serves the next call. If more is served after it, what held after the calls before holds after
/// this one too: so it holds after any number of them, however long the room is served. A
/// connection that ends badly ends the service only if memory is refused (`Memory`), if the
/// observer could not keep what was reported to it (`Journal`), or if the store is no longer sound
/// (`Storage`).
pub fn serve_next<S: Alter, P: Callers, C: Clock, N: Observer>(
    handler: &Handler,
    callers: &mut P,
    room: &mut Store<S>,
    clock: &mut C,
    observer: &mut N,
) -> Result<(), Failure>
    requires ready { IsReady S.Store room.old }
    ensures ready { IsReady S.Store room.new }
    ensures attended { AttendsNext S.Store handler.now.setting N.came N.response
        (record {
          heard = P.heard callers.old;
          written = P.written callers.old;
          stage = record {
            given = C.given clock.old;
            kept = N.held observer.old;
            has_failed = N.has_failed observer.old;
            store = room.old;
          };
        })
        (record {
          heard = P.heard callers.new;
          written = P.written callers.new;
          stage = record {
            given = C.given clock.new;
            kept = N.held observer.new;
            has_failed = N.has_failed observer.new;
            store = room.new;
          };
        })
        result }
    ensures prints { P.prints callers.new ≡ P.prints callers.old }
{
    let Some((reader, writer)) = callers.next() else {
        return Ok(());
    };
    let mut connection = Connection { reader, writer };
    let end = serve(handler, &mut connection, room, clock, observer, MOST_READS);
    callers.done(connection.reader, connection.writer);
    goes_on(end, room.is_sound())
}

// Whether more is served after a connection that ended so.
fn goes_on(end: ServeEnd, is_sound: bool) -> Result<(), Failure>
    ensures { result ≡ done_or (fault_by end is_sound) }
{
    match end {
        ServeEnd::Memory => Err(Failure::Memory),
        ServeEnd::JournalFailed => Err(Failure::Journal),
        _ if is_sound => Ok(()),
        _ => Err(Failure::Storage),
    }
}
