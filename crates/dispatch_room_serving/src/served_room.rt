//! The room of a database, opened and served to those who call.
ghost use Rattle.std.specs.Prelude.{◌≡◌, ◌&&◌, false, true, IfErr, IfOk, MatchResult, None, OnErr};
ghost use Rattle.dispatch_room_exit.specs.declared.exit_status.Failure.TheVariants.{Journal};
ghost use Rattle.room_store.specs.StoredRoom.{IsReady};
ghost use Rattle.dispatch_room_tasks.specs.OpenedRoom.{IsUnopened};
ghost use Rattle.dispatch_room_serving.specs.Callers.{Prints};
ghost use Rattle.dispatch_room_serving.specs.ListPlaces.{has_left};
ghost use Rattle.dispatch_room_serving.specs.ServedRoom.{Announces, Attends, ServesRoom};

use crate::callers::Callers;
use crate::connections::serve_each;
use crate::journal_observers::JournalObserver;
use crate::list_places::ListPlace;
use dispatch_room_exit::exit_status::{Done, Failure, refused};
use dispatch_room_journal::journal_digests::digest_of;
use dispatch_room_tasks::opened_room::{TaskResult, open_room};
use room_http::clocks::Clock;
use room_http::handlers::Handler;
use room_http::settings::HttpSettings;
use room_model::digests::{StartDigest, Version};
use room_store::store::Store;
use room_store::store_digest::digest_of_room;
use sqlite::{Alter, Connection};
use std::alloc::Global;

/// What is served of a room.
#[derive(Clone, Copy)]
pub struct ServiceLimits {
    /// How many calls are served.
    pub connections: u64,
    /// Whether the paths of history are served.
    pub history: bool,
    /// Whether serving ends early, once the list was renamed, removed or truncated.
    pub renews: bool,
}

/// A part of what is served: within which limits, and the place of its list, if that may end it.
#[derive(Clone, Copy)]
pub struct ServedPart<'a> {
    pub limits: ServiceLimits,
    pub place: Option<ListPlace<'a>>,
}

/// Serves the room of a database to as many calls as the limits say. The room is opened, the
/// observer is given its digest if it wants it, and the callers begin; then each call is served
/// from the room that the one before left, in the zone of the room's plan, with the paths of
/// history or without. If no room is opened, no call is heard. If the limits say so (`renews`),
/// serving ends early once a look at the place of the list finds it moved or truncated, and only
/// then.
pub fn serve_in<S: Alter + Drop, P: Callers, C: Clock, N: JournalObserver>(
    alloc: Global,
    conn: Connection<S>,
    callers: &mut P,
    clock: &mut C,
    journal_observer: &mut N,
    part: &mut ServedPart<'_>,
) -> TaskResult<Done, S>
    requires outside { conn.in_transaction ≡ false }
    ensures outside { IfOk result (λ worked. worked.1.in_transaction ≡ false) }
    ensures served { IfOk result (ServesRoom S.Store (N.wants journal_observer.old) N.begun N.came
        N.response part.old.limits.history conn
        (λ store. record {
          heard = P.heard callers.old;
          written = P.written callers.old;
          stage = record {
            given = C.given clock.old;
            kept = N.held journal_observer.old;
            has_failed = N.has_failed journal_observer.old;
            store = store;
          };
        })
        (λ store. record {
          heard = P.heard callers.new;
          written = P.written callers.new;
          stage = record {
            given = C.given clock.new;
            kept = N.held journal_observer.new;
            has_failed = N.has_failed journal_observer.new;
            store = store;
          };
        })
        (part.old.limits.renews && has_left part.new.place) part.old.limits.connections) }
    ensures prints { IfOk result (λ worked.
        Prints (P.prints callers.old) (P.prints callers.new) worked.0) }
    ensures unheard { OnErr result ((callers.new ≡ callers.old) × (clock.new ≡ clock.old)) }
    ensures fault { IfErr result (IsUnopened S.Store conn) }
    ensures none { part.old.place ≡ None → part.new.place ≡ None }
{
    let (mut room, zone) = open_room(alloc, conn)?;
    let setting = HttpSettings {
        zone,
        history: part.limits.history,
    };
    match Handler::new(alloc, setting) {
        Ok(handler) => {
            let served = begin_and_serve(
                &handler,
                callers,
                &mut room,
                clock,
                journal_observer,
                part,
            );
            Ok((served, room.close()))
        }
        Err(_) => Ok((Err(Failure::Memory), room.close())),
    }
}

// Hands the observer the digest of the room, lets the callers begin, and serves the calls.
fn begin_and_serve<S: Alter, P: Callers, C: Clock, N: JournalObserver>(
    handler: &Handler,
    callers: &mut P,
    room: &mut Store<S>,
    clock: &mut C,
    journal_observer: &mut N,
    part: &mut ServedPart<'_>,
) -> Result<Done, Failure>
    requires ready { IsReady S.Store room.old }
    ensures ready { IsReady S.Store room.new }
    ensures attends { Attends S.Store
        (N.wants journal_observer.old) N.begun N.came N.response handler.now.setting
        (record {
          heard = P.heard callers.old;
          written = P.written callers.old;
          stage = record {
            given = C.given clock.old;
            kept = N.held journal_observer.old;
            has_failed = N.has_failed journal_observer.old;
            store = room.old;
          };
        })
        (record {
          heard = P.heard callers.new;
          written = P.written callers.new;
          stage = record {
            given = C.given clock.new;
            kept = N.held journal_observer.new;
            has_failed = N.has_failed journal_observer.new;
            store = room.new;
          };
        })
        (part.old.limits.renews && has_left part.new.place) part.old.limits.connections result }
    ensures prints { Prints (P.prints callers.old) (P.prints callers.new) result }
    ensures none { part.old.place ≡ None → part.new.place ≡ None }
{
    if let Err(fault) = announce(room, journal_observer) {
        return Err(fault);
    }
    match callers.begin() {
        Ok(()) => serve_each(handler, callers, room, clock, journal_observer, part),
        Err(fault) => Err(fault),
    }
}

// Hands the observer the digest of the room at which it begins, if it wants to know.
fn announce<S: Alter, N: JournalObserver>(
    room: &mut Store<S>,
    journal_observer: &mut N,
) -> Result<(), Failure>
    requires ready { IsReady S.Store room.old }
    ensures ready { IsReady S.Store room.new }
    ensures announces { Announces S.Store (N.wants journal_observer.old) N.begun room.old room.new
        (N.held journal_observer.old) (N.held journal_observer.new) result }
    ensures failed { MatchResult result
        (λ _. N.has_failed journal_observer.new ≡ N.has_failed journal_observer.old)
        (λ fault. fault ≡ Journal → N.has_failed journal_observer.new ≡ true) }
{
    if !journal_observer.wants_digest() {
        return Ok(());
    }
    match digest_of_room(room, Version::Second) {
        Ok(digest) => {
            let head = StartDigest {
                version: Version::Second,
                digits: digest_of(&digest),
            };
            match journal_observer.begins(&head) {
                Ok(()) => Ok(()),
                Err(_) => Err(Failure::Journal),
            }
        }
        Err(refusal) => Err(refused(refusal)),
    }
}
