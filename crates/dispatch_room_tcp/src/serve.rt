//! `serve`: a room is served over TCP, either to a number of connections, one after another, or to
//! all who call, until it is stopped. In the second case it may be served in parts, each with a
//! list of its own.
ghost use Rattle.std.specs.Prelude.{◌≡◌, ◌≢◌, ◌⊎◌, ◌*◌, Option, None, false, true, is_some, IfErr};
ghost use Rattle.std.specs.Prelude.{IfOk, IfSome, IsNone, OnErr, if◌then◌else◌};
ghost use Rattle.std.specs.Duration.{as_nanos};
ghost use Rattle.sqlite.specs.Files.{over_files};
ghost use Rattle.dispatch_room_disk.specs.CommandSteps.{Quietly, at};
ghost use Rattle.dispatch_room_tasks.specs.OpenedRoom.{IsUnopened};
ghost use Rattle.dispatch_room_serving.specs.Callers.{MayCall, Prints, PrintsStart};
ghost use Rattle.dispatch_room_serving.specs.Journals.{EndsAfter, failed_by};
ghost use Rattle.dispatch_room_serving.specs.declared.list_places.Finding.TheVariants.{Truncated};
ghost use Rattle.dispatch_room_tcp.specs.ServedFiles.{IsAcceptorOf, IsAddressOf, IsServe, IsServed};
ghost use Rattle.dispatch_room_tcp.specs.ServedFiles.{IsServedAt, PrintsServing};
ghost use Rattle.dispatch_room_tcp.specs.ServedFiles.{begins_at, ended, is_endless, is_synced_by};
ghost use Rattle.dispatch_room_tcp.specs.ServedFiles.{keeps_questions_by, manner_of, limits_of};
ghost use Rattle.dispatch_room_tcp.specs.ServedFiles.{watch_of};
ghost use Rattle.dispatch_room_tcp.specs.ServedParts.{EndsAs, GoesOn, IsJournalOf, IsPart};
ghost use Rattle.dispatch_room_tcp.specs.ServedParts.{OpensFor, OpensNoPart, ServesParts};
ghost use Rattle.dispatch_room_disk.specs.SystemFiles.{system};

use crate::hosts::{Host, Machine};
use crate::listeners::{Listener, TcpAddress};
use crate::tcp_acceptors::{SystemAcceptor, TcpAcceptor};
use crate::tcp_callers::TcpCallers;
use dispatch_room_cli::tasks::Service;
use dispatch_room_disk::room_files::RoomFile;
use dispatch_room_exit::exit_status::{Done, Failure};
use dispatch_room_exit::failure_causes::Explainer;
use dispatch_room_serving::callers::Callers;
use dispatch_room_serving::journal_files::{JournalFile, Lasting, OpenedList, SystemFile};
use dispatch_room_serving::journals::{Journal, Keeper};
use dispatch_room_serving::list_places::{Finding, ListPlace, Placed, standing};
use dispatch_room_serving::log_observers::LogAndJournal;
use dispatch_room_serving::logs::Log;
use dispatch_room_serving::served_room::{ServedPart, ServiceLimits, serve_in};
use dispatch_room_sockets::timeouts::Waits;
use dispatch_room_tasks::opened_room::TaskResult;
use room_http::clocks::{Clock, MachineClock};
use sqlite::{Alter, Connection};
use std::alloc::Global;
use std::io::Write;
use std::time::{self, Duration};

/// Serves the room of a file, with a log and a journal if they are asked for: to a number of
/// connections, one after another, each to its end; or, if it goes on until it is stopped, in
/// pieces, so that nobody waits for a silent caller. A connection that ends badly ends the service
/// only if memory is refused, if the journal can't be kept, or if the room's file failed so that it
/// has to be opened again.
pub fn serve_file<M: Machine, O: Write>(
    host: Host<'_>,
    machine: &mut M,
    file: &str,
    service: Service<'_>,
    out: &mut O,
) -> Result<Done, Failure>
    ensures { IsServe system M.File.Write.contents file.now service.entry
        (at (O.contents out.old) (M.done machine.old))
        (at (O.contents out.new) (M.done machine.new)) result }
{
    let journal = journal_file(machine, &service)?;
    let run = ServiceRun { host, service };
    if is_endless(&run.service) {
        serve_at(machine, file, &run, journal, acceptor_of(file, &run), out)
    } else {
        serve_at(machine, file, &run, journal, address_of(&run), out)
    }
}

// How a room is served: the service, and the host that it runs on.
#[derive(Clone, Copy)]
struct ServiceRun<'a> {
    host: Host<'a>,
    service: Service<'a>,
}

// Whether a service goes on until it is stopped: 2^64 - 1 connections mean that, and are the
// default. Otherwise a connection counts as soon as it is waited for, whatever becomes of it.
fn is_endless(service: &Service<'_>) -> bool
    ensures { result ≡ is_endless service.now }
{
    service.connections == u64::MAX
}

// The acceptor of a service that goes on until it is stopped.
fn acceptor_of<'a>(file: &'a str, run: &ServiceRun<'a>) -> SystemAcceptor<'a, HostRuntime>
    ensures acceptor { IsAcceptorOf run.now.service result }
    ensures deaf { is_some result.waiting ≡ false }
{
    let keep = Duration::from_secs(u64::from(run.service.keep));
    let patience = waits_of(&run.service).patience;
    let host = run.host;
    TcpAcceptor::new(host.rt, host, file, run.service.address, keep, patience)
}

// The address of a service that serves so many connections.
fn address_of<'a>(run: &ServiceRun<'a>) -> TcpAddress<'a>
    ensures address { IsAddressOf run.now.service result }
    ensures deaf { is_some result.listener ≡ false }
{
    TcpAddress::new(
        run.host.rt,
        run.host.explainer,
        run.service.address,
        waits_of(&run.service),
    )
}

// Serves the room of a file to the callers of a listener.
fn serve_at<M: Machine, L: Listener, O: Write>(
    machine: &mut M,
    file: &str,
    run: &ServiceRun<'_>,
    journal: Option<OpenedList<M::File>>,
    listener: L,
    out: &mut O,
) -> Result<Done, Failure>
    ensures { IsServedAt system M.File.Write.contents L.heard L.written (L.is_listening listener)
        (manner_of M.File.Write.contents run.now.service journal) listener file.now
        (at (O.contents out.old) (M.done machine.old))
        (at (O.contents out.new) (M.done machine.new)) result }
{
    let conn = machine.open(RoomFile::Kept(file))?;
    let came = serve_listened(machine, conn, run, journal, listener, out);
    let served = machine.close(RoomFile::Kept(file), came)?;
    Ok(served.done)
}

// Opens the list of a journal, if a journal is asked for.
fn journal_file<M: Machine>(
    machine: &mut M,
    service: &Service<'_>,
) -> Result<Option<OpenedList<M::File>>, Failure>
    ensures listed { IfOk result (λ list. is_some list ≡ is_some service.now.journal) }
    ensures opens { Quietly (OpensFor service.now.journal) (M.done machine.old)
        (M.done machine.new) result }
{
    match &service.journal {
        Some(journal) => Ok(Some(machine.open_journal(journal.list)?)),
        None => Ok(None),
    }
}

/// How serving a room ended, and its listener.
#[derive(Drop)]
pub struct Served<L> {
    done: Done,
    listener: L,
}

// Serves the room of a database to the callers of a listener, which is given back.
fn serve_listened<M: Machine, S: Alter + Drop, L: Listener, O: Write>(
    machine: &mut M,
    conn: Connection<S>,
    run: &ServiceRun<'_>,
    list: Option<OpenedList<M::File>>,
    listener: L,
    out: &mut O,
) -> TaskResult<Served<L>, S>
    requires outside { conn.in_transaction ≡ false }
    ensures served { IfOk result (λ worked. IsServed L.heard L.written S.Store conn worked.1
        (M.done machine.old) (M.done machine.new)
        (manner_of M.File.Write.contents run.now.service list) listener worked.0) }
    ensures printed { IfOk result (λ worked. PrintsServing (L.is_listening listener)
        (O.contents out.old) (O.contents out.new) (ended worked.0)) }
    ensures fault { IfErr result (OpensNoPart S.Store
        (manner_of M.File.Write.contents run.now.service list)
        (begins_at L.heard L.written listener conn (M.done machine.old)) (M.done machine.new)) }
    ensures unopened { OnErr result ((O.contents out.new ≡ O.contents out.old)
        ⊎ PrintsStart (L.is_listening listener) (O.contents out.old) (O.contents out.new)) }
{
    let mut callers = TcpCallers::new(listener, out);
    let mut clock = MachineClock::new(run.host.rt);
    let came = serve_parts(machine, conn, run, list, &mut callers, &mut clock);
    let listener = callers.into_listener();
    let (done, conn) = came?;
    Ok((given_back(done, listener), conn))
}

// How serving ended, with its listener.
fn given_back<L: Drop>(done: Result<Done, Failure>, listener: L) -> Result<Served<L>, Failure>
    ensures done { ended result ≡ done }
    ensures listener { IfOk result (λ served. served.listener ≡ listener) }
{
    match done {
        Ok(done) => Ok(Served { done, listener }),
        Err(fault) => Err(fault),
    }
}

// Serves the room of a database to its callers, in parts if the service allows that: whenever one
// ends well, the next begins with a new list.
fn serve_parts<M: Machine, S: Alter + Drop, P: Callers, C: Clock>(
    machine: &mut M,
    conn: Connection<S>,
    run: &ServiceRun<'_>,
    list: Option<OpenedList<M::File>>,
    callers: &mut P,
    clock: &mut C,
) -> TaskResult<Done, S>
    requires outside { conn.in_transaction ≡ false }
    ensures served { IfOk result (λ worked. ServesParts S.Store
        (manner_of M.File.Write.contents run.now.service list)
        (record {
          interval = record {
            conn = conn;
            heard = P.heard callers.old;
            written = P.written callers.old;
            given = C.given clock.old;
          };
          done = M.done machine.old;
        })
        (record {
          interval = record {
            conn = worked.1;
            heard = P.heard callers.new;
            written = P.written callers.new;
            given = C.given clock.new;
          };
          done = M.done machine.new;
        })
        worked.0) }
    ensures prints { IfOk result (λ worked.
        Prints (P.prints callers.old) (P.prints callers.new) worked.0) }
    ensures fault { IfErr result (OpensNoPart S.Store
        (manner_of M.File.Write.contents run.now.service list)
        (record {
          interval = record {
            conn = conn;
            heard = P.heard callers.old;
            written = P.written callers.old;
            given = C.given clock.old;
          };
          done = M.done machine.old;
        })
        (M.done machine.new)) }
    ensures unopened { OnErr result ((P.prints callers.new ≡ P.prints callers.old)
        ⊎ MayCall (P.prints callers.old) (P.prints callers.new)) }
{
    let has_journal = list.is_some();
    let (first, left) = serve_part(conn, run, list, callers, clock)?;
    if !limits_of(&run.service).renews {
        return Ok((first, left));
    }
    let mut done = first;
    let mut conn = left;
    for _part in 1..u64::MAX {
        if done.is_err() {
            return Ok((done, conn));
        }
        let list = match next_list(machine, run, has_journal) {
            Ok(next) => next,
            Err(fault) => return Ok((Err(fault), conn)),
        };
        let (next, left) = serve_part(conn, run, list, callers, clock)?;
        done = next;
        conn = left;
    }
    Ok((done, conn))
}

// Opens the list of the next part, where the first has one.
fn next_list<M: Machine>(
    machine: &mut M,
    run: &ServiceRun<'_>,
    has_journal: bool,
) -> Result<Option<OpenedList<M::File>>, Failure>
    requires journal { is_some run.now.service.journal ≡ true }
    ensures listed { IfOk result (λ next. is_some next ≡ has_journal) }
    ensures opens { Quietly (OpensFor (if has_journal then run.now.service.journal else None))
        (M.done machine.old) (M.done machine.new) result }
{
    if !has_journal {
        return Ok(None);
    }
    journal_file(machine, &run.service)
}

// Serves the room of a database to as many callers as the service says, or until its list is moved
// or truncated, and keeps a journal if there is a list for it. If that ended well, an end is put in
// the list, unless it was truncated; where that fails, the part fails as `Journal`.
fn serve_part<S: Alter + Drop, F: Lasting + Placed + Drop, P: Callers, C: Clock>(
    conn: Connection<S>,
    run: &ServiceRun<'_>,
    list: Option<OpenedList<F>>,
    callers: &mut P,
    clock: &mut C,
) -> TaskResult<Done, S>
    requires outside { conn.in_transaction ≡ false }
    ensures outside { IfOk result (λ worked. worked.1.in_transaction ≡ false) }
    ensures served { IfOk result (λ worked. IsPart S.Store
        (watch_of F.Write.contents (is_some list) run.now.service) (limits_of run.now.service) list
        (record {
          conn = conn;
          heard = P.heard callers.old;
          written = P.written callers.old;
          given = C.given clock.old;
        })
        (record {
          conn = worked.1;
          heard = P.heard callers.new;
          written = P.written callers.new;
          given = C.given clock.new;
        })
        worked.0) }
    ensures prints { IfOk result (λ worked.
        Prints (P.prints callers.old) (P.prints callers.new) worked.0) }
    ensures fault { IfErr result (IsUnopened S.Store conn) }
    ensures unopened { OnErr result (P.prints callers.new ≡ P.prints callers.old) }
{
    let host = run.host;
    let service = &run.service;
    let mut err = host.rt.stderr();
    let limits = limits_of(service);
    let mut part = ServedPart {
        limits,
        place: place_of(run, &list, limits.renews),
    };
    let has_journal = list.is_some();
    let mut log_and_journal = observer_of(host, service, list, &mut err);
    let (done, conn) = serve_in(
        host.alloc,
        conn,
        callers,
        clock,
        &mut log_and_journal,
        &mut part,
    )?;
    let left = standing(&mut part.place);
    let done = end_part(has_journal, left, &mut log_and_journal, done);
    drop(log_and_journal);
    if done.is_ok() {
        leave(host.alloc, part.place, left, &mut err);
    }
    Ok((done, conn))
}

// How a part ends that was served: if that went well, an end is put in its list, if there is one
// that was not truncated.
#[tactic(auto, using(crate::proofs::PartLemmas::ends_as))]
fn end_part<E: Write, T: time::Clock, W: Keeper>(
    has_journal: bool,
    left: Finding,
    log_and_journal: &mut LogAndJournal<'_, E, T, W>,
    served: Result<Done, Failure>,
) -> Result<Done, Failure>
    ensures part { EndsAs has_journal served result }
    ensures ended { has_journal ≡ true → left ≢ Truncated
        → EndsAfter W.ends log_and_journal.old.journal log_and_journal.new.journal served result }
    ensures cut { left ≡ Truncated
        → (result ≡ served) × (log_and_journal.new ≡ log_and_journal.old) }
{
    match left {
        Finding::Truncated => served,
        Finding::There | Finding::Elsewhere if has_journal => log_and_journal.end_after(served),
        Finding::There | Finding::Elsewhere => served,
    }
}

// The place of the list of a service, if it may be served in parts: none where the system doesn't
// say which file the list is.
fn place_of<'a, F: Lasting + Placed>(
    run: &ServiceRun<'a>,
    list: &Option<OpenedList<F>>,
    renews: bool,
) -> Option<ListPlace<'a>>
    ensures unlooked { renews ≡ false → result ≡ None }
    ensures hidden { renews ≡ true → IsNone result → IfSome list.now (λ list.
        IsNone run.now.service.journal ⊎ F.is_hidden list.0) }
{
    match (list, run.service.journal) {
        (Some(list), Some(journal)) if renews => {
            list.file().place(run.host.rt, journal.list).ok()
        }
        _ => None,
    }
}

// Reports why a new part begins, if one does. What is left of a truncated list is set aside, since
// what was appended to it afterwards follows records that are lost.
fn leave<E: Write>(alloc: Global, place: Option<ListPlace<'_>>, left: Finding, err: &mut E) {
    let Some(place) = place else {
        return;
    };
    let _ = match left {
        Finding::There => Ok(()),
        Finding::Elsewhere => writeln!(err, "journal: the list was moved, a new one begins"),
        Finding::Truncated if place.set_aside(alloc) => {
            writeln!(err, "journal: the list was truncated, a new one begins")
        }
        Finding::Truncated => writeln!(err, "journal: the list was truncated"),
    };
}

// The limits within which a service serves its room.
fn limits_of(service: &Service<'_>) -> ServiceLimits
    ensures { result ≡ limits_of service.now }
{
    ServiceLimits {
        connections: service.connections,
        history: service.history,
        renews: is_endless(service) && service.journal.is_some(),
    }
}

// Who observes a part of a service: its log, and its journal if there is a list for it.
fn observer_of<'a, F: Lasting, E: Write>(
    host: Host<'a>,
    service: &Service<'a>,
    list: Option<OpenedList<F>>,
    err: &'a mut E,
) -> LogAndJournal<'a, E, HostRuntime, JournalFile<SystemFile<'a, F>>>
    ensures journal { IsJournalOf (watch_of F.contents (is_some list) service.now) list
        result.journal }
    ensures fresh { failed_by result.journal ≡ false }
    ensures log { result.log.goes_on ≡ service.now.log }
{
    let journal = journal_of(service, host.explainer, list);
    LogAndJournal::new(log_of(host, service, err), journal)
}

// The log of a service, which is written where one is asked for.
fn log_of<'a, E: Write>(
    host: Host<'a>,
    service: &Service<'_>,
    err: &'a mut E,
) -> Log<'a, E, HostRuntime>
    ensures { result.goes_on ≡ service.now.log }
{
    Log::new(
        host.alloc,
        host.rt,
        Explainer::new(host.rt, service.log),
        err,
        service.log,
    )
}

// The journal of a service, in its file.
fn journal_of<'a, F: Lasting>(
    service: &Service<'a>,
    explainer: Explainer<'a>,
    list: Option<OpenedList<F>>,
) -> Option<Journal<JournalFile<SystemFile<'a, F>>>>
    ensures kept { is_some result ≡ is_some list }
    ensures synced { IfSome result (λ journal.
        journal.is_synced ≡ is_synced_by service.now.journal) }
    ensures of { IfSome result (λ journal.
        journal.keeps_questions ≡ keeps_questions_by service.now.journal) }
    ensures goes_on { IfSome result (GoesOn list) }
    ensures fresh { failed_by result ≡ false }
{
    let (path, is_synced, keeps_questions) = match service.journal {
        Some(journal) => (journal.list, journal.is_synced, journal.keeps_questions),
        None => ("", false, true),
    };
    match list {
        Some(list) => {
            let (file, end) = list.into_file(explainer, path);
            Some(Journal::new(JournalFile::new(file, end), is_synced, keeps_questions))
        }
        None => None,
    }
}

// How long a service waits for a connection.
fn waits_of(service: &Service<'_>) -> Waits
    ensures idle { as_nanos result.idle ≡ service.now.idle * 1_000_000 }
    ensures patience { as_nanos result.patience ≡ service.now.patience * 1_000_000_000 }
{
    Waits {
        idle: Duration::from_millis(u64::from(service.idle)),
        patience: Duration::from_secs(u64::from(service.patience)),
    }
}
