//! An acceptor at which nobody waits for a silent caller: each connection is served in pieces, and
//! between two pieces it waits among the others.
ghost use Rattle.std.specs.Prelude.{◌≡◌, ◌||◌, if◌then◌else◌, IfErr, IfOk, IfSome, None, OnErr};
ghost use Rattle.std.specs.Prelude.{OnOk, false, is_some, not, option_map, true};
ghost use Rattle.dispatch_room_exit.specs.declared.exit_status.Failure.TheVariants.{Network};
ghost use Rattle.dispatch_room_sockets.specs.PieceTurns.{GivesPiece, HearsPiece, TakesBack};

use crate::hosts::Host;
use crate::listeners::{Listener, bound};
use crate::opened_names::OpenedNames;
use dispatch_room_exit::exit_status::Failure;
use dispatch_room_sockets::acceptors::{Acceptor, Client};
use dispatch_room_sockets::entrances::Entrance;
use dispatch_room_sockets::lingering_close::Closing;
use dispatch_room_sockets::monotonic_clocks::MonotonicClock;
use dispatch_room_sockets::nonblocking_streams::NonblockingListener;
use dispatch_room_sockets::pieces::{PieceReader, PieceWriter, next_piece, take_back};
use dispatch_room_sockets::waiting_callers::Waiting;
use std::net::{SocketAddr, TcpListener};
use std::time::Duration;

/// What acceptors are opened in: its clock times them, and callers are accepted from its listeners.
/// What is accepted is generic over it: so nobody is given only where it gave nobody.
pub trait AcceptorSystem: MonotonicClock {
    /// What listens.
    type Listener: NonblockingListener;

    /// The acceptor of an address. It fails only as `Network`, and explains why.
    fn open<'a>(
        &'a self,
        host: Host<'_>,
        address: SocketAddr,
    ) -> Result<Acceptor<'a, Self, Self::Listener>, Failure>
        ensures { IfErr result (λ fault. fault ≡ Network) };
}

impl AcceptorSystem for HostRuntime {
    type Listener = TcpListener;

    fn open<'a>(
        &'a self,
        host: Host<'_>,
        address: SocketAddr,
    ) -> Result<Acceptor<'a, HostRuntime, TcpListener>, Failure> {
        let listener = bound(self, host.explainer, address)?;
        match Acceptor::new(self, host.alloc, listener) {
            Ok(acceptor) => Ok(acceptor),
            Err(error) => {
                host.explainer.explain(format_args!("{address}: {error}"));
                Err(Failure::Network)
            }
        }
    }
}

/// An acceptor at an address of TCP, in a system with its listener and its streams.
#[derive(Drop)]
pub struct TcpAcceptor<'a, S, L, T> {
    system: &'a S,
    host: Host<'a>,
    address: SocketAddr,
    // The file of the room that is served here, and what lay at its names as this began to listen.
    file: &'a str,
    names: OpenedNames,
    // How long a connection may be silent.
    keep: Duration,
    // How long a request may take to come, and its answer to be taken.
    patience: Duration,
    waiting: Option<Waiting<Acceptor<'a, S, L>, Client<T>>>,
}

// The stream of a system's callers, and the sides of a piece of it.
type Stream<S> = <<S as AcceptorSystem>::Listener as NonblockingListener>::Stream;

type Reader<'a, S> = PieceReader<'a, S, Stream<S>>;

type Writer<'a, S> = PieceWriter<'a, S, Stream<S>>;

/// The acceptor of a system.
pub type SystemAcceptor<'a, S> = TcpAcceptor<'a, S, <S as AcceptorSystem>::Listener, Stream<S>>;

impl<'a, S: AcceptorSystem> TcpAcceptor<'a, S, S::Listener, Stream<S>> {
    /// An acceptor at which nobody waits yet, for the room of a file. A connection may be silent
    /// for `keep`, and a request and its answer may each take `patience`. It explains why if it
    /// can't be listened at, and later, if the file is no longer at its name.
    pub fn new(
        system: &'a S,
        host: Host<'a>,
        file: &'a str,
        address: SocketAddr,
        keep: Duration,
        patience: Duration,
    ) -> SystemAcceptor<'a, S>
        ensures times { (result.address ≡ address) × (result.keep ≡ keep)
            × (result.patience ≡ patience) }
        ensures deaf { is_some result.waiting ≡ false }
    {
        TcpAcceptor {
            system,
            host,
            address,
            file,
            names: OpenedNames::none(),
            keep,
            patience,
            waiting: None,
        }
    }

    // Those who wait at the acceptor: nobody yet. It fails only as `Network`.
    fn opened(&self) -> Result<Waiting<Acceptor<'a, S, S::Listener>, Client<Stream<S>>>, Failure>
        ensures times { IfOk result (λ waiting. (waiting.keep ≡ self.now.keep)
            × (waiting.patience ≡ self.now.patience)) }
        ensures fault { IfErr result (λ fault. fault ≡ Network) }
    {
        let acceptor = self.system.open(self.host, self.address)?;
        match Waiting::new(self.host.alloc, acceptor, self.keep, self.patience) {
            Ok(waiting) => Ok(waiting),
            Err(_) => Err(Failure::Network),
        }
    }
}

/// The peer of a piece that was served. It isn't parted from here, but among the others.
#[derive(Drop)]
pub struct PiecePeer<R, W> {
    reader: R,
    writer: W,
}

// No contract can say what was done with a socket.
impl<R, W> Closing for PiecePeer<R, W> {
    ghost left = { λ _. None };

    ghost done = { λ _. None };

    ghost is_open = { λ _. false };

    ghost answered = { λ _. None };

    fn is_open(&self) -> bool {
        false
    }

    fn answered(&self) -> Option<Duration> {
        None
    }

    fn shut(&mut self) -> bool {
        false
    }

    fn throw_away(&mut self, _moment: Duration) -> bool {
        false
    }
}

// No contract can say what is said on a socket.
impl<'a, S: AcceptorSystem> Listener for TcpAcceptor<'a, S, S::Listener, Stream<S>> {
    type Reader = Reader<'a, S>;

    type Writer = Writer<'a, S>;

    type Peer = PiecePeer<Reader<'a, S>, Writer<'a, S>>;

    ghost heard = { λ _. None };

    ghost written = { λ _. None };

    ghost is_listening = { λ it. is_some it.waiting };

    ghost parted = { λ _. None };

    ghost peer_of = { λ reader writer. record { reader = reader; writer = writer } };

    // Beside what every listener ensures: those who wait at the acceptor have its times.
    fn listen(&mut self) -> Result<(), Failure>
        ensures listens { OnOk result (is_some self.new.waiting ≡ true) }
        ensures times { OnOk result (IfSome self.new.waiting (λ waiting.
            (waiting.keep ≡ self.old.keep) × (waiting.patience ≡ self.old.patience))) }
        ensures deaf { OnErr result (is_some self.new.waiting ≡ is_some self.old.waiting) }
        ensures fault { IfErr result (λ fault. fault ≡ Network) }
    {
        match self.opened() {
            Ok(waiting) => {
                self.waiting = Some(waiting);
                self.names = OpenedNames::of(self.host.rt, self.host.alloc, self.file);
                Ok(())
            }
            Err(fault) => Err(fault),
        }
    }

    fn is_listening(&self) -> bool {
        self.waiting.is_some()
    }

    // Beside what every listener ensures: an answer has the patience of the acceptor and goes to
    // the sender of the request, and nobody who waits or is to be served is lost.
    fn accept(&mut self) -> Option<(Self::Reader, Self::Writer)>
        ensures listens { is_some self.new.waiting ≡ is_some self.old.waiting }
        ensures reader { IfSome result (λ sides. sides.0.failed ≡ false) }
        ensures writer { IfSome result (λ sides. sides.1.failed ≡ false) }
        ensures patient { IfSome result (λ sides. sides.1.patience ≡ self.old.patience) }
        ensures same_stream { IfSome result (λ sides.
            S.Listener.Stream.is_same sides.1.stream.stream sides.0.kept.caller.stream) }
        ensures given { IfSome self.old.waiting (λ old. IfSome self.new.waiting (λ new.
            GivesPiece (S.shows self.old.system.now) S.Listener.Stream.is_full old.line.items
            new.line.items old.ready.items new.ready.items old.next new.next
            (option_map (λ sides. sides.0.kept) result))) }
        ensures hears { IfSome self.old.waiting (λ old. IfSome self.new.waiting (λ new.
            HearsPiece ⟦<Acceptor<'a, S, S::Listener> as Entrance>⟧ old new
            (option_map (λ sides. sides.0.kept) result))) }
        ensures times { IfSome self.old.waiting (λ old. IfSome self.new.waiting (λ new.
            (new.keep ≡ old.keep) × (new.patience ≡ old.patience))) }
    {
        self.names.look(self.host.rt, self.host.explainer);
        next_piece(self.system, self.waiting.as_mut()?, self.patience)
    }

    fn peer(&mut self, reader: Self::Reader, writer: Self::Writer) -> Self::Peer {
        PiecePeer { reader, writer }
    }

    // Beside what every listener ensures: the caller that was served waits again or is parted from,
    // and all others stay.
    fn release(&mut self, peer: Self::Peer)
        ensures listens { is_some self.new.waiting ≡ is_some self.old.waiting }
        ensures taken { IfSome self.old.waiting (λ old. IfSome self.new.waiting (λ new.
            TakesBack (S.shows old.entrance.clock.now) S.Listener.Stream.is_stuck old.keep
            peer.entry.reader.kept peer.entry.reader.is_paused
            (not (peer.entry.reader.failed || peer.entry.reader.ended))
            (if peer.entry.writer.failed then None else peer.entry.writer.until) old.line.items
            new.line.items old.ready.items old.next old.closing_connections.items
            new.closing_connections.items)) }
        ensures same { IfSome self.old.waiting (λ old. IfSome self.new.waiting (λ new.
            (new.ready.items ≡ old.ready.items) × (new.next ≡ old.next)
            × (new.keep ≡ old.keep) × (new.patience ≡ old.patience))) }
    {
        if let Some(waiting) = &mut self.waiting {
            take_back(waiting, peer.reader, peer.writer);
        }
    }
}
