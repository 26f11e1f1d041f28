//! What listens at an address: it gives the connections of those who call, and lets their peers go.
ghost use Rattle.std.specs.Prelude.{◌≡◌, ℕ, List, [], ◌∷◌, Bool, None, Option, IfErr, IfSome, ◌↔◌};
ghost use Rattle.std.specs.Prelude.{◌⊎◌, IsTrue, OnErr, OnOk, false, is_some, option_map, true};
ghost use Rattle.std.specs.Net.Socket.{socket_ip, socket_port};
ghost use Rattle.dispatch_room_exit.specs.declared.exit_status.Failure.TheVariants.{Network};
ghost use Rattle.room_http_messages.specs.Streams.{Grows};
ghost use Rattle.dispatch_room_serving.specs.Callers.{Opening};
ghost use Rattle.dispatch_room_sockets.specs.LingeringClose.{Step};

use dispatch_room_exit::exit_status::Failure;
use dispatch_room_exit::failure_causes::Explainer;
use dispatch_room_sockets::acceptors::PAUSE;
use dispatch_room_sockets::connection_halves::sides;
use dispatch_room_sockets::lingering_close::{Closing, Peer};
use dispatch_room_sockets::socket_readers::SocketReader;
use dispatch_room_sockets::socket_writers::SocketWriter;
use dispatch_room_sockets::timeouts::Waits;
use room_http_messages::sinks::Sink;
use room_http_messages::sources::Source;
use std::io::{Error, ErrorKind};
use std::net::{SocketAddr, TcpListener, TcpStream};
use std::thread;
use std::time::Duration;

/// What listens for connections: it gives the two sides of each, makes its peer of them once it was
/// served, and releases the peer once the room parted from it.
pub trait Listener: Drop {
    /// What is read from.
    type Reader: Source;

    /// What is written to.
    type Writer: Sink;

    /// The peer of a connection, from which the room parts.
    type Peer: Closing;

    // The calls that came so far, where they are known: what each began with, or none where no
    // connection came of it.
    ghost heard: { Self → Option (List (Option Opening)) };

    // What each writer held that was taken back, where that is known.
    ghost written: { Self → Option (List (Option (List ℕ))) };

    // Whether it listens.
    ghost is_listening: { Self → Bool };

    // What was done to part from each peer that was released, where that is known.
    ghost parted: { Self → Option (List (Option (List Step))) };

    // The peer of two sides.
    ghost peer_of: { Self.Reader → Self.Writer → Self.Peer };

    /// Begins to listen. It fails only as `Network`.
    fn listen(&mut self) -> Result<(), Failure>
        ensures listens { OnOk result (is_listening self.new ≡ true) }
        ensures deaf { OnErr result (is_listening self.new ≡ is_listening self.old) }
        ensures heard { heard self.new ≡ heard self.old }
        ensures written { written self.new ≡ written self.old }
        ensures fault { IfErr result (λ fault. fault ≡ Network) };

    /// Whether it listens.
    fn is_listening(&self) -> bool
        ensures { result ≡ is_listening self.now };

    /// The sides of the next connection: `None` if it failed.
    fn accept(&mut self) -> Option<(Self::Reader, Self::Writer)>
        ensures heard { Grows (heard self.old) (heard self.new) (option_map (λ sides. record {
          left = Self.Reader.left sides.0;
          held = Self.Writer.held sides.1;
        }) result ∷ []) }
        ensures written { written self.new ≡ written self.old }
        ensures listens { is_listening self.new ≡ is_listening self.old }
        ensures reader { IfSome result (λ sides. Self.Reader.has_failed sides.0 ≡ false) }
        ensures writer { IfSome result (λ sides. Self.Writer.has_failed sides.1 ≡ false) };

    /// Takes back the sides of a connection that was served, as its peer.
    fn peer(&mut self, reader: Self::Reader, writer: Self::Writer) -> Self::Peer
        ensures heard { heard self.new ≡ heard self.old }
        ensures written { Grows (written self.old) (written self.new)
            (Self.Writer.held writer ∷ []) }
        ensures parted { parted self.new ≡ parted self.old }
        ensures listens { is_listening self.new ≡ is_listening self.old }
        ensures peer { result ≡ peer_of reader writer };

    /// Releases a peer from which the room parted.
    fn release(&mut self, peer: Self::Peer)
        ensures heard { heard self.new ≡ heard self.old }
        ensures written { written self.new ≡ written self.old }
        ensures listens { is_listening self.new ≡ is_listening self.old }
        ensures parted { Grows (parted self.old) (parted self.new) (Self.Peer.done peer ∷ []) };
}

/// An address of TCP at which a room listens.
#[derive(Drop)]
pub struct TcpAddress<'a> {
    rt: &'a HostRuntime,
    explainer: Explainer<'a>,
    address: SocketAddr,
    waits: Waits,
    listener: Option<TcpListener>,
}

impl<'a> TcpAddress<'a> {
    /// An address at which nobody listens yet, and how long its connections are waited for. It
    /// explains why if it can't be listened at.
    pub fn new(
        rt: &'a HostRuntime,
        explainer: Explainer<'a>,
        address: SocketAddr,
        waits: Waits,
    ) -> TcpAddress<'a>
        ensures times { (result.address ≡ address) × (result.waits ≡ waits) }
        ensures deaf { is_some result.listener ≡ false }
    {
        TcpAddress {
            rt,
            explainer,
            address,
            waits,
            listener: None,
        }
    }
}

// No contract can say what is said on a socket.
impl<'a> Listener for TcpAddress<'a> {
    type Reader = SocketReader<'a, TcpStream, HostRuntime>;

    type Writer = SocketWriter<'a, TcpStream, HostRuntime>;

    type Peer = Peer<'a, TcpStream, HostRuntime>;

    ghost heard = { λ _. None };

    ghost written = { λ _. None };

    ghost is_listening = { λ it. is_some it.listener };

    ghost parted = { λ _. None };

    ghost peer_of = { λ reader writer. record { reader = reader; writer = writer } };

    fn listen(&mut self) -> Result<(), Failure> {
        match bound(self.rt, self.explainer, self.address) {
            Ok(listener) => {
                self.listener = Some(listener);
                Ok(())
            }
            Err(fault) => Err(fault),
        }
    }

    fn is_listening(&self) -> bool {
        self.listener.is_some()
    }

    // Beside what every listener ensures: the sides have the waits of the address.
    fn accept(&mut self) -> Option<(Self::Reader, Self::Writer)>
        ensures listens { is_some self.new.listener ≡ is_some self.old.listener }
        ensures reader { IfSome result (λ sides. sides.0.failed ≡ false) }
        ensures writer { IfSome result (λ sides. sides.1.failed ≡ false) }
        ensures paced { IfSome result (λ sides. (sides.0.pace.waits ≡ self.old.waits)
            × (sides.0.idle ≡ self.old.waits.idle)) }
        ensures patient { IfSome result (λ sides. sides.1.patience ≡ self.old.waits.patience) }
    {
        match self.listener.as_ref()?.accept() {
            Ok((stream, _)) => sides(stream, self.rt, self.waits),
            Err(error) => {
                pause_after(self.rt, &error);
                None
            }
        }
    }

    fn peer(&mut self, reader: Self::Reader, writer: Self::Writer) -> Self::Peer {
        Peer::new(reader, writer)
    }

    fn release(&mut self, peer: Self::Peer) {
        drop(peer);
    }
}

/// Begins to listen at an address of TCP. It fails only as `Network`, and explains why.
pub(crate) fn bound(
    rt: &HostRuntime,
    explainer: Explainer<'_>,
    address: SocketAddr,
) -> Result<TcpListener, Failure>
    ensures { IfErr result (λ fault. fault ≡ Network) }
{
    match listener_at(rt, address) {
        Ok(listener) => Ok(listener),
        Err(error) => {
            explainer.explain(format_args!("{address}: {error}"));
            Err(Failure::Network)
        }
    }
}

// What listens at an address, if the system says that it does so there. A room is served without
// encryption, so it must not be served at an address that other machines reach.
fn listener_at(rt: &HostRuntime, address: SocketAddr) -> Result<TcpListener, Error> {
    let listener = TcpListener::bind(rt, address)?;
    if is_at(address, listener.local_addr()?) {
        Ok(listener)
    } else {
        Err(Error::from(ErrorKind::AddrNotAvailable))
    }
}

// Whether what listens at one address was asked to listen there. For port 0 the system chooses one.
fn is_at(asked: SocketAddr, bound: SocketAddr) -> bool
    ensures { IsTrue result ↔ ((socket_ip asked ≡ socket_ip bound)
        × ((socket_port asked ≡ 0) ⊎ (socket_port asked ≡ socket_port bound))) }
{
    asked.ip() == bound.ip() && (asked.port() == 0 || asked.port() == bound.port())
}

// Pauses after a connection that failed, unless its peer aborted it.
fn pause_after(rt: &HostRuntime, error: &Error) {
    if error.kind() != ErrorKind::ConnectionAborted {
        thread::sleep(rt, Duration::from_millis(PAUSE));
    }
}
