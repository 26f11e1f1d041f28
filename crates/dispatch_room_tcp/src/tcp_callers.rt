//! The callers of a listener.
ghost use Rattle.std.specs.Io.KnownBytes.{Appends};
ghost use Rattle.std.specs.Prelude.{◌≡◌, ◌⊎◌, ◌∷◌, [], IfErr, IfSome, IsOk, MatchBool, OnErr, OnOk};
ghost use Rattle.std.specs.Prelude.{codes, false, option_map, true};
ghost use Rattle.dispatch_room_exit.specs.declared.exit_status.Failure.TheVariants.{Network};
ghost use Rattle.room_http_messages.specs.Streams.{Grows};
ghost use Rattle.dispatch_room_serving.specs.Callers.{Prints, printing};
ghost use Rattle.dispatch_room_tcp.specs.Listeners.{PartsFrom};

use crate::listeners::Listener;
use dispatch_room_exit::exit_status::Failure;
use dispatch_room_serving::callers::Callers;
use dispatch_room_sockets::lingering_close::part;
use std::io::Write;

/// The callers of a listener. Once they may call, `serving` is printed, and each connection is
/// closed so that its last answer arrives.
#[derive(Drop)]
pub struct TcpCallers<'a, L, O> {
    listener: L,
    out: &'a mut O,
}

impl<'a, L: Listener, O: Write> TcpCallers<'a, L, O> {
    /// The callers of this listener.
    pub fn new(listener: L, out: &'a mut O) -> TcpCallers<'a, L, O>
        ensures listener { result.listener ≡ listener }
        ensures out { result.out.now ≡ out.old }
        ensures same_reference { result.out.ghost_name ≡ out.entry.ghost_name }
    {
        TcpCallers { listener, out }
    }

    /// Their listener.
    pub fn into_listener(self) -> L
        ensures listener { result ≡ self.entry.listener }
        ensures out { self.exit.1.0.now ≡ self.entry.out.now }
    {
        self.listener
    }
}

impl<'a, L: Listener, O: Write> Callers for TcpCallers<'a, L, O> {
    type Reader = L::Reader;

    type Writer = L::Writer;

    ghost heard = { λ callers. L.heard callers.listener };

    ghost written = { λ callers. L.written callers.listener };

    ghost prints = { λ callers. printing (L.is_listening callers.listener)
        (O.contents callers.out.now) callers.out.ghost_name };

    // Beside what all callers ensure: the listener listens, and if it did not before, `serving` is
    // printed.
    fn begin(&mut self) -> Result<(), Failure>
        ensures heard { L.heard self.new.listener ≡ L.heard self.old.listener }
        ensures written { L.written self.new.listener ≡ L.written self.old.listener }
        ensures prints { Prints
            (printing (L.is_listening self.old.listener) (O.contents self.old.out.now)
            self.old.out.ghost_name)
            (printing (L.is_listening self.new.listener) (O.contents self.new.out.now)
            self.new.out.ghost_name)
            result }
        ensures fault { IfErr result (λ fault. fault ≡ Network) }
        ensures listens { OnOk result (L.is_listening self.new.listener ≡ true) }
        ensures said { OnOk result (MatchBool (L.is_listening self.old.listener)
            (self.new.out.now ≡ self.old.out.now)
            (Appends (O.contents self.old.out.now) (O.contents self.new.out.now)
            (codes "serving\n"))) }
        ensures goes_on { L.is_listening self.old.listener ≡ true → IsOk result }
        ensures unsaid { OnErr result ((L.is_listening self.new.listener ≡ true)
            ⊎ (self.new.out.now ≡ self.old.out.now)) }
    {
        if self.listener.is_listening() {
            return Ok(());
        }
        if let Err(fault) = self.listener.listen() {
            return Err(fault);
        }
        print_serving(self.out)
    }

    // Beside what all callers ensure: nothing is printed.
    fn next(&mut self) -> Option<(L::Reader, L::Writer)>
        ensures heard { Grows (L.heard self.old.listener) (L.heard self.new.listener)
            (option_map (λ sides. record {
              left = L.Reader.left sides.0;
              held = L.Writer.held sides.1;
            }) result ∷ []) }
        ensures written { L.written self.new.listener ≡ L.written self.old.listener }
        ensures prints { printing (L.is_listening self.new.listener) (O.contents self.new.out.now)
            self.new.out.ghost_name
            ≡ printing (L.is_listening self.old.listener) (O.contents self.old.out.now)
            self.old.out.ghost_name }
        ensures reader { IfSome result (λ sides. L.Reader.has_failed sides.0 ≡ false) }
        ensures writer { IfSome result (λ sides. L.Writer.has_failed sides.1 ≡ false) }
        ensures unsaid { self.new.out.now ≡ self.old.out.now }
    {
        self.listener.accept()
    }

    // Beside what all callers ensure: the peer was parted from, and then released, and nothing is
    // printed.
    #[tactic(auto, using(crate::proofs::ListeningLemmas::parts_from))]
    fn done(&mut self, reader: L::Reader, writer: L::Writer)
        ensures heard { L.heard self.new.listener ≡ L.heard self.old.listener }
        ensures written { Grows (L.written self.old.listener) (L.written self.new.listener)
            (L.Writer.held writer ∷ []) }
        ensures prints { printing (L.is_listening self.new.listener) (O.contents self.new.out.now)
            self.new.out.ghost_name
            ≡ printing (L.is_listening self.old.listener) (O.contents self.old.out.now)
            self.old.out.ghost_name }
        ensures parted { PartsFrom L.Peer.done L.Peer.is_open L.Peer.answered
            (L.peer_of reader writer) (L.parted self.old.listener)
            (L.parted self.new.listener) }
        ensures unsaid { self.new.out.now ≡ self.old.out.now }
    {
        let mut peer = self.listener.peer(reader, writer);
        part(&mut peer);
        self.listener.release(peer);
    }
}

// Prints that a room is served, and flushes the output.
fn print_serving<O: Write>(out: &mut O) -> Result<(), Failure>
    ensures said { OnOk result (Appends (O.contents out.old) (O.contents out.new)
        (codes "serving\n")) }
    ensures fault { IfErr result (λ fault. fault ≡ Network) }
{
    match writeln!(out, "serving") {
        Ok(()) => match out.flush() {
            Ok(()) => Ok(()),
            Err(_) => Err(Failure::Network),
        },
        Err(_) => Err(Failure::Network),
    }
}
