//! The callers of a room: a source of connections, one after another.
ghost use Rattle.std.specs.Prelude.{◌≡◌, ℕ, List, [], ◌∷◌, Option, IfErr, IfSome, false};
ghost use Rattle.std.specs.Prelude.{option_map};
ghost use Rattle.dispatch_room_exit.specs.declared.exit_status.Failure.TheVariants.{Network};
ghost use Rattle.room_http_messages.specs.Streams.{Grows};
ghost use Rattle.dispatch_room_serving.specs.Callers.{Opening, Printing, Prints};

use dispatch_room_exit::exit_status::Failure;
use room_http_messages::sinks::Sink;
use room_http_messages::sources::Source;

/// What gives the connections of a room, one after another, and takes each back.
pub trait Callers {
    /// What is read from.
    type Reader: Source;

    /// What is written to.
    type Writer: Sink;

    // The calls that came so far, where they are known: what each began with, or none where no
    // connection came of it.
    ghost heard: { Self → Option (List (Option Opening)) };

    // What each writer held that was taken back, where that is known.
    ghost written: { Self → Option (List (Option (List ℕ))) };

    // What they have printed: only that they may call.
    ghost prints: { Self → Printing };

    /// Begins to take calls. It fails only as `Network`.
    fn begin(&mut self) -> Result<(), Failure>
        ensures heard { heard self.new ≡ heard self.old }
        ensures written { written self.new ≡ written self.old }
        ensures prints { Prints (prints self.old) (prints self.new) result }
        ensures fault { IfErr result (λ fault. fault ≡ Network) };

    /// The next connection: `None` if it failed.
    fn next(&mut self) -> Option<(Self::Reader, Self::Writer)>
        ensures heard { Grows (heard self.old) (heard self.new) (option_map (λ sides. record {
          left = Self.Reader.left sides.0;
          held = Self.Writer.held sides.1;
        }) result ∷ []) }
        ensures written { written self.new ≡ written self.old }
        ensures prints { prints self.new ≡ prints self.old }
        ensures reader { IfSome result (λ sides. Self.Reader.has_failed sides.0 ≡ false) }
        ensures writer { IfSome result (λ sides. Self.Writer.has_failed sides.1 ≡ false) };

    /// Takes back a connection that was served.
    fn done(&mut self, reader: Self::Reader, writer: Self::Writer)
        ensures heard { heard self.new ≡ heard self.old }
        ensures written { Grows (written self.old) (written self.new)
            (Self.Writer.held writer ∷ []) }
        ensures prints { prints self.new ≡ prints self.old };
}
