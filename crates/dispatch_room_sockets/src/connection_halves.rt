//! The two sides of a connection.
ghost use Rattle.std.specs.Prelude.{◌≡◌, ◌+◌, ◌*◌, IfSome, Some, false, min};
ghost use Rattle.std.specs.Duration.{as_nanos, max_nanos};
ghost use Rattle.std.specs.declared.time.Duration.{Duration};

use crate::monotonic_clocks::MonotonicClock;
use crate::socket_readers::SocketReader;
use crate::socket_writers::SocketWriter;
use crate::timeouts::Waits;
use std::io::{Read, Write};
use std::net::OpenStream;
use std::time::Duration;

/// The two sides of a connection on which nothing was said yet, where the system gives them. Its
/// turn begins now, by the clock. Once it is over, no more is read but of a message that had begun,
/// and that and the answers have their patience.
pub fn sides<'a, T: Read + Write + OpenStream + Drop, C: MonotonicClock>(
    stream: T,
    clock: &'a C,
    waits: Waits,
) -> Option<(SocketReader<'a, T, C>, SocketWriter<'a, T, C>)>
    ensures reader { IfSome result (λ sides. sides.0.failed ≡ false) }
    ensures paced { IfSome result (λ sides. (sides.0.pace.waits ≡ waits)
        × (sides.0.idle ≡ waits.idle)) }
    ensures patient { IfSome result (λ sides. sides.1.patience ≡ waits.patience) }
    ensures ends { IfSome result (λ sides. (now : Duration) × C.shows clock.now (Some now)
        × (as_nanos sides.0.pace.ends ≡ min (as_nanos now
        + min (min (as_nanos waits.idle + as_nanos waits.patience) max_nanos * 5) max_nanos)
        max_nanos)) }
    ensures last { IfSome result (λ sides. as_nanos sides.1.last ≡
        min (as_nanos sides.0.pace.ends + min (as_nanos waits.patience * 2) max_nanos) max_nanos) }
    ensures writer { IfSome result (λ sides. (sides.1.failed ≡ false) × (sides.1.stream ≡ stream)) }
{
    let ends = waits.turn_ends(clock.now()?);
    let last = ends.saturating_add(waits.patience.saturating_mul(2));
    let reader = SocketReader::new(stream.try_clone().ok()?, clock, waits, ends);
    let writer = SocketWriter::new(stream, clock, waits.patience, last);
    Some((reader, writer))
}
