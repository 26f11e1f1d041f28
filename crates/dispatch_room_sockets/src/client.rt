//! A room is called at its address.
ghost use Rattle.std.specs.Prelude.{◌≡◌, ◌+◌, IfSome, Some, false, min};
ghost use Rattle.std.specs.Duration.{as_nanos, max_nanos};
ghost use Rattle.std.specs.declared.time.Duration.{Duration};

use crate::monotonic_clocks::MonotonicClock;
use crate::socket_readers::SocketReader;
use crate::socket_writers::SocketWriter;
use crate::timeouts::Waits;
use dispatch_room_exit::failure_causes::Explainer;
use std::io::{self, Error, ErrorKind};
use std::net::{OpenStream, TcpStream, ToSocketAddrs};
use std::time::Duration;

/// The two sides of a connection to an address; none, with an explanation, where it is not made
/// within `patience`. All writes, and all reads with the room of a whole inbox, end together within
/// the same time, which a reader and a writer grant elsewhere to each message and answer.
pub fn call<'a, C: MonotonicClock>(
    rt: &HostRuntime,
    clock: &'a C,
    explainer: Explainer<'_>,
    address: &str,
    patience: Duration,
) -> Option<
    (
        SocketReader<'a, TcpStream, C>,
        SocketWriter<'a, TcpStream, C>,
    ),
>
    ensures sound { IfSome result (λ sides. (sides.0.failed ≡ false)
        × (sides.1.failed ≡ false)) }
    ensures paced { IfSome result (λ sides. (sides.0.idle ≡ patience)
        × (sides.0.pace.waits ≡ record { idle = patience; patience = patience })) }
    ensures patient { IfSome result (λ sides. sides.1.patience ≡ patience) }
    ensures ends { IfSome result (λ sides. (sides.0.pace.ends ≡ sides.1.last)
        × (now : Duration) × C.shows clock.now (Some now)
        × (as_nanos sides.1.last ≡ min (as_nanos now + as_nanos patience) max_nanos)) }
{
    let ends = clock.now()?.saturating_add(patience);
    let stream = match connected(rt, clock, address, ends) {
        Ok(stream) => stream,
        Err(error) => {
            explainer.explain(format_args!("{address}: {error}"));
            return None;
        }
    };
    let waits = Waits {
        idle: patience,
        patience,
    };
    let reader = SocketReader::new(stream.try_clone().ok()?, clock, waits, ends);
    let writer = SocketWriter::new(stream, clock, patience, ends);
    Some((reader, writer))
}

// A connection to an address, where it is there before a moment. Of several addresses of a name the
// last one's error is returned.
fn connected<C: MonotonicClock>(
    rt: &HostRuntime,
    clock: &C,
    address: &str,
    ends: Duration,
) -> io::Result<TcpStream> {
    let mut last = Error::new(ErrorKind::NotFound, "no address of this name");
    for at in address.to_socket_addrs(rt)? {
        let Some(now) = clock.now() else {
            break;
        };
        let left = ends.saturating_sub(now);
        match TcpStream::connect_timeout(rt, &at, left) {
            Ok(stream) => return Ok(stream),
            Err(error) => last = error,
        }
    }
    Err(last)
}
