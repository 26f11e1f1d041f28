//! A read or a write of a socket, which a signal may interrupt: then it is tried again.
ghost use Rattle.std.specs.Prelude.{◌≤◌, IfOk, OnOk, length};
ghost use Rattle.std.specs.Io.KnownBytes.{ReadConsumes, WriteAppends};
ghost use Rattle.dispatch_room_sockets.specs.TimesLeft.{WaitsUntil};

use crate::monotonic_clocks::MonotonicClock;
use crate::timeouts::time_until;
use room_http_messages::sinks::WriteFailed;
use room_http_messages::sources::ReadFailed;
use std::io::{ErrorKind, Read, Write};
use std::net::OpenStream;
use std::time::Duration;

// How often it is tried at most: the moment comes long before.
const MOST_TRIES: u32 = u32::MAX;

/// Reads some bytes to the front of `buf`, and waits for them until a moment of the clock. How long
/// is set in the system where something else was set last.
pub(crate) fn read_until<T: Read + OpenStream, C: MonotonicClock>(
    stream: &mut T,
    clock: &C,
    last_wait: &mut Option<Duration>,
    moment: Duration,
    buf: &mut [u8],
) -> Result<usize, ReadFailed>
    ensures bound { IfOk result (λ n. n ≤ length buf.new) }
    ensures bytes { ReadConsumes (T.remaining stream.old) (T.remaining stream.new) result buf.new }
    ensures waits { OnOk result (WaitsUntil (C.shows clock.now) moment last_wait.new) }
{
    for _try in 0..MOST_TRIES {
        let Some(left) = time_until(clock, moment) else {
            return Err(ReadFailed);
        };
        let wait = Some(left);
        if *last_wait != wait {
            if stream.set_read_timeout(wait).is_err() {
                return Err(ReadFailed);
            }
            *last_wait = wait;
        }
        match stream.read(buf) {
            Ok(count) => return Ok(count),
            Err(error) if error.kind() == ErrorKind::Interrupted => {}
            Err(_) => return Err(ReadFailed),
        }
    }
    Err(ReadFailed)
}

/// Writes some of the first bytes, and waits until a moment of the clock for room for them. How
/// long is set in the system where something else was set last.
pub(crate) fn write_until<T: Write + OpenStream, C: MonotonicClock>(
    stream: &mut T,
    clock: &C,
    last_wait: &mut Option<Duration>,
    moment: Duration,
    buf: &[u8],
) -> Result<usize, WriteFailed>
    ensures bound { IfOk result (λ n. n ≤ length buf.now) }
    ensures bytes { WriteAppends (T.contents stream.old) (T.contents stream.new) result buf.now }
    ensures waits { OnOk result (WaitsUntil (C.shows clock.now) moment last_wait.new) }
{
    for _try in 0..MOST_TRIES {
        let Some(left) = time_until(clock, moment) else {
            return Err(WriteFailed);
        };
        let wait = Some(left);
        if *last_wait != wait {
            if stream.set_write_timeout(wait).is_err() {
                return Err(WriteFailed);
            }
            *last_wait = wait;
        }
        match stream.write(buf) {
            Ok(count) => return Ok(count),
            Err(error) if error.kind() == ErrorKind::Interrupted => {}
            Err(_) => return Err(WriteFailed),
        }
    }
    Err(WriteFailed)
}
