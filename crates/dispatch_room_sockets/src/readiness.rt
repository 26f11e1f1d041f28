//! Whether something can be read from a socket, by the system.
ghost use Rattle.std.specs.Prelude.{◌≡◌, ◌/◌, min, pos};
ghost use Rattle.std.specs.Duration.{as_nanos};

use libc::net::{POLLIN, POLLOUT, poll};
use libc::types::pollfd;
use std::os::fd::RawFd;
use std::time::Duration;

// What the system is asked of a descriptor.
fn asked(fd: RawFd, events: i16) -> pollfd {
    pollfd {
        fd,
        events,
        revents: 0,
    }
}

// So many milliseconds, as the system counts them: fewer than none would have no end.
fn in_millis(wait: Duration) -> i32
    ensures { result ≡ pos (min (as_nanos wait / 1_000_000) 2_147_483_647) }
{
    match i32::try_from(wait.as_millis()) {
        Ok(millis) => millis,
        Err(_) => i32::MAX,
    }
}

/// Whether something can be read now, or one be accepted.
pub(crate) fn is_readable(fd: RawFd) -> bool {
    poll(&mut [asked(fd, POLLIN)], 0) > 0
}

/// Whether a socket has room for what is written to it, or may have, before a wait is over.
pub(crate) fn has_room_before(stream: RawFd, wait: Option<Duration>) -> bool {
    let mut sockets = [asked(stream, POLLOUT)];
    let millis = match wait {
        Some(wait) => in_millis(wait),
        None => 0,
    };
    poll(&mut sockets, millis) != 0
}

/// Waits until a socket has bytes, its end or a failure to read, or until something else moves, at
/// most this long. Returns whether the first is so, and whether the second.
pub(crate) fn readable_before(stream: RawFd, elsewhere: RawFd, most: Duration) -> (bool, bool) {
    let mut sockets = [asked(stream, POLLIN), asked(elsewhere, POLLIN)];
    if poll(&mut sockets, in_millis(most)) > 0 {
        (sockets[0].revents != 0, sockets[1].revents != 0)
    } else {
        (false, false)
    }
}
