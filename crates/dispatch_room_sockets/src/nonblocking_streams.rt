//! The calls of the system on a connection whose reads and writes don't block.
ghost use Rattle.std.specs.Prelude.{◌≡◌, ◌≢◌, ◌≤◌, ℕ, List, IfErr, IfOk, IfSome, None, Option};
ghost use Rattle.std.specs.Prelude.{false, length, Result as Given};
ghost use Rattle.std.specs.IoError.{error_kind};
ghost use Rattle.std.specs.Io.KnownBytes.{ReadConsumes};
ghost use Rattle.dispatch_room_sockets.specs.declared.nonblocking_streams.NoBytes.{NoBytes as Lack};
ghost use Rattle.dispatch_room_sockets.specs.declared.nonblocking_streams.NoBytes.TheVariants as no;

use std::alloc::Global;
use std::io::{self, Error, ErrorKind, Read, Write};
use std::net::{OpenStream, Shutdown, TcpListener, TcpStream};
use std::os::fd::{AsRawFd, RawFd};
use std::rc::Rc;

/// Why a read gave no bytes.
#[derive(Clone, Copy)]
pub enum NoBytes {
    /// Nothing has come yet.
    Yet,
    /// The stream is lost.
    Ever,
}

/// A stream whose reads and writes don't block, and that several hold. What is read from one is
/// generic over it: so it is found silent, lost or at its end only where a read gave that.
pub trait NonblockingStream: Drop {
    // The bytes that reads will give from here on, where they are known.
    ghost left: { Self → Option (List ℕ) };

    // What a read may give, as far as that is known.
    ghost gives: { Self → Given ℕ Lack → Type 0 };

    // Another holds the same stream.
    ghost is_same: { Self → Self → Type 0 };

    // There may be no room for another who holds it, as far as that is known.
    ghost is_full: { Self → Type 0 };

    // Its writing side can't be shut, as far as that is known.
    ghost is_stuck: { Self → Type 0 };

    /// Reads what has come.
    fn receive(&mut self, buf: &mut [u8]) -> Result<usize, NoBytes>
        ensures bound { IfOk result (λ n. n ≤ length buf.new) }
        ensures bytes { ReadConsumes (left self.old) (left self.new) result buf.new }
        ensures given { gives self.new result };

    /// Writes what there is room for.
    fn send(&self, buf: &[u8]) -> io::Result<usize>
        ensures { IfOk result (λ n. n ≤ length buf.now) };

    /// Another who holds it.
    fn share(&self) -> Option<Self>
        ensures same { IfSome result (λ other. is_same other self.now) }
        ensures none { result ≡ None → is_full self.now };

    /// Shuts the writing side, and returns whether that succeeded.
    fn shut(&self) -> bool
        ensures { result ≡ false → is_stuck self.now };
}

/// A listener whose accepts don't block.
pub trait NonblockingListener: AsRawFd + Drop {
    /// A connection of one who called.
    type Stream: NonblockingStream + AsRawFd;

    // It may give nobody though somebody calls, as far as that is known.
    ghost is_deaf: { Self → Type 0 };

    /// The next who calls.
    fn take(&self, alloc: Global) -> io::Result<Self::Stream>
        ensures { IfErr result (λ _. is_deaf self.now) };

    /// The descriptor that the system would give next: none where it has none.
    fn next_descriptor(&self) -> Option<RawFd>;
}

// What a read gave that failed.
fn no_bytes(error: &Error) -> NoBytes
    ensures silent { error_kind error.now ≡ ErrorKind.WouldBlock → result ≡ no.Yet }
    ensures again { error_kind error.now ≡ ErrorKind.Interrupted → result ≡ no.Yet }
    ensures lost { error_kind error.now ≢ ErrorKind.WouldBlock
        → error_kind error.now ≢ ErrorKind.Interrupted → result ≡ no.Ever }
{
    let kind = error.kind();
    if kind == ErrorKind::WouldBlock || kind == ErrorKind::Interrupted {
        NoBytes::Yet
    } else {
        NoBytes::Ever
    }
}

// What is said on a socket no contract can say.
impl NonblockingStream for Rc<TcpStream> {
    ghost use Rattle.std.specs.Prelude.{⊤};

    ghost left = { λ _. None };

    ghost gives = { λ _ _. ⊤ };

    ghost is_same = { λ one other. one.value ≡ other.value };

    ghost is_full = { λ _. ⊤ };

    ghost is_stuck = { λ _. ⊤ };

    fn receive(&mut self, buf: &mut [u8]) -> Result<usize, NoBytes> {
        let mut stream = self.as_ref();
        match stream.read(buf) {
            Ok(count) => Ok(count),
            Err(error) => Err(no_bytes(&error)),
        }
    }

    fn send(&self, buf: &[u8]) -> io::Result<usize> {
        let mut stream = self.as_ref();
        stream.write(buf)
    }

    fn share(&self) -> Option<Rc<TcpStream>> {
        self.clone().ok()
    }

    fn shut(&self) -> bool {
        self.as_ref().shutdown(Shutdown::Write).is_ok()
    }
}

impl NonblockingListener for TcpListener {
    ghost use Rattle.std.specs.Prelude.{⊤};

    type Stream = Rc<TcpStream>;

    ghost is_deaf = { λ _. ⊤ };

    fn take(&self, alloc: Global) -> io::Result<Rc<TcpStream>> {
        let (stream, _) = self.accept()?;
        stream.set_nonblocking(true)?;
        match Rc::new(alloc, stream) {
            Ok(stream) => Ok(stream),
            Err(_) => Err(Error::from(ErrorKind::OutOfMemory)),
        }
    }

    fn next_descriptor(&self) -> Option<RawFd> {
        match self.try_clone() {
            Ok(listener) => Some(listener.as_raw_fd()),
            Err(_) => None,
        }
    }
}
