//! Where bytes are written to.
ghost use Rattle.std.specs.Prelude.{◌≡◌, ◌≤◌, ℕ, List, Bool, ◌||◌, Option, IfOk, length, false};
ghost use Rattle.std.specs.Io.KnownBytes.{WriteAppends};
ghost use Rattle.room_http_messages.specs.Streams.{took_none, WritesAll};

/// A write failed, or took nothing.
#[derive(Clone, Copy, PartialEq, Eq)]
pub struct WriteFailed;

/// What can be written to.
pub trait Sink {
    // The bytes that it holds, where they are known.
    ghost held: { Self → Option (List ℕ) };

    // Whether a write failed, or took nothing of what there was.
    ghost has_failed: { Self → Bool };

    /// Writes some of the first bytes, and returns how many.
    fn write(&mut self, buf: &[u8]) -> Result<usize, WriteFailed>
        ensures bound { IfOk result (λ n. n ≤ length buf.now) }
        ensures bytes { WriteAppends (held self.old) (held self.new) result buf.now }
        ensures failed { has_failed self.new ≡
            (has_failed self.old || took_none result (length buf.now)) };
}

/// Writes all the bytes. A write that takes nothing is a failure: so there are at most as many
/// writes as bytes.
pub fn write_all<W: Sink>(writer: &mut W, bytes: &[u8]) -> Result<(), WriteFailed>
    requires { W.has_failed writer.old ≡ false }
    ensures { WritesAll W.held W.has_failed writer.old writer.new bytes.now result }
{
    let mut written = 0;
    'writes: while written < bytes.len() {
        match writer.write(&bytes[written..]) {
            Err(_) => return Err(WriteFailed),
            Ok(0) => return Err(WriteFailed),
            Ok(count) => written += count,
        }
    }
    Ok(())
}
