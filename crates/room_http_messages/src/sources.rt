//! Where bytes are read from.
ghost use Rattle.std.specs.Prelude.{◌≡◌, ◌≤◌, ℕ, List, Bool, ◌||◌, Option, IfOk, length, is_err};
ghost use Rattle.std.specs.Io.KnownBytes.{ReadConsumes};
ghost use Rattle.room_http_messages.specs.Streams.{found_end, CountsBy};

/// A read failed.
#[derive(Clone, Copy, PartialEq, Eq)]
pub struct ReadFailed;

/// What can be read from.
pub trait Source {
    // The bytes that reads will give from here on, where they are known.
    ghost left: { Self → Option (List ℕ) };

    // How many reads were made, where that is known.
    ghost reads: { Self → Option ℕ };

    // Whether a read failed.
    ghost has_failed: { Self → Bool };

    // Whether a read found the end.
    ghost has_ended: { Self → Bool };

    /// Reads some bytes to the front of `buf`: at `Ok(0)` the end was found, if there was room.
    fn read(&mut self, buf: &mut [u8]) -> Result<usize, ReadFailed>
        ensures bound { IfOk result (λ n. n ≤ length buf.new) }
        ensures bytes { ReadConsumes (left self.old) (left self.new) result buf.new }
        ensures count { CountsBy 1 (reads self.old) (reads self.new) }
        ensures failed { has_failed self.new ≡ (has_failed self.old || is_err result) }
        ensures ended { has_ended self.new ≡
            (has_ended self.old || found_end result (length buf.new)) };
}
