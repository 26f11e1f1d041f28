//! Where the answers to a list are written.
ghost use Rattle.std.specs.Prelude.{◌≡◌, ◌≤◌, ◌||◌, IfOk, false, length};
ghost use Rattle.std.specs.Io.KnownBytes.{WriteAppends};
ghost use Rattle.room_http_messages.specs.Streams.{WritesAll, took_none};

use room_http_messages::sinks::WriteFailed;
use std::io::Write;

/// An output to which answers are written, and whether a write of this segment failed, or took nothing.
#[derive(Drop)]
pub struct AnswerWriter<'a, O> {
    output: &'a mut O,
    failed: bool,
}

impl<'a, O: Write> AnswerWriter<'a, O> {
    /// An output to which no answer was written yet.
    pub fn new(output: &'a mut O) -> AnswerWriter<'a, O>
        ensures same_reference { result.output.ghost_name ≡ output.entry.ghost_name }
        ensures output { result.output.now ≡ output.old }
        ensures sound { result.failed ≡ false }
    {
        AnswerWriter {
            output,
            failed: false,
        }
    }

    /// Begins a segment, of which no write has failed.
    pub fn begin(&mut self)
        ensures same_reference { self.new.output.ghost_name ≡ self.old.output.ghost_name }
        ensures output { self.new.output.now ≡ self.old.output.now }
        ensures sound { self.new.failed ≡ false }
    {
        self.failed = false;
    }

    /// Writes all the bytes. A write that takes nothing is a failure: so there are at most as many
    /// writes as bytes.
    pub fn write_all(&mut self, bytes: &[u8]) -> Result<(), WriteFailed>
        requires { self.old.failed ≡ false }
        ensures same_reference { self.new.output.ghost_name ≡ self.old.output.ghost_name }
        ensures written { WritesAll (λ writer. O.contents writer.output.now)
            (λ writer. writer.failed) self.old self.new bytes.now result }
    {
        let mut written = 0;
        'writes: while written < bytes.len() {
            match self.write(&bytes[written..]) {
                Err(_) => return Err(WriteFailed),
                Ok(0) => return Err(WriteFailed),
                Ok(count) => written += count,
            }
        }
        Ok(())
    }

    // Writes some of the first bytes, and says how many.
    fn write(&mut self, bytes: &[u8]) -> Result<usize, WriteFailed>
        ensures same_reference { self.new.output.ghost_name ≡ self.old.output.ghost_name }
        ensures bound { IfOk result (λ n. n ≤ length bytes.now) }
        ensures bytes { WriteAppends (O.contents self.old.output.now)
            (O.contents self.new.output.now) result bytes.now }
        ensures failed { self.new.failed
            ≡ (self.old.failed || took_none result (length bytes.now)) }
    {
        match self.output.write(bytes) {
            Ok(count) => {
                if count == 0 && !bytes.is_empty() {
                    self.failed = true;
                }
                Ok(count)
            }
            Err(_) => {
                self.failed = true;
                Err(WriteFailed)
            }
        }
    }
}
