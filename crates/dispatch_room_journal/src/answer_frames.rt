//! An answer, written in its frame.
ghost use Rattle.std.specs.Prelude.{◌≡◌, false};
ghost use Rattle.room_http_messages.specs.Streams.{WritesAll};
ghost use Rattle.dispatch_room_journal.specs.AnswerFrames.{frame_line, frame_of};

use crate::answer_statuses::status_in;
use crate::answer_writers::AnswerWriter;
use crate::line_texts::append;
use arrayvec::ArrayVec;
use itoa::Buffer;
use room_http_messages::sinks::WriteFailed;
use std::io::Write;

/// The bytes of the longest line of a frame, with its end.
const LINE_ROOM: usize = 32;

/// Writes the line of a frame at once.
fn put_line<O: Write>(writer: &mut AnswerWriter<'_, O>, answer: &[u8]) -> Result<(), WriteFailed>
    requires { writer.old.failed ≡ false }
    ensures same_reference { writer.new.output.ghost_name ≡ writer.old.output.ghost_name }
    ensures written { WritesAll (λ writer. O.contents writer.output.now)
        (λ writer. writer.failed) writer.old writer.new (frame_line answer.now) result }
{
    let mut text = ArrayVec::<u8, LINE_ROOM>::new();
    append(&mut text, b"answer ");
    append(&mut text, status_in(answer));
    append(&mut text, b" ");
    append(&mut text, Buffer::new().format(answer.len()).as_bytes());
    append(&mut text, b"\n");
    writer.write_all(text.as_slice())
}

/// Writes an answer in its frame: a line of its status and the number of its bytes, its bytes, and
/// a line end.
pub fn put_frame<O: Write>(
    writer: &mut AnswerWriter<'_, O>,
    answer: &[u8],
) -> Result<(), WriteFailed>
    requires { writer.old.failed ≡ false }
    ensures same_reference { writer.new.output.ghost_name ≡ writer.old.output.ghost_name }
    ensures written { WritesAll (λ writer. O.contents writer.output.now)
        (λ writer. writer.failed) writer.old writer.new (frame_of answer.now) result }
{
    put_line(writer, answer)?;
    writer.write_all(answer)?;
    writer.write_all(b"\n")
}
