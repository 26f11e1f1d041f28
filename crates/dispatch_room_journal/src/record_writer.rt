//! Records written to a sink.
ghost use Rattle.std.specs.Prelude.{◌≡◌, false};
ghost use Rattle.room_http_messages.specs.Streams.{WritesAll};
ghost use Rattle.dispatch_room_journal.specs.Chains.{IsBody, next_check, opening, record_text};
ghost use Rattle.dispatch_room_journal.specs.Chains.{sha256_digits};

use crate::record_fronts::OPENING;
use crate::record_headers::{CHECK_DIGITS, check_after, header_of};
use room_http_messages::sinks::{Sink, WriteFailed, write_all};

/// Writes the line with which a chain begins.
pub fn put_opening<W: Sink>(writer: &mut W) -> Result<(), WriteFailed>
    requires sound { W.has_failed writer.old ≡ false }
    ensures { WritesAll W.held W.has_failed writer.old writer.new opening result }
{
    write_all(writer, OPENING)
}

/// Writes a record after this check, which becomes its own.
pub fn put_record<W: Sink>(
    writer: &mut W,
    check: &mut [u8; CHECK_DIGITS],
    body: &[u8],
) -> Result<(), WriteFailed>
    requires sound { W.has_failed writer.old ≡ false }
    requires is_one { IsBody body.now }
    ensures written { WritesAll W.held W.has_failed writer.old writer.new
        (record_text sha256_digits check.old body.now) result }
    ensures check { check.new ≡ next_check sha256_digits check.old body.now }
{
    let next = check_after(check, body);
    let header = header_of(body.len(), &next);
    *check = next;
    match write_all(writer, header.as_slice()) {
        Ok(()) => write_all(writer, body),
        Err(failed) => Err(failed),
    }
}
