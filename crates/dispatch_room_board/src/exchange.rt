//! The requests of a board sent to a room, and its answers received.
ghost use Rattle.std.specs.Prelude.{◌≡◌, ◌<◌, ◌≤◌, ◌+◌, ℕ, List, Option, IfOk, false, true, length};
ghost use Rattle.std.specs.Io.KnownBytes.{Consumes, IsAtEnd};
ghost use Rattle.dispatch_room_board.specs.Requests.{Sends};

use room_http_messages::limits::INBOX_ROOM;
use room_http_messages::sinks::{Sink, write_all};
use room_http_messages::sources::Source;
use std::alloc::{AllocError, Global};

/// How many bytes are read of a room at most: 16 MiB, some hundred times what a large room says.
pub const MOST_HEARD: usize = 16_777_216;

// How many bytes one read takes at most: what a room's inbox has, so that to the reader of a socket
// each read is one between two messages, which may wait until the turn is over.
pub const PIECE: usize = INBOX_ROOM;

/// Asks: the requests are written and nothing else, or the first bytes of them before a write
/// failed. Returns whether all were written.
pub fn send<W: Sink>(requests: &str, writer: &mut W) -> bool
    requires { W.has_failed writer.old ≡ false }
    ensures { Sends W.held W.has_failed writer.old writer.new requests.now result }
{
    write_all(writer, requests.as_bytes()).is_ok()
}

/// Hears all bytes to the end of the stream, or those before a read failed; at most `MOST_HEARD`
/// and what the read that passes it gives.
pub fn hear<R: Source>(alloc: Global, reader: &mut R) -> Result<Vec<u8>, AllocError>
    ensures heard { IfOk result (λ heard.
        Consumes (R.left reader.old) (R.left reader.new) heard.items) }
    ensures all { IfOk result (λ heard. length heard.items < MOST_HEARD
        → R.has_failed reader.new ≡ false → IsAtEnd (R.left reader.new)) }
    ensures most { IfOk result (λ heard. length heard.items < MOST_HEARD + PIECE) }
{
    let mut heard = Vec::new(alloc);
    let mut piece = [0; PIECE];
    'reads: while heard.len() < MOST_HEARD {
        if !hear_more(reader, &mut piece, &mut heard)? {
            return Ok(heard);
        }
    }
    Ok(heard)
}

// Hears what one read gives, behind what was heard before. Returns whether more may come: none does
// where the read failed, or found the end.
#[tactic(auto, using(crate::proofs::Heard::consumes_more))]
fn hear_more<R: Source>(
    reader: &mut R,
    piece: &mut [u8],
    heard: &mut Vec<u8>,
) -> Result<bool, AllocError>
    requires { 0 < length piece.old }
    ensures heard { IfOk result (λ more. (start : Option (List ℕ))
        → Consumes start (R.left reader.old) heard.old.items
        → Consumes start (R.left reader.new) heard.new.items) }
    ensures all { IfOk result (λ more. more ≡ false
        → R.has_failed reader.new ≡ false → IsAtEnd (R.left reader.new)) }
    ensures some { IfOk result (λ more. more ≡ true
        → length heard.old.items < length heard.new.items) }
    ensures most { IfOk result (λ more.
        length heard.new.items ≤ length heard.old.items + length piece.old) }
{
    match reader.read(piece) {
        Err(_) | Ok(0) => Ok(false),
        Ok(count) => {
            heard.extend_from_slice(&piece[..count])?;
            Ok(true)
        }
    }
}
