//! Prints the digest of a room, by which the room can be recognized.
ghost use Rattle.std.specs.Io.KnownBytes.{Appends};
ghost use Rattle.std.specs.Prelude.{OnOk};
ghost use Rattle.room_store.specs.StoredRoom.{IsReady};
ghost use Rattle.dispatch_room_lists.specs.RoomDigests.{PrintsDigest, PrintsDigits, digest_line};

use dispatch_room_exit::exit_status::{Done, Failure, refused};
use dispatch_room_journal::journal_digests::digest_of;
use room_model::digests::Version;
use room_store::store::Store;
use room_store::store_digest::digest_of_room;
use sqlite::Alter;
use std::io::{self, Write};

/// Prints the digest of a store's room, which stays as it is. It fails as `Memory` or `Storage` if
/// the room can't be read, and as `Network` if the output fails.
pub fn print_digest<S: Alter, O: Write>(room: &mut Store<S>, out: &mut O) -> Result<Done, Failure>
    requires ready { IsReady S.Store room.old }
    ensures { PrintsDigest S.Store room.old room.new (O.contents out.old) (O.contents out.new)
        result }
{
    match digest_of_room(room, Version::Second) {
        Ok(digest) => print_digits(digest_of(&digest).as_slice(), out),
        Err(refusal) => Err(refused(refusal)),
    }
}

// Prints a digest.
fn print_digits<O: Write>(digits: &[u8], out: &mut O) -> Result<Done, Failure>
    ensures { PrintsDigits (O.contents out.old) (O.contents out.new) digits.now result }
{
    match put_line(digits, out) {
        Ok(()) => Ok(Done::Whole),
        Err(_) => Err(Failure::Network),
    }
}

// Prints the line of a digest.
fn put_line<O: Write>(digits: &[u8], out: &mut O) -> io::Result<()>
    ensures { OnOk result
        (Appends (O.contents out.old) (O.contents out.new) (digest_line digits.now)) }
{
    out.write_all(b"digest ")?;
    out.write_all(digits)?;
    out.write_all(b"\n")
}
