//! Observers of a room that is served.
ghost use Rattle.std.specs.Prelude.{◌≡◌, ◌||◌, ℕ, List, Bool, is_err};
ghost use Rattle.room_http.specs.KeptMessages.{KeepsAll};
ghost use Rattle.dispatch_room_journal.specs.Entries.{IsDigest};
ghost use Rattle.room_model.specs.declared.digests.StartDigest.{StartDigest as Heading};

use room_http::observers::{JournalFailed, Observer};
use room_model::digests::StartDigest;

/// An observer of what is served, which first gets the digest of the room, if it wants it.
pub trait JournalObserver: Observer {
    // Whether it wants to know the digest of the room's rows.
    ghost wants: { Self → Bool };

    // What it keeps of the head.
    ghost begun: { Heading → List ℕ };

    /// Whether it wants to know the digest of the room's rows, which all have to be read for it.
    fn wants_digest(&self) -> bool
        ensures { result ≡ wants self.now };

    /// The room has the digest of this head as serving begins.
    fn begins(&mut self, head: &StartDigest) -> Result<(), JournalFailed>
        requires { IsDigest head.now.digits }
        ensures kept { KeepsAll (Self.held self.old) (Self.held self.new) (begun head.now) result }
        ensures failed { Self.has_failed self.new ≡ (Self.has_failed self.old || is_err result) };
}
