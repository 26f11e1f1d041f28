//! A room that gives the digest of its rows, by which it is known again.
ghost use Rattle.std.specs.Prelude.{◌≡◌, ℕ, List, [], ◌∷◌, Result, Ok, IfOk, IfErr, OnOk, OnErr};
ghost use Rattle.std.specs.Prelude.{MatchResult};
ghost use Rattle.std.specs.Fn.{FnOnceReturnsAt};
ghost use Rattle.room_types.specs.declared.answers.Answer.{Answer as Answered};
ghost use Rattle.room_types.specs.declared.fleet.Terminal.{Terminal};
ghost use Rattle.room_types.specs.declared.refusal_statuses.Refusal.{Refusal as Why};
ghost use Rattle.room_types.specs.declared.refusal_statuses.Refusal.TheVariants.{Memory};
ghost use Rattle.room_model.specs.Room.{Room as Held};
ghost use Rattle.room_model.specs.Step.{IsAddressed};
ghost use Rattle.room_model.specs.Digests.{IsHeadOf, IsMiss, digits_of};
ghost use Rattle.room_model.specs.Rooms.{IsUnavailable};
ghost use Rattle.room_model.specs.declared.digests.DigestMismatch.TheVariants.{OtherDigest};
ghost use Rattle.room_model.specs.declared.digests.Version.{Version as Which};

use crate::rooms::Room;
use room_types::answers::Answer;
use room_types::asks::Event;
use room_types::refusal_statuses::Refusal;
use std::alloc::Global;

/// Which digest of a room's rows.
#[derive(Clone, Copy)]
pub enum Version {
    /// Of all rows but that of the zone, as lists of version 1 have it.
    First,
    /// Of all rows.
    Second,
}

/// What a list says of the room at which a part begins: which digest of its rows, and that in
/// digits.
#[derive(Clone, Copy)]
pub struct StartDigest {
    pub version: Version,
    pub digits: [u8; 64],
}

/// Why a room did not come to a digest.
#[derive(Clone, Copy)]
pub enum DigestMismatch {
    /// It would have come to another one.
    OtherDigest,
    /// Memory was refused, or storage failed.
    Unavailable(Refusal),
}

/// A room that gives the digest of its rows.
pub trait Digested: Room {
    // The digest of this version of a room's rows, with the zone of its days and its terminals.
    ghost digest_of: { Which → List ℕ → List Terminal → Held → List ℕ };

    /// The digest of this version of the room's rows. A refusal is lack of memory or of storage.
    fn digest(&mut self, version: Version) -> Result<[u8; 32], Refusal>
        requires { Self.is_ready self.old }
        ensures ready { Self.is_ready self.new }
        ensures zone { Self.zone self.new ≡ Self.zone self.old }
        ensures trusted { Self.is_trusted self.new → Self.is_trusted self.old }
        ensures known { Self.is_trusted self.new
            → IfOk result (λ digest. (terminals : List Terminal) (room : Held)
            → Self.stands self.old terminals room
            → digest ≡ digest_of version (Self.zone self.old) terminals room) }
        ensures same { Self.is_trusted self.new → (terminals : List Terminal) (room : Held)
            → Self.stands self.old terminals room → Self.stands self.new terminals room }
        ensures kept { Self.is_trusted self.new → OnOk result (Self.is_kept self.old
            → Self.is_kept self.new) }
        ensures left { Self.is_trusted self.new → Self.is_kept self.old
            → (terminals : List Terminal) (room : Held) → Self.stands self.old terminals room
            → Self.leaves_one_of self.new terminals (room ∷ []) }
        ensures unavailable { IfErr result IsUnavailable };

    /// Acts on an event of a known terminal, as `act` does, where the room comes by it to the
    /// digest of this head. Where it would come to another one, it stays as it was, and says so.
    fn act_towards<F: FnOnce(&Result<Answer, Refusal>) -> Result<Vec<u8>, Refusal>>(
        &mut self,
        alloc: Global,
        event: &Event,
        head: &StartDigest,
        render: F,
    ) -> Result<Vec<u8>, DigestMismatch>
        requires ready { Self.is_ready self.old }
        requires callable { F.IsAlwaysCallable render }
        requires memory { (answer : Result Answered Why) (r : _)
            → FnOnceReturnsAt F.FnOnce render answer r → IfErr r (λ e. e ≡ Memory) }
        ensures ready { Self.is_ready self.new }
        ensures zone { Self.zone self.new ≡ Self.zone self.old }
        ensures trusted { Self.is_trusted self.new → Self.is_trusted self.old }
        ensures bytes { Self.is_trusted self.new
            → IfOk result (λ bytes. (terminals : List Terminal) (room : Held)
            → Self.stands self.old terminals room → IsAddressed event.now room
            → FnOnceReturnsAt F.FnOnce render (Self.step event.now room).1 (Ok bytes)) }
        ensures after { Self.is_trusted self.new
            → OnOk result ((terminals : List Terminal) (room : Held)
            → Self.stands self.old terminals room → IsAddressed event.now room
            → Self.stands self.new terminals (Self.step event.now room).0
            × IsHeadOf (digits_of digest_of (Self.zone self.old)) head.now terminals
            (Self.step event.now room).0) }
        ensures another { Self.is_trusted self.new → IfErr result (λ e. e ≡ OtherDigest
            → (terminals : List Terminal) (room : Held) → Self.stands self.old terminals room
            → IsAddressed event.now room
            → ¬ (IsHeadOf (digits_of digest_of (Self.zone self.old)) head.now terminals
            (Self.step event.now room).0)) }
        ensures same { Self.is_trusted self.new
            → OnErr result ((terminals : List Terminal) (room : Held)
            → Self.stands self.old terminals room → Self.stands self.new terminals room) }
        ensures kept { Self.is_trusted self.new
            → MatchResult result (λ _. Self.is_kept self.new)
            (λ e. e ≡ OtherDigest → Self.is_kept self.new) }
        ensures left { Self.is_trusted self.new → OnErr result (Self.is_kept self.old
            → (terminals : List Terminal) (room : Held) → Self.stands self.old terminals room
            → IsAddressed event.now room
            → Self.leaves_one_of self.new terminals (room ∷ (Self.step event.now room).0 ∷ [])) }
        ensures unavailable { IfErr result IsMiss }
        ensures failed { OnErr result (Self.has_failed self.new) };
}
