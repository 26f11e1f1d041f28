//! The digest of the room that a store keeps, by which it is known again.
ghost use Rattle.std.specs.Prelude.{◌≡◌, List, [], ◌∷◌, Ok, IsTrue, IfOk, IfErr, OnOk};
ghost use Rattle.room_types.specs.declared.fleet.Terminal.{Terminal};
ghost use Rattle.room_model.specs.Room.{Room};
ghost use Rattle.room_model.specs.Rooms.{IsUnavailable};
ghost use Rattle.room_store_file.specs.DigestTexts.{digest_of};
ghost use Rattle.room_store.specs.StoredRoom.{IsKept, IsReady, IsRoom, LeavesOneOf};
ghost use Rattle.room_tables_schema.specs.FileConnections.{IsClean};

use crate::store::Store;
use crate::store_faults::refusal_of;
use room_model::digests::{DigestMismatch, Digested, StartDigest, Version};
use room_store_file::room_digest::digest_in;
use room_tables_schema::database_faults::Fault;
use room_types::answers::Answer;
use room_types::asks::Event;
use room_types::refusal_statuses::Refusal;
use sqlite::Alter;
use std::alloc::Global;

impl<S: Alter> Digested for Store<S> {
    ghost digest_of = { digest_of };

    fn digest(&mut self, version: Version) -> Result<[u8; 32], Refusal> {
        digest_of_room(self, version)
    }

    fn act_towards<F: FnOnce(&Result<Answer, Refusal>) -> Result<Vec<u8>, Refusal>>(
        &mut self,
        alloc: Global,
        event: &Event,
        head: &StartDigest,
        render: F,
    ) -> Result<Vec<u8>, DigestMismatch> {
        Store::act_towards(self, alloc, event, head, render)
    }
}

/// The digest of this version of the room with its terminals. The room stays as it was. A refusal
/// is of memory or of storage.
pub fn digest_of_room<S: Alter>(store: &mut Store<S>, version: Version) -> Result<[u8; 32], Refusal>
    requires ready { IsReady S.Store store.old }
    ensures ready { IsReady S.Store store.new }
    ensures plan { store.new.plan ≡ store.old.plan }
    ensures trusted { IsClean S.Store store.new.conn
        → IsClean S.Store store.old.conn }
    ensures known { IsClean S.Store store.new.conn
        → IfOk result (λ digest. (terminals : List Terminal) (room : Room)
        → IsRoom S.Store store.old terminals room
        → digest ≡ digest_of version store.old.plan.zone terminals room) }
    ensures same { IsClean S.Store store.new.conn
        → (terminals : List Terminal) (room : Room) → IsRoom S.Store store.old terminals room
        → IsRoom S.Store store.new terminals room }
    ensures kept { IsClean S.Store store.new.conn
        → OnOk result (IsKept S.Store store.old → IsKept S.Store store.new) }
    ensures left { IsClean S.Store store.new.conn → IsKept S.Store store.old
        → (terminals : List Terminal) (room : Room) → IsRoom S.Store store.old terminals room
        → LeavesOneOf S.Store store.new terminals (room ∷ []) }
    ensures unavailable { IfErr result IsUnavailable }
{
    if !store.is_sound {
        return Err(Refusal::Storage);
    }
    let digest = digest_in(&mut store.conn, version);
    // The transaction that it was read in is undone, and that may have shut the connection.
    store.test_file();
    sound_digest(digest, store.is_sound)
}

// The digest that was read of a room whose file was then found sound.
fn sound_digest(digest: Result<[u8; 32], Fault>, is_sound: bool) -> Result<[u8; 32], Refusal>
    ensures read { IfOk result (λ x. digest ≡ Ok x) }
    ensures sound { OnOk result (IsTrue is_sound) }
    ensures unavailable { IfErr result IsUnavailable }
{
    match digest {
        Ok(digest) => {
            if is_sound {
                Ok(digest)
            } else {
                Err(Refusal::Storage)
            }
        }
        Err(fault) => Err(refusal_of(fault)),
    }
}
