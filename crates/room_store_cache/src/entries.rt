//! What is known of the room by entries, each under a key of its own.
ghost use Rattle.std.specs.Prelude.{◌≡◌, ◌≢◌, ◌≤◌, ◌<◌, [], true, All, AllPairs, IfErr, IfNone};
ghost use Rattle.std.specs.Prelude.{IfSome, OnOk, map, vec_len};
ghost use Rattle.room_tables_schema.specs.declared.database_faults.Fault.TheVariants.{Memory};
ghost use Rattle.room_model.specs.Room.{IsInOrder, Room, apply_one};

use crate::views::View;
use room_tables_schema::database_faults::Fault;
use room_types::changes::Change;
use std::alloc::Global;

// How many entries are kept: one more takes the place of the one that was kept first.
const MOST_ENTRIES: usize = 64;

/// What is known under a key.
///
/// The law of the keys: two that are equal are one and the same.
pub trait Entry: Drop {
    type Key: Eq + Copy;

    /// Whether it is so in a room.
    ghost is_so: { Self → Room → Type 0 };

    ghost key_of: { Self → Self.Key };

    /// The key of the entry.
    fn key(&self) -> Self::Key
        ensures { result ≡ key_of self.now };

    /// Makes a change of the room, where it is of this part. The one fault is `Memory`.
    fn apply(&mut self, change: &Change) -> Result<(), Fault>
        ensures so { OnOk result ((room : Room) → IsInOrder room → is_so self.old room
            → is_so self.new (apply_one room change.now)) }
        ensures key { key_of self.new ≡ key_of self.old }
        ensures memory { IfErr result (λ e. e ≡ Memory) };

    ghost exact: { (a b : Self.Key) → Self.Key.eq a b ≡ true → a ≡ b };
}

/// Entries that are known, at most one of each key and 64 in all.
#[derive(Drop)]
pub struct Entries<E: Entry> {
    // In the order in which they were kept.
    kept: Vec<E>,
    ghost apart: { AllPairs (λ k l. k ≢ l) (map E.key_of kept.items) },
    ghost few: { vec_len kept ≤ 64 },
}

impl<E: Entry> Entries<E> {
    /// None is known yet.
    pub fn new(alloc: Global) -> Entries<E>
        ensures { result.kept.items ≡ [] }
    {
        Entries {
            kept: Vec::new(alloc),
        }
    }

    /// The entry of a key, if it is known.
    pub fn get(&self, key: &E::Key) -> Option<&E>
        ensures so { (room : Room) → All (λ x. E.is_so x room) self.now.kept.items
            → IfSome result (λ x. (E.key_of x.now ≡ key.now) × E.is_so x.now room) }
        ensures none { IfNone result (All (λ x. E.key_of x ≢ key.now) self.now.kept.items) }
    {
        for entry in &self.kept {
            if entry.key() == *key {
                return Some(entry);
            }
        }
        None
    }

    /// Keeps an entry instead of the one of its key, where memory is not refused.
    pub fn put(&mut self, entry: E)
        ensures { (room : Room) → All (λ x. E.is_so x room) self.old.kept.items
            → E.is_so entry room → All (λ x. E.is_so x room) self.new.kept.items }
    {
        for at in 0..self.kept.len() {
            if self.kept[at].key() == entry.key() {
                self.kept[at] = entry;
                return;
            }
        }
        self.drop_oldest_if_full();
        let _ = self.kept.push(entry);
    }

    // Lets the entry go that was kept first, where 64 are kept.
    fn drop_oldest_if_full(&mut self)
        ensures so { (room : Room) → All (λ x. E.is_so x room) self.old.kept.items
            → All (λ x. E.is_so x room) self.new.kept.items }
        ensures others { (key : E.Key) → All (λ x. E.key_of x ≢ key) self.old.kept.items
            → All (λ x. E.key_of x ≢ key) self.new.kept.items }
        ensures fewer { vec_len self.new.kept < 64 }
    {
        if self.kept.len() == MOST_ENTRIES {
            drop(self.kept.remove(0));
        }
    }
}

impl<E: Entry> View for Entries<E> {
    ghost is_so = { λ entries room. All (λ x. E.is_so x room) entries.kept.items };

    ghost is_empty = { λ entries. entries.kept.items ≡ [] };

    // None is left where memory is refused.
    fn apply(&mut self, change: &Change) {
        for at in 0..self.kept.len() {
            if self.kept[at].apply(change).is_err() {
                self.kept.clear();
                return;
            }
        }
    }

    fn forget(&mut self) {
        self.kept.clear();
    }
}
