//! Why there is one answer to each question of the room: what is proposed, and what stands in the
//! queue.
ghost use Rattle.std.specs.Prelude.{◌≡◌, ℕ, List, []};
ghost use Rattle.room_types.specs.declared.answers.QueueEntry.{QueueEntry};
ghost use Rattle.room_types.specs.declared.answers.Proposal.{Proposal};
ghost use Rattle.room_types.specs.declared.codes.Kind.{Kind};
ghost use Rattle.room_types.specs.declared.tables.Incident.{Incident};
ghost use Rattle.room_model.specs.Proposals.{AreProposed, proposed};
ghost use Rattle.room_model.specs.Queue.{IsQueueOf, ordered_from};
ghost use Rattle.room_model.specs.Room.{Room, IsInOrder};

/// Taking the least that is left, as often as the incident lacks a vehicle, gives what is to be
/// proposed.
pub fn the_least_are_proposed()
    ensures { (d : ℕ) (i : Incident) (at : ℕ) (r : Room) (k : Kind) →
        IsInOrder r →
        AreProposed d i at r k (proposed d i at r k) }
{}

/// No two lists may be proposed for one incident and kind.
pub fn proposals_are_one()
    ensures { (d : ℕ) (i : Incident) (at : ℕ) (r : Room) (k : Kind) (ps qs : List Proposal) →
        AreProposed d i at r k ps → AreProposed d i at r k qs →
        ps ≡ qs }
{}

/// Entries that are put in their places one by one are a queue.
pub fn queues_are_in_order()
    ensures { (entries : List QueueEntry) → IsQueueOf entries (ordered_from [] entries) }
{}

/// No two lists are a queue of the same entries.
pub fn queues_are_one()
    ensures { (entries p q : List QueueEntry) → IsQueueOf entries p → IsQueueOf entries q → p ≡ q }
{}
