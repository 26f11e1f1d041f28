//! The most urgent is first.
ghost use Rattle.std.specs.Prelude.{◌≡◌, List, Ok, ℕ};
ghost use Rattle.room_types.specs.declared.answers.Answer.TheVariants as answer;
ghost use Rattle.room_types.specs.declared.answers.QueueEntry.{QueueEntry};
ghost use Rattle.room_types.specs.declared.asks.Ask.TheVariants.{Queue};
ghost use Rattle.room_model.specs.Events.{by_desk};
ghost use Rattle.room_model.specs.Queue.{IsQueueOf, entries};
ghost use Rattle.room_model.specs.Room.{Room};
ghost use Rattle.room_model.specs.Step.{answer_to};
ghost use Rattle.room_laws.specs.UrgentFirst.{IsUrgentFirst};

/// Any list that is a division's queue has the most urgent first.
pub fn a_queue_is_urgent_first()
    ensures { (d at : ℕ) (room : Room) (queue : List QueueEntry) →
        IsQueueOf (entries d at room) queue →
        IsUrgentFirst d at room queue }
{}

/// A desk that asks for its queue is shown one.
pub fn a_desk_sees_the_most_urgent_first()
    ensures { (d at : ℕ) (room : Room) →
        (queue : List QueueEntry)
        × (answer_to (by_desk d Queue at) room ≡ Ok (answer.Queue queue))
        × IsUrgentFirst d at room queue }
{}
