//! What a connection is served with: a room that events act on, and who its terminals are.
ghost use Rattle.std.specs.Prelude.{◌≡◌, ◌⊎◌, ℕ, List, [], ◌∷◌, Result, Ok, IfOk, IfErr, OnOk};
ghost use Rattle.std.specs.Prelude.{OnErr};
ghost use Rattle.std.specs.Fn.{FnOnceReturnsAt};
ghost use Rattle.room_types.specs.declared.answers.Answer.{Answer as Answered};
ghost use Rattle.room_types.specs.declared.fleet.Terminal.{Terminal};
ghost use Rattle.room_types.specs.declared.refusal_statuses.Refusal.{Refusal as Why};
ghost use Rattle.room_types.specs.declared.refusal_statuses.Refusal.TheVariants.{Memory};
ghost use Rattle.room_model.specs.Room.{Room as Held};
ghost use Rattle.room_model.specs.Step.{IsAddressed};
ghost use Rattle.room_model.specs.FleetRows.{AreTerminals};
ghost use Rattle.room_model.specs.Rooms.{Step, who_at, IsUnavailable};

use room_types::answers::Answer;
use room_types::asks::{Event, Who};
use room_types::refusal_statuses::Refusal;
use room_types::token::Token;
use std::alloc::Global;

/// A room that events act on, as a store that keeps it in tables.
pub trait Room {
    // It may be called: what holds of it between calls.
    ghost is_ready: { Self → Type 0 };

    // Up to here it was given back what it wrote.
    ghost is_trusted: { Self → Type 0 };

    // It stands for this room, with these terminals.
    ghost stands: { Self → List Terminal → Held → Type 0 };

    // What it stands for is kept: a stop at this moment leaves that and nothing else.
    ghost is_kept: { Self → Type 0 };

    // A stop at this moment leaves one of these rooms, with these terminals.
    ghost leaves_one_of: { Self → List Terminal → List Held → Type 0 };

    // No later call succeeds: the room has to be opened anew.
    ghost is_shut: { Self → Type 0 };

    // What holds of it where its last call was refused.
    ghost has_failed: { Self → Type 0 };

    // What it does with an event of a known terminal.
    ghost step: { Step };

    // The zone of its days, as its plan names it: no call changes it.
    ghost zone: { Self → List ℕ };

    /// Who shows a token: none where no terminal has it. A refusal is lack of memory or of storage.
    fn who(&mut self, alloc: Global, token: &Token) -> Result<Option<Who>, Refusal>
        requires { is_ready self.old }
        ensures ready { is_ready self.new }
        ensures zone { zone self.new ≡ zone self.old }
        ensures trusted { is_trusted self.new → is_trusted self.old }
        ensures known { is_trusted self.new
            → IfOk result (λ who. (terminals : List Terminal) (room : Held)
            → stands self.old terminals room → who ≡ who_at terminals token.now) }
        ensures same { is_trusted self.new → (terminals : List Terminal) (room : Held)
            → stands self.old terminals room → stands self.new terminals room }
        ensures kept { is_trusted self.new → OnOk result (is_kept self.old → is_kept self.new) }
        ensures left { is_trusted self.new → is_kept self.old → (terminals : List Terminal)
            (room : Held) → stands self.old terminals room
            → leaves_one_of self.new terminals (room ∷ []) }
        ensures unavailable { IfErr result IsUnavailable }
        ensures failed { OnErr result (has_failed self.new) };

    /// Acts on an event of a known terminal. Gives what `render` makes of the answer, and `render`
    /// is called before anything is kept. An answer says that the room after the event is kept. A
    /// refusal is lack of memory or of storage; it changes nothing, but a stop may leave the room
    /// after the event in place of the one before it.
    fn act<F: FnOnce(&Result<Answer, Refusal>) -> Result<Vec<u8>, Refusal>>(
        &mut self,
        alloc: Global,
        event: &Event,
        render: F,
    ) -> Result<Vec<u8>, Refusal>
        requires ready { is_ready self.old }
        requires callable { F.IsAlwaysCallable render }
        requires memory { (answer : Result Answered Why) (r : _)
            → FnOnceReturnsAt F.FnOnce render answer r → IfErr r (λ e. e ≡ Memory) }
        ensures ready { is_ready self.new }
        ensures zone { zone self.new ≡ zone self.old }
        ensures trusted { is_trusted self.new → is_trusted self.old }
        ensures bytes { is_trusted self.new
            → IfOk result (λ bytes. (terminals : List Terminal) (room : Held)
            → stands self.old terminals room → IsAddressed event.now room
            → FnOnceReturnsAt F.FnOnce render (step event.now room).1 (Ok bytes)) }
        ensures after { is_trusted self.new → OnOk result ((terminals : List Terminal) (room : Held)
            → stands self.old terminals room → IsAddressed event.now room
            → stands self.new terminals (step event.now room).0) }
        ensures same { is_trusted self.new → OnErr result ((terminals : List Terminal) (room : Held)
            → stands self.old terminals room → stands self.new terminals room) }
        ensures kept { is_trusted self.new → OnOk result (is_kept self.new) }
        ensures left { is_trusted self.new → OnErr result (is_kept self.old
            → (terminals : List Terminal) (room : Held) → stands self.old terminals room
            → IsAddressed event.now room
            → leaves_one_of self.new terminals (room ∷ (step event.now room).0 ∷ [])) }
        ensures unavailable { IfErr result IsUnavailable }
        ensures failed { OnErr result (has_failed self.new) };

    // The terminals fit the room that it stands for.
    ghost fits: { (held : Self) (terminals : List Terminal) (room : Held)
        → stands held terminals room → AreTerminals room terminals };

    // Where what it stands for is kept, a stop leaves the room that this is.
    ghost leaves_it: { (held : Self) (terminals : List Terminal) (room : Held) → is_kept held
        → stands held terminals room → leaves_one_of held terminals (room ∷ []) };

    // Between calls what it stands for is kept, unless it is shut.
    ghost kept_or_shut: { (held : Self) → is_ready held → is_trusted held
        → is_kept held ⊎ is_shut held };
}
