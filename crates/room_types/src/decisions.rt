//! What is decided of a request that isn't refused: the rows that change, and the answer.
ghost use Rattle.std.specs.Prelude.{◌≡◌, ◌≤◌, []};
ghost use Rattle.room_types.specs.declared.answers.Answer.TheVariants.{Done};

use crate::answers::Answer;
use crate::changes::{Change, Changes, FewChanges};

/// The rows that a request changes, in their order, and the answer to it.
#[derive(Drop)]
pub struct Decision {
    pub changes: Changes,
    pub answer: Answer,
}

impl Decision {
    /// An answer that changes nothing.
    pub fn show(answer: Answer) -> Decision
        ensures { result ≡ record { changes = []; answer = answer } }
    {
        Decision {
            changes: Changes::few(FewChanges::new()),
            answer,
        }
    }

    /// Changes, and the answer to them.
    pub fn with_changes<const COUNT: usize>(answer: Answer, changes: [Change; COUNT]) -> Decision
        requires { COUNT ≤ 5 }
        ensures { result ≡ record { changes = changes.entry; answer = answer } }
    {
        Decision {
            changes: Changes::few(FewChanges::of(changes)),
            answer,
        }
    }

    /// Changes with nothing to show.
    pub fn done<const COUNT: usize>(changes: [Change; COUNT]) -> Decision
        requires { COUNT ≤ 5 }
        ensures { result ≡ record { changes = changes.entry; answer = Done } }
    {
        Decision::with_changes(Answer::Done, changes)
    }
}
