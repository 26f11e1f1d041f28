//! Observers of what is served, which may keep it.
ghost use Rattle.std.specs.Prelude.{◌≡◌, ◌||◌, ℕ, List, [], Bool, false, is_err, Option, None, ⊤};
ghost use Rattle.room_http.specs.Arrivals.{IsBounded};
ghost use Rattle.room_http.specs.KeptMessages.{KeepsAll, came_of, response_of};
ghost use Rattle.room_http.specs.declared.observers.Asked.{Asked};

use crate::arrivals::Arrived;
use room_types::asks::Who;
use room_types::numbers::Moment;

/// What is reported could not be kept.
#[derive(Clone, Copy)]
pub struct JournalFailed;

/// An observer of each arrival and its answer, as a log and a journal are. It is never asked, so it
/// changes no answer; but where it can't keep what is reported to it, serving ends. What is refused
/// instead of a message is reported too, and is not kept.
pub trait Observer {
    // The bytes that it keeps, where they are known.
    ghost held: { Self → Option (List ℕ) };

    // Whether something that was reported to it could not be kept.
    ghost has_failed: { Self → Bool };

    // What it keeps of a message: its moment, and its bytes as they came.
    ghost came: { ℕ → List ℕ → List ℕ };

    // What it keeps of the answer's bytes.
    ghost response: { List ℕ → List ℕ };

    // What it is before and after it was given what was asked, and the bytes of the answer.
    ghost notes: { Self → Self → Asked → List ℕ → Type 0 };

    /// Something has arrived. The room acts on it next.
    fn arrived(&mut self, arrived: &Arrived<'_>, at: Moment) -> Result<(), JournalFailed>
        requires { IsBounded arrived.now }
        ensures kept { KeepsAll (held self.old) (held self.new) (came_of came arrived.now at)
            result }
        ensures failed { has_failed self.new ≡ (has_failed self.old || is_err result) };

    /// This is its answer, which is written next. Where memory was refused or storage failed, this
    /// is not called.
    fn answering(&mut self, arrived: &Arrived<'_>, answer: &[u8]) -> Result<(), JournalFailed>
        ensures kept { KeepsAll (held self.old) (held self.new)
            (response_of response arrived.now answer.now) result }
        ensures failed { has_failed self.new ≡ (has_failed self.old || is_err result) };

    /// It was answered, and the bytes of its answer were written, or as many of them as were taken.
    fn answered(&mut self, asked: &Asked<'_>, answer: &[u8])
        ensures kept { held self.new ≡ held self.old }
        ensures failed { has_failed self.new ≡ has_failed self.old }
        ensures noted { notes self.old self.new asked.now answer.now };
}

/// What was asked.
#[derive(Clone, Copy)]
pub struct Asked<'a> {
    pub arrived: &'a Arrived<'a>,
    /// The moment at which it was answered.
    pub at: Moment,
    /// The terminal that asked: none where it was refused before the room knew one.
    pub who: Option<Who>,
}

/// Nobody observes.
#[derive(Clone, Copy)]
pub struct Nobody;

impl Observer for Nobody {
    ghost held = { λ _. None };

    ghost has_failed = { λ _. false };

    ghost came = { λ _ _. [] };

    ghost response = { λ _. [] };

    ghost notes = { λ _ _ _ _. ⊤ };

    fn arrived(&mut self, _arrived: &Arrived<'_>, _at: Moment) -> Result<(), JournalFailed> {
        Ok(())
    }

    fn answering(&mut self, _arrived: &Arrived<'_>, _answer: &[u8]) -> Result<(), JournalFailed> {
        Ok(())
    }

    fn answered(&mut self, _asked: &Asked<'_>, _answer: &[u8]) {}
}
