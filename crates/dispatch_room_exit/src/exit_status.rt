//! How the program ends: how much it did, or why it fails; what it prints then; its exit status.
ghost use Rattle.std.specs.Prelude.{◌≡◌, IfOk};
ghost use Rattle.dispatch_room_exit.specs.ExitStatus.{refused, status_after};
ghost use Rattle.dispatch_room_exit.specs.declared.exit_status.Failure.TheVariants.{Memory};

use room_types::refusal_statuses::Refusal;
use std::alloc::AllocFailed;
use std::io::Write;
use thiserror::Error;

/// How much of a command was done.
#[derive(Clone, Copy, PartialEq, Eq)]
pub enum Done {
    /// All of it.
    Whole,
    /// All but rows that are bad or refused.
    InPart,
}

impl Done {
    ghost use Rattle.std.specs.Prelude.{◌≡◌};
    ghost use Rattle.dispatch_room_exit.specs.ExitStatus.{status_done};

    /// The exit status of the program.
    pub fn status(self) -> u8
        ensures { result ≡ status_done self }
    {
        match self {
            Done::Whole => 0,
            Done::InPart => 1,
        }
    }
}

/// Why the program fails. Its text is the last line on standard error.
#[derive(Clone, Copy, Debug, PartialEq, Eq, Error)]
pub enum Failure {
    /// A row of a plan, from 1 after the header; 0 for the plan as a whole.
    #[error("refused: plan row {0}")]
    PlanRow(u64),
    /// A text can't be read, or is not of its form.
    #[error("refused: input")]
    Input,
    /// The room's file is not there, or is no room; or a room was to be created, and the file is
    /// not empty.
    #[error("refused: file")]
    File,
    /// The room's file is of an older version; or of today's, where an old one was to be moved.
    #[error("refused: version")]
    Version,
    /// The division is not in the room's plan.
    #[error("refused: division")]
    Division,
    /// The text is no day from 1970 to 2099.
    #[error("refused: day")]
    Day,
    /// What stands at this record is no entry of a list, or no message; records count from 1.
    #[error("refused: record {0}")]
    Record(u64),
    /// At this record of the list the room is another than the list's.
    #[error("refused: another room at record {0}")]
    OtherRoom(u64),
    /// At this record of the list the answer has another status than the recorded one.
    #[error("differs: record {0}")]
    Differs(u64),
    /// The input ended within a message, the reads were used up, or the clock gave no moment.
    #[error("refused: connection")]
    Connection,
    /// The room's file failed.
    #[error("storage")]
    Storage,
    /// An address can't be listened at, or standard input or output failed.
    #[error("network")]
    Network,
    /// Memory was refused.
    #[error("memory")]
    Memory,
    /// The journal of what is served can't be written, or is no journal.
    #[error("journal")]
    Journal,
}

impl Failure {
    ghost use Rattle.std.specs.Prelude.{◌≡◌};
    ghost use Rattle.dispatch_room_exit.specs.ExitStatus.{status_of};

    /// The exit status of the program.
    pub fn status(self) -> u8
        ensures { result ≡ status_of self }
    {
        match self {
            Failure::PlanRow(_)
            | Failure::Input
            | Failure::File
            | Failure::Version
            | Failure::Division
            | Failure::Day
            | Failure::Record(_)
            | Failure::OtherRoom(_)
            | Failure::Differs(_)
            | Failure::Connection => 1,
            Failure::Storage => 3,
            Failure::Network => 4,
            Failure::Memory => 5,
            Failure::Journal => 6,
        }
    }
}

impl<T: Drop> From<AllocFailed<T>> for Failure {
    ghost from_gives = { λ _ fault. fault ≡ Memory };

    fn from(_: AllocFailed<T>) -> Failure {
        Failure::Memory
    }
}

/// The failure that reports a store's refusal: a store refuses only for memory or storage.
pub fn refused(refusal: Refusal) -> Failure
    ensures { result ≡ refused refusal }
{
    match refusal {
        Refusal::Memory => Failure::Memory,
        _ => Failure::Storage,
    }
}

/// Prints to `err` why the program failed, if it did, and returns its exit status.
pub fn end<E: Write>(done: Result<Done, Failure>, err: &mut E) -> u8
    ensures status { result ≡ status_after done }
    ensures silent { IfOk done (λ _. err.new ≡ err.old) }
{
    match done {
        Ok(done) => done.status(),
        Err(fault) => {
            let _ = writeln!(err, "{fault}");
            fault.status()
        }
    }
}
