//! An observer of what is served: a log, and perhaps a journal.
ghost use Rattle.std.specs.Prelude.{◌≡◌, ◌||◌, [], OnOk, is_err, is_some, true};
ghost use Rattle.room_http.specs.Arrivals.{IsBounded};
ghost use Rattle.room_http.specs.KeptMessages.{KeepsAll, came_of, response_of};
ghost use Rattle.dispatch_room_journal.specs.Entries.{IsDigest};
ghost use Rattle.dispatch_room_journal.specs.JournalRecords.{answer_text, message_text, room_text};
ghost use Rattle.dispatch_room_serving.specs.Journals.{EndsAfter, EndsBy, PutsBy, failed_by};
ghost use Rattle.dispatch_room_serving.specs.Journals.{held_by};
ghost use Rattle.dispatch_room_serving.specs.KeptChanges.{is_kept};
ghost use Rattle.dispatch_room_serving.specs.LoggedLines.{Logs};

use crate::journal_observers::JournalObserver;
use crate::journals::{Journal, Keeper};
use crate::logs::Log;
use dispatch_room_exit::exit_status::{Done, Failure};
use room_http::arrivals::Arrived;
use room_http::observers::{Asked, JournalFailed, Observer};
use room_model::digests::StartDigest;
use room_types::numbers::Moment;
use std::io::Write;
use std::time::Clock;

/// A log and perhaps a journal, as one observer. It keeps what the journal does.
#[derive(Drop)]
pub struct LogAndJournal<'a, E, T, W> {
    log: Log<'a, E, T>,
    journal: Option<Journal<W>>,
}

impl<'a, E: Write, T: Clock, W: Keeper> LogAndJournal<'a, E, T, W> {
    /// A log, and a journal or none.
    pub fn new(log: Log<'a, E, T>, journal: Option<Journal<W>>) -> LogAndJournal<'a, E, T, W>
        ensures journal { result.journal ≡ journal }
        ensures log { result.log.goes_on ≡ log.entry.goes_on }
    {
        LogAndJournal { log, journal }
    }

    /// Records in the journal that it ended well, if there is a journal.
    fn end(&mut self) -> Result<(), JournalFailed>
        ensures kept { KeepsAll (held_by W.held self.old.journal) (held_by W.held self.new.journal)
            [] result }
        ensures ended { OnOk result (EndsBy W.ends self.old.journal self.new.journal) }
        ensures failed { failed_by self.new.journal
            ≡ (failed_by self.old.journal || is_err result) }
    {
        match &mut self.journal {
            Some(journal) => journal.end(),
            None => Ok(()),
        }
    }

    /// Records in the journal that serving ended well, if it did, and returns how the service
    /// ended: as serving did, or as `Journal` if that could not be kept.
    pub fn end_after(&mut self, served: Result<Done, Failure>) -> Result<Done, Failure>
        ensures { EndsAfter W.ends self.old.journal self.new.journal served result }
    {
        let done = served?;
        match self.end() {
            Ok(()) => Ok(done),
            Err(_) => Err(Failure::Journal),
        }
    }
}

impl<'a, E: Write, T: Clock, W: Keeper> Observer for LogAndJournal<'a, E, T, W> {
    ghost held = { λ log_and_journal. held_by W.held log_and_journal.journal };

    ghost has_failed = { λ log_and_journal. failed_by log_and_journal.journal };

    ghost came = { message_text };

    ghost response = { answer_text };

    // The line is written, unless there is no log, or it was given up.
    ghost notes = { λ old new asked answer. Logs old.log.goes_on new.log.goes_on
        (E.contents old.log.out.now) (E.contents new.log.out.now) asked answer };

    // Beside what all observers ensure: the entry is put in the journal, and nothing else, so no
    // end.
    fn arrived(&mut self, arrived: &Arrived<'_>, at: Moment) -> Result<(), JournalFailed>
        requires { IsBounded arrived.now }
        ensures kept { KeepsAll (held_by W.held self.old.journal) (held_by W.held self.new.journal)
            (came_of message_text arrived.now at) result }
        ensures put { OnOk result (PutsBy W.puts (λ keeps. is_kept keeps arrived.now)
            self.old.journal self.new.journal (came_of message_text arrived.now at)) }
        ensures failed { failed_by self.new.journal
            ≡ (failed_by self.old.journal || is_err result) }
    {
        self.log.begin();
        match &mut self.journal {
            Some(journal) => journal.arrived(arrived, at),
            None => Ok(()),
        }
    }

    fn answering(&mut self, arrived: &Arrived<'_>, answer: &[u8]) -> Result<(), JournalFailed>
        ensures kept { KeepsAll (held_by W.held self.old.journal) (held_by W.held self.new.journal)
            (response_of answer_text arrived.now answer.now) result }
        ensures put { OnOk result (PutsBy W.puts (λ keeps. is_kept keeps arrived.now)
            self.old.journal self.new.journal (response_of answer_text arrived.now answer.now)) }
        ensures failed { failed_by self.new.journal
            ≡ (failed_by self.old.journal || is_err result) }
    {
        match &mut self.journal {
            Some(journal) => journal.answering(arrived, answer),
            None => Ok(()),
        }
    }

    // Beside what all observers ensure: nothing is put in the journal.
    fn answered(&mut self, asked: &Asked<'_>, answer: &[u8])
        ensures journal { self.new.journal ≡ self.old.journal }
        ensures noted { Logs self.old.log.goes_on self.new.log.goes_on
            (E.contents self.old.log.out.now) (E.contents self.new.log.out.now) asked.now
            answer.now }
    {
        self.log.answered(asked, answer);
    }
}

impl<'a, E: Write, T: Clock, W: Keeper> JournalObserver for LogAndJournal<'a, E, T, W> {
    ghost wants = { λ log_and_journal. is_some log_and_journal.journal };

    ghost begun = { room_text };

    // Only a journal needs it.
    fn wants_digest(&self) -> bool {
        self.journal.is_some()
    }

    // Beside what all observers ensure: the head is put in the journal, and nothing else.
    fn begins(&mut self, head: &StartDigest) -> Result<(), JournalFailed>
        requires { IsDigest head.now.digits }
        ensures kept { KeepsAll (held_by W.held self.old.journal) (held_by W.held self.new.journal)
            (room_text head.now) result }
        ensures put { OnOk result (PutsBy W.puts (λ _. true)
            self.old.journal self.new.journal (room_text head.now)) }
        ensures failed { failed_by self.new.journal
            ≡ (failed_by self.old.journal || is_err result) }
    {
        match &mut self.journal {
            Some(journal) => journal.begin(head),
            None => Ok(()),
        }
    }
}
