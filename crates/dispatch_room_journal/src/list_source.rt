//! What the records of a list say, as a source.
ghost use Rattle.std.specs.Prelude.{◌≡◌, ◌||◌, ◌==◌, ◌+◌, ◌<◌, ◌≤◌, is_err, None, Ok, IfOk, length};
ghost use Rattle.std.specs.Prelude.{false, true};
ghost use Rattle.std.specs.Io.KnownBytes.{ReadConsumes, prepend_known};
ghost use Rattle.std.specs.Option.{option_map};
ghost use Rattle.room_http_messages.specs.Streams.{found_end};
ghost use Rattle.dispatch_room_journal.specs.Chains.{sha256_digits};
ghost use Rattle.dispatch_room_journal.specs.RecordFronts.{list_says};
ghost use Rattle.dispatch_room_journal.specs.ReadSteps.{Advances, Nearer, PassesRows, done_of};
ghost use Rattle.dispatch_room_journal.specs.ReadSteps.{ends_well, last_of, left_in, most_rows};
ghost use Rattle.dispatch_room_journal.specs.ReadSteps.{reach_of, rest_of, rows_next, rows_of};
ghost use Rattle.dispatch_room_journal.specs.RowRuns.{is_read};
ghost use Rattle.dispatch_room_journal.specs.Segments.{TakesIn, left_to};
ghost use Rattle.dispatch_room_journal.specs.declared.record_inbox.TheConstants.{RECORD_ROOM};
ghost use Rattle.dispatch_room_journal.specs.declared.read_progress.Reach.TheVariants.{Full};
ghost use Rattle.dispatch_room_journal.specs.declared.read_progress.Reach.TheVariants.{Segment};
ghost use Rattle.dispatch_room_journal.specs.declared.read_progress.Mode.TheVariants.{Chain};
ghost use Rattle.dispatch_room_journal.specs.declared.row_runs.Behind.TheVariants.{Unread};

use crate::read_progress::{JournalCursor, Mode, Reach, Step};
use crate::record_fronts::Link;
use crate::row_runs::{Behind, RowsFault, take_run};
use room_http_messages::sources::{ReadFailed, Source};

/// What the records of a list say, and a byte with which no entry begins where a record is not the
/// one that comes next. Either all that the list says is read, over the rows in it; or one segment
/// after another, each up to the next row, and the rows between them are taken.
#[derive(Drop)]
pub struct ListSource<R> {
    reader: R,
    cursor: JournalCursor,
    has_ended: bool,
    // The number of the rows that were passed over. As many as this counts are too many.
    passed: u64,
    ghost fits: { passed ≤ most_rows },
    // By segments none are, so nothing but a read of the list fails.
    ghost segments: { reach_of cursor.mode ≡ Segment → passed ≡ 0 },
}

impl<R: Source> ListSource<R> {
    /// All that a list says of which nothing was read.
    pub fn new(reader: R) -> ListSource<R>
        ensures left { left_in result.cursor.mode result.cursor.vouched result.cursor.inbox
            (R.left result.reader) ≡ option_map (list_says sha256_digits Full) (R.left reader) }
        ensures reader { result.reader ≡ reader }
        ensures fresh { result.has_ended ≡ false }
        ensures none { result.passed ≡ 0 }
        ensures reach { reach_of result.cursor.mode ≡ Full }
    {
        ListSource {
            reader,
            cursor: JournalCursor::new(Reach::Full),
            has_ended: false,
            passed: 0,
        }
    }

    /// The first segment of a list of which nothing was read.
    pub fn by_legs(reader: R) -> ListSource<R>
        ensures left { left_in result.cursor.mode result.cursor.vouched result.cursor.inbox
            (R.left result.reader) ≡ option_map (list_says sha256_digits Segment) (R.left reader) }
        ensures reader { result.reader ≡ reader }
        ensures fresh { result.has_ended ≡ false }
        ensures none { result.passed ≡ 0 }
        ensures reach { reach_of result.cursor.mode ≡ Segment }
    {
        ListSource {
            reader,
            cursor: JournalCursor::new(Reach::Segment),
            has_ended: false,
            passed: 0,
        }
    }

    /// What it is read from.
    pub fn reader(&self) -> &R
        ensures { result.now ≡ self.now.reader }
    {
        &self.reader
    }

    /// Whether the last record that was read says that the list ended well.
    pub fn ended_well(&self) -> bool
        ensures { result ≡ ends_well self.now.cursor.mode }
    {
        match self.cursor.mode {
            Mode::Chain(_, link) => link.has_ended,
            Mode::Fresh(_) | Mode::Plain(_) | Mode::Done(_) => false,
        }
    }

    /// Takes the rows that stand behind a segment which was read to its end, and puts their lines
    /// behind `rows`. What stands behind them is the next segment. A list that is no chain has none.
    pub fn take_rows(&mut self, rows: &mut Vec<u8>) -> Result<Behind, RowsFault>
        requires sound { (R.has_failed self.old.reader || self.old.passed == most_rows) ≡ false }
        ensures failed { (R.has_failed self.new.reader || self.new.passed == most_rows)
            ≡ is_read result }
        ensures same { self.new.passed ≡ self.old.passed }
        ensures reach { reach_of self.new.cursor.mode ≡ reach_of self.old.cursor.mode }
        ensures unread { self.old.has_ended ≡ false
            → (result ≡ Ok Unread) × (self.new ≡ self.old) × (rows.new ≡ rows.old) }
        ensures given { 0 < self.old.cursor.vouched
            → (result ≡ Ok Unread) × (self.new ≡ self.old) × (rows.new ≡ rows.old) }
        ensures taken { self.old.has_ended ≡ true → self.old.cursor.vouched ≡ 0
            → (self.new.cursor.vouched ≡ 0) × IfOk result (TakesIn self.old.cursor.mode
            self.new.cursor.mode (prepend_known self.old.cursor.inbox (R.left self.old.reader))
            (prepend_known self.new.cursor.inbox (R.left self.new.reader))
            rows.old.items rows.new.items) }
    {
        if !self.has_ended {
            return Ok(Behind::Unread);
        }
        if 0 < self.cursor.vouched {
            return Ok(Behind::Unread);
        }
        match self.cursor.mode {
            Mode::Chain(Reach::Segment, link) => self.take_behind(&link, rows),
            Mode::Chain(Reach::Full, _) => Ok(Behind::End),
            Mode::Fresh(_) => Ok(Behind::End),
            Mode::Plain(_) => Ok(Behind::End),
            Mode::Done(_) => Ok(Behind::Other),
        }
    }

    // Takes the rows that stand next, and goes on behind them.
    fn take_behind(&mut self, link: &Link, rows: &mut Vec<u8>) -> Result<Behind, RowsFault>
        requires sound { (R.has_failed self.old.reader || self.old.passed == most_rows) ≡ false }
        requires none { self.old.cursor.vouched ≡ 0 }
        requires mode { self.old.cursor.mode ≡ Chain Segment link.now }
        ensures failed { (R.has_failed self.new.reader || self.new.passed == most_rows)
            ≡ is_read result }
        ensures same { self.new.passed ≡ self.old.passed }
        ensures reach { reach_of self.new.cursor.mode ≡ Segment }
        ensures none { self.new.cursor.vouched ≡ 0 }
        ensures taken { IfOk result (TakesIn (Chain Segment link.now) self.new.cursor.mode
            (prepend_known self.old.cursor.inbox (R.left self.old.reader))
            (prepend_known self.new.cursor.inbox (R.left self.new.reader))
            rows.old.items rows.new.items) }
    {
        let mut next = *link;
        match take_run(&mut self.cursor.inbox, &mut self.reader, &mut next, rows) {
            Ok(behind) => {
                self.cursor.mode = Mode::Chain(Reach::Segment, next);
                self.has_ended = false;
                Ok(behind)
            }
            Err(fault) => {
                self.cursor.mode = Mode::Done(Reach::Segment);
                Err(fault)
            }
        }
    }

    // One read, where more is needed.
    fn read_on(&mut self) -> Result<Step, ReadFailed>
        requires none { self.old.cursor.vouched ≡ 0 }
        requires room { length self.old.cursor.inbox < RECORD_ROOM }
        requires last { rest_of self.old.cursor.mode self.old.cursor.inbox
            ≡ last_of self.old.cursor.mode self.old.cursor.inbox }
        ensures failed { R.has_failed self.new.reader
            ≡ (R.has_failed self.old.reader || is_err result) }
        ensures ended { self.new.has_ended ≡ self.old.has_ended }
        ensures rows { rows_of result ≡ 0 }
        ensures passed { self.new.passed ≡ self.old.passed }
        ensures reach { reach_of self.new.cursor.mode ≡ reach_of self.old.cursor.mode }
        ensures counts { PassesRows (prepend_known self.old.cursor.inbox (R.left self.old.reader))
            (prepend_known self.new.cursor.inbox (R.left self.new.reader))
            self.old.passed self.new.passed }
        ensures step { Advances
            (left_to self.old.cursor (R.left self.old.reader))
            (left_to self.new.cursor (R.left self.new.reader))
            (left_in (done_of self.new.cursor.mode) self.new.cursor.vouched self.new.cursor.inbox
            (R.left self.new.reader))
            (Nearer self.old.cursor.mode self.old.cursor.inbox self.new.cursor.mode
            self.new.cursor.vouched (length self.new.cursor.inbox)) result }
    {
        match self.cursor.inbox.fill(&mut self.reader) {
            Err(failed) => Err(failed),
            Ok(0) => Ok(self.cursor.finish()),
            Ok(_) => Ok(Step::Moved),
        }
    }

    // A step, and a read where one is needed. A row that is passed over is counted.
    fn advance(&mut self) -> Result<Step, ReadFailed>
        requires none { self.old.cursor.vouched ≡ 0 }
        requires counts { self.old.passed < most_rows }
        ensures failed { R.has_failed self.new.reader
            ≡ (R.has_failed self.old.reader || is_err result) }
        ensures ended { self.new.has_ended ≡ self.old.has_ended }
        ensures rows { rows_of result ≡ rows_next self.old.cursor.mode self.old.cursor.inbox }
        ensures passed { self.new.passed ≡ self.old.passed + rows_of result }
        ensures reach { reach_of self.new.cursor.mode ≡ reach_of self.old.cursor.mode }
        ensures counts { PassesRows (prepend_known self.old.cursor.inbox (R.left self.old.reader))
            (prepend_known self.new.cursor.inbox (R.left self.new.reader))
            self.old.passed self.new.passed }
        ensures step { Advances
            (left_to self.old.cursor (R.left self.old.reader))
            (left_to self.new.cursor (R.left self.new.reader))
            (left_in (done_of self.new.cursor.mode) self.new.cursor.vouched self.new.cursor.inbox
            (R.left self.new.reader))
            (Nearer self.old.cursor.mode self.old.cursor.inbox self.new.cursor.mode
            self.new.cursor.vouched (length self.new.cursor.inbox)) result }
    {
        match self.cursor.step() {
            Step::More => self.read_on(),
            Step::Moved => Ok(Step::Moved),
            Step::Passed => {
                self.passed += 1;
                Ok(Step::Passed)
            }
            Step::Wrong => Ok(Step::Wrong),
            Step::Ended => Ok(Step::Ended),
        }
    }

    // Steps until something may be given, or it is found what is left, or too many rows were passed
    // over.
    fn ready(&mut self) -> Result<Step, ReadFailed>
        ensures failed { (R.has_failed self.new.reader || self.new.passed == most_rows)
            ≡ ((R.has_failed self.old.reader || self.old.passed == most_rows) || is_err result) }
        ensures ended { self.new.has_ended ≡ self.old.has_ended }
        ensures reach { reach_of self.new.cursor.mode ≡ reach_of self.old.cursor.mode }
        ensures counts { PassesRows (prepend_known self.old.cursor.inbox (R.left self.old.reader))
            (prepend_known self.new.cursor.inbox (R.left self.new.reader))
            self.old.passed self.new.passed }
        ensures step { Advances
            (left_to self.old.cursor (R.left self.old.reader))
            (left_to self.new.cursor (R.left self.new.reader))
            (left_in (done_of self.new.cursor.mode) self.new.cursor.vouched self.new.cursor.inbox
            (R.left self.new.reader))
            (0 < self.new.cursor.vouched) result }
    {
        'steps: while self.passed < u64::MAX {
            if 0 < self.cursor.vouched {
                return Ok(Step::Moved);
            }
            match self.advance() {
                Err(failed) => return Err(failed),
                Ok(Step::Wrong) => return Ok(Step::Wrong),
                Ok(Step::Ended) => return Ok(Step::Ended),
                Ok(_) => {}
            }
        }
        Err(ReadFailed)
    }

    // What a read does, with how far the list is to be read, and the rows that are passed over.
    fn read_ready(&mut self, buf: &mut [u8]) -> Result<usize, ReadFailed>
        ensures bound { IfOk result (λ n. n ≤ length buf.new) }
        ensures bytes { ReadConsumes
            (left_to self.old.cursor (R.left self.old.reader))
            (left_to self.new.cursor (R.left self.new.reader))
            result buf.new }
        ensures failed { (R.has_failed self.new.reader || self.new.passed == most_rows)
            ≡ ((R.has_failed self.old.reader || self.old.passed == most_rows) || is_err result) }
        ensures ended { self.new.has_ended
            ≡ (self.old.has_ended || found_end result (length buf.new)) }
        ensures reach { reach_of self.new.cursor.mode ≡ reach_of self.old.cursor.mode }
        ensures counts { PassesRows (prepend_known self.old.cursor.inbox (R.left self.old.reader))
            (prepend_known self.new.cursor.inbox (R.left self.new.reader))
            self.old.passed self.new.passed }
    {
        if buf.is_empty() {
            return Ok(0);
        }
        match self.ready() {
            Err(failed) => Err(failed),
            Ok(Step::Wrong) => {
                self.cursor.mode = Mode::Done(self.cursor.mode.reach());
                buf[0] = 0;
                Ok(1)
            }
            Ok(Step::Ended) => {
                self.has_ended = true;
                Ok(0)
            }
            Ok(_) => Ok(self.cursor.give(buf)),
        }
    }
}

impl<R: Source> Source for ListSource<R> {
    ghost left = { λ list. left_in list.cursor.mode list.cursor.vouched list.cursor.inbox
        (R.left list.reader) };

    ghost reads = { λ _. None };

    ghost has_failed = { λ list. R.has_failed list.reader || list.passed == most_rows };

    ghost has_ended = { λ list. list.has_ended };

    fn read(&mut self, buf: &mut [u8]) -> Result<usize, ReadFailed> {
        self.read_ready(buf)
    }
}
