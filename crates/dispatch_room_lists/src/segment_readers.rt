//! A list that is read segment by segment: a segment is the records up to the next rows.
ghost use Rattle.std.specs.Prelude.{◌≡◌, ◌==◌, ◌||◌, Bool, None, IfOk, List, ℕ, false};
ghost use Rattle.std.specs.Option.{option_map};
ghost use Rattle.dispatch_room_journal.specs.Chains.{sha256_digits};
ghost use Rattle.dispatch_room_journal.specs.ReadSteps.{left_in, most_rows};
ghost use Rattle.dispatch_room_journal.specs.RecordFronts.{list_says};
ghost use Rattle.dispatch_room_journal.specs.RowRuns.{is_read};
ghost use Rattle.dispatch_room_journal.specs.declared.list_source.ListSource.{ListSource as List_};
ghost use Rattle.dispatch_room_journal.specs.declared.read_progress.Reach.TheVariants.{Segment};
ghost use Rattle.dispatch_room_journal.specs.declared.row_runs.Behind.{Behind as Which};
ghost use Rattle.dispatch_room_lists.specs.ReplayedLegs.{TakesBehind, left_of};

use crate::noted_sources::NotedSource;
use dispatch_room_journal::list_source::ListSource;
use dispatch_room_journal::row_runs::{Behind, RowsFault};
use room_http_messages::sources::{ReadFailed, Source};
use std::marker::Model;

/// A list that is read segment by segment: a read gives the bytes of a segment up to its end.
pub trait Segments: Source {
    // What stands behind a segment was taken, and the lines of its rows were appended to others.
    ghost takes: { Self → Self → List ℕ → List ℕ → Which → Type 0 };

    // Whether the end of the whole list was found.
    ghost found_end: { Self → Bool };

    /// Appends the rows that stand behind a segment, if that was read to its end, and returns what
    /// stands behind the rows. It fails as `Read` if a read of the list failed, now or before.
    fn take_rows(&mut self, rows: &mut Vec<u8>) -> Result<Behind, RowsFault>
        ensures failed { Self.has_failed self.new ≡ is_read result }
        ensures taken { IfOk result (takes self.old self.new rows.old.items rows.new.items) };

    /// Whether the end of the whole list was found.
    fn has_found_end(&self) -> bool
        ensures { result ≡ found_end self.now };
}

/// The segments of a list that is read from a source.
#[derive(Drop)]
pub struct SegmentReader<R: Source> {
    list: ListSource<NotedSource<R>>,
    failed: bool,
}

// `failed` says whether a read failed, or as many rows were passed as can be counted.
impl<R: Source> Model for SegmentReader<R> {
    ghost Value = { List_ R };

    ghost view = { λ reader. reader.list };

    ghost invariant = { λ reader.
        reader.failed ≡ (R.has_failed reader.list.reader || reader.list.passed == most_rows) };
}

impl<R: Source> SegmentReader<R> {
    /// Begins to read a list at its first segment. Nothing may have been read of it before.
    pub fn new(reader: R) -> SegmentReader<R>
        requires sound { R.has_failed reader ≡ false }
        requires unread { R.has_ended reader ≡ false }
        ensures sound { (R.has_failed result.reader || result.passed == most_rows) ≡ false }
        ensures left { left_of R.left result
            ≡ option_map (list_says sha256_digits Segment) (R.left reader) }
    {
        SegmentReader {
            list: ListSource::by_legs(NotedSource::new(reader)),
            failed: false,
        }
    }
}

impl<R: Source> Source for SegmentReader<R> {
    ghost left = { λ list. left_in list.cursor.mode list.cursor.vouched list.cursor.inbox
        (R.left list.reader) };

    ghost reads = { λ _. None };

    ghost has_failed = { λ list. R.has_failed list.reader || list.passed == most_rows };

    ghost has_ended = { λ list. list.has_ended };

    fn read(&mut self, buf: &mut [u8]) -> Result<usize, ReadFailed> {
        let read = self.list.read(buf);
        if read.is_err() {
            self.failed = true;
        }
        read
    }
}

impl<R: Source> Segments for SegmentReader<R> {
    ghost takes = { TakesBehind R.left };

    ghost found_end = { λ list. R.has_ended list.reader };

    fn take_rows(&mut self, rows: &mut Vec<u8>) -> Result<Behind, RowsFault> {
        if self.failed {
            return Err(RowsFault::Read);
        }
        let taken = self.list.take_rows(rows);
        self.failed = matches!(taken, Err(RowsFault::Read));
        taken
    }

    fn has_found_end(&self) -> bool {
        self.list.reader().has_ended()
    }
}
