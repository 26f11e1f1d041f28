//! Steps in a list that was read so far.
ghost use Rattle.std.specs.Prelude.{◌≡◌, ◌≤◌, ◌<◌, ◌+◌, ◌-◌, ◌++◌, [], ℕ, List, length, drop, take};
ghost use Rattle.std.specs.Prelude.{true, false};
ghost use Rattle.dispatch_room_journal.specs.Chains.{is_end, is_no_entry};
ghost use Rattle.dispatch_room_journal.specs.RecordFronts.{body_in};
ghost use Rattle.dispatch_room_journal.specs.ReadSteps.{EndIs, StepIs, left_of, reach_of, rows_by};
ghost use Rattle.dispatch_room_journal.specs.ReadSteps.{rows_next};
ghost use Rattle.dispatch_room_journal.specs.declared.record_headers.TheConstants.{HEADER};
ghost use Rattle.dispatch_room_journal.specs.declared.read_progress.Mode.TheVariants.{Chain, Fresh};
ghost use Rattle.dispatch_room_journal.specs.declared.read_progress.Mode.TheVariants.{Plain};

use crate::read_progress::{JournalCursor, Mode, Reach, Step};
use crate::record_fronts::{
    FIRST_LINK, Front, Link, OPENING, body_of, is_end, is_no_entry, is_row, look_at,
};
use crate::record_headers::{CHECK_DIGITS, HEADER};
use crate::record_inbox::RecordInbox;

impl Mode {
    /// How far the list is to be read.
    pub fn reach(&self) -> Reach
        ensures { result ≡ reach_of self.now }
    {
        match *self {
            Mode::Fresh(reach) | Mode::Plain(reach) | Mode::Chain(reach, _) | Mode::Done(reach) =>
                reach,
        }
    }
}

impl JournalCursor {
    /// A list of which nothing was read, and which is to be read so far.
    pub fn new(reach: Reach) -> JournalCursor
        ensures { (result.mode ≡ Fresh reach) × (result.vouched ≡ 0) × (result.inbox ≡ []) }
    {
        JournalCursor {
            inbox: RecordInbox::new(),
            mode: Mode::Fresh(reach),
            vouched: 0,
        }
    }

    // At the front of a list: takes the line that begins a chain, where it stands there.
    fn open(&mut self, reach: Reach) -> Step
        requires fresh { self.old.mode ≡ Fresh reach }
        requires none { self.old.vouched ≡ 0 }
        ensures step { StepIs self.old.mode self.old.inbox self.new.mode self.new.vouched
            self.new.inbox result }
        ensures rows { rows_by result ≡ rows_next self.old.mode self.old.inbox }
        ensures reach { reach_of self.new.mode ≡ reach_of self.old.mode }
        ensures shorter { rows_by result + length self.new.inbox ≤ length self.old.inbox }
    {
        if self.inbox.bytes().len() < 7 {
            return Step::More;
        }
        if &self.inbox.bytes()[..7] == OPENING {
            self.inbox.remove(7);
            self.mode = Mode::Chain(reach, FIRST_LINK);
        } else {
            self.mode = Mode::Plain(reach);
        }
        Step::Moved
    }

    // In a list that is no chain: all that was read may be given.
    fn pass(&mut self, reach: Reach) -> Step
        requires plain { self.old.mode ≡ Plain reach }
        requires none { self.old.vouched ≡ 0 }
        ensures step { StepIs self.old.mode self.old.inbox self.new.mode self.new.vouched
            self.new.inbox result }
        ensures rows { rows_by result ≡ rows_next self.old.mode self.old.inbox }
        ensures reach { reach_of self.new.mode ≡ reach_of self.old.mode }
        ensures shorter { rows_by result + length self.new.inbox ≤ length self.old.inbox }
    {
        let len = self.inbox.bytes().len();
        if len < 1 {
            return Step::More;
        }
        self.vouched = len;
        Step::Moved
    }

    // Takes the line of a record, which may be given; or all of it, where it says nothing.
    fn take(&mut self, reach: Reach, size: usize, check: [u8; CHECK_DIGITS])
        requires whole { HEADER + size ≤ length self.old.inbox }
        requires none { self.old.vouched ≡ 0 }
        ensures mode { self.new.mode ≡ Chain reach (record {
          check = check;
          has_ended = is_end (body_in size self.old.inbox);
        }) }
        ensures says { is_no_entry (body_in size self.old.inbox) ≡ false
            → (self.new.inbox ≡ drop HEADER self.old.inbox) × (self.new.vouched ≡ size) }
        ensures no_entry { is_no_entry (body_in size self.old.inbox) ≡ true
            → (self.new.inbox ≡ drop (HEADER + size) self.old.inbox) × (self.new.vouched ≡ 0) }
        ensures shorter { HEADER + length self.new.inbox ≤ length self.old.inbox }
    {
        let body = body_of(self.inbox.bytes(), size);
        let (has_ended, is_no_entry) = (is_end(body), is_no_entry(body));
        self.mode = Mode::Chain(reach, Link { check, has_ended });
        if is_no_entry {
            self.inbox.remove(HEADER + size);
        } else {
            self.inbox.remove(HEADER);
            self.vouched = size;
        }
    }

    // In a chain: takes the record that comes next. A row is passed over, or a segment ends before it.
    fn follow(&mut self, reach: Reach, link: &Link) -> Step
        requires chain { self.old.mode ≡ Chain reach link.now }
        requires none { self.old.vouched ≡ 0 }
        ensures step { StepIs self.old.mode self.old.inbox self.new.mode self.new.vouched
            self.new.inbox result }
        ensures rows { rows_by result ≡ rows_next self.old.mode self.old.inbox }
        ensures reach { reach_of self.new.mode ≡ reach_of self.old.mode }
        ensures shorter { rows_by result + length self.new.inbox ≤ length self.old.inbox }
    {
        match look_at(link, self.inbox.bytes()) {
            Front::Empty => Step::More,
            Front::Short => Step::More,
            Front::Wrong => Step::Wrong,
            Front::Whole(size, check) => {
                if !is_row(body_of(self.inbox.bytes(), size)) {
                    self.take(reach, size, check);
                    return Step::Moved;
                }
                match reach {
                    Reach::Full => {
                        self.take(reach, size, check);
                        Step::Passed
                    }
                    Reach::Segment => Step::Ended,
                }
            }
        }
    }

    /// A step, where nothing may be given.
    pub fn step(&mut self) -> Step
        requires none { self.old.vouched ≡ 0 }
        ensures step { StepIs self.old.mode self.old.inbox self.new.mode self.new.vouched
            self.new.inbox result }
        ensures rows { rows_by result ≡ rows_next self.old.mode self.old.inbox }
        ensures reach { reach_of self.new.mode ≡ reach_of self.old.mode }
        ensures shorter { rows_by result + length self.new.inbox ≤ length self.old.inbox }
    {
        match self.mode {
            Mode::Fresh(reach) => self.open(reach),
            Mode::Plain(reach) => self.pass(reach),
            Mode::Chain(reach, link) => self.follow(reach, &link),
            Mode::Done(_) => Step::Ended,
        }
    }

    /// A step, where nothing may be given, and nothing more is read.
    pub fn finish(&mut self) -> Step
        requires none { self.old.vouched ≡ 0 }
        ensures step { EndIs self.old.mode self.old.inbox self.new.mode self.new.vouched
            self.new.inbox result }
        ensures reach { reach_of self.new.mode ≡ reach_of self.old.mode }
        ensures shorter { rows_by result + length self.new.inbox ≤ length self.old.inbox }
    {
        let len = self.inbox.bytes().len();
        if len < 1 {
            return Step::Ended;
        }
        match self.mode {
            Mode::Chain(..) => Step::Wrong,
            Mode::Done(_) => Step::Ended,
            Mode::Fresh(reach) | Mode::Plain(reach) => {
                self.mode = Mode::Plain(reach);
                self.vouched = len;
                Step::Moved
            }
        }
    }

    /// Gives some of the bytes that may be given, and returns how many.
    pub fn give(&mut self, buf: &mut [u8]) -> usize
        requires some { 0 < self.old.vouched }
        requires room { 0 < length buf.old }
        ensures some { 0 < result }
        ensures fits { result ≤ length buf.new }
        ensures len { length buf.new ≡ length buf.old }
        ensures mode { self.new.mode ≡ self.old.mode }
        ensures shorter { length self.new.inbox ≤ length self.old.inbox }
        ensures given { (more : List ℕ) →
            left_of self.old.mode self.old.vouched (self.old.inbox ++ more) ≡ take result buf.new
            ++ left_of self.new.mode self.new.vouched (self.new.inbox ++ more) }
    {
        let count = self.vouched.min(buf.len());
        buf[..count].copy_from_slice(&self.inbox.bytes()[..count]);
        self.inbox.remove(count);
        self.vouched -= count;
        count
    }
}
