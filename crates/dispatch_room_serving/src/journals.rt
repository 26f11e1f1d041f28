//! A journal of what is served: each message before the room acts on it, and its answer's status
//! before the answer is written.
ghost use Rattle.std.specs.Prelude.{◌≡◌, ◌&&◌, ◌||◌, ◌⊎◌, ℕ, List, [], Bool, false, is_err, not};
ghost use Rattle.std.specs.Prelude.{IsTrue, OnErr, OnOk, Option, true, ⊤};
ghost use Rattle.room_http.specs.Arrivals.{IsBounded};
ghost use Rattle.room_http.specs.KeptMessages.{KeepsAll, came_of, response_of};
ghost use Rattle.dispatch_room_journal.specs.Entries.{Entry, IsDigest, IsEntry, message, text_of};
ghost use Rattle.dispatch_room_journal.specs.JournalRecords.{LacksStatus, answer_text};
ghost use Rattle.dispatch_room_journal.specs.JournalRecords.{message_text, room_text};
ghost use Rattle.dispatch_room_serving.specs.Journals.{FailsForGood, HasCause, Lasts, PutsKept};
ghost use Rattle.dispatch_room_serving.specs.Journals.{known_by};
ghost use Rattle.dispatch_room_serving.specs.KeptChanges.{asks_only, is_kept, kept_of};

use dispatch_room_journal::answer_statuses::status_of;
use dispatch_room_journal::entry_texts::EntryText;
use room_http::arrivals::Arrived;
use room_http::observers::{Asked, JournalFailed, Observer};
use room_model::digests::StartDigest;
use room_types::numbers::Moment;

/// Where the entries of a journal are kept.
pub trait Keeper {
    // The text of the entries that it keeps, and of rows among them, where that is known.
    ghost held: { Self → Option (List ℕ) };

    // The text of what of them it keeps wherever the machine stops, where that is known.
    ghost lasting: { Self → Option (List ℕ) };

    // Whether something could not be written to it, or made to last.
    ghost has_failed: { Self → Bool };

    // What it is before and after it kept an entry.
    ghost puts: { Self → Self → List ℕ → Type 0 };

    // What it is before and after it kept that the journal ended well.
    ghost ends: { Self → Self → Type 0 };

    /// Keeps one entry more, and nothing else.
    fn keep(&mut self, entry: &[u8]) -> Result<(), JournalFailed>
        requires is_one { (e : Entry) × IsEntry e × (entry.now ≡ text_of e) }
        ensures kept { KeepsAll (held self.old) (held self.new) entry.now result }
        ensures put { OnOk result (puts self.old self.new entry.now) }
        ensures failed { has_failed self.new ≡ (has_failed self.old || is_err result) };

    /// Records that the journal ended well, if its form has a record for that.
    fn end(&mut self) -> Result<(), JournalFailed>
        ensures held { KeepsAll (held self.old) (held self.new) [] result }
        ensures ended { OnOk result (ends self.old self.new) }
        ensures failed { has_failed self.new ≡ (has_failed self.old || is_err result) };

    /// Makes all that was kept last, and returns whether it could.
    fn sync(&mut self) -> bool
        ensures held { held self.new ≡ held self.old }
        ensures put { (first : Self) (entry : List ℕ) → puts first self.old entry
            → puts first self.new entry }
        ensures ended { (first : Self) → ends first self.old → ends first self.new }
        ensures failed { has_failed self.new ≡ (has_failed self.old || not result) }
        ensures lasts { IsTrue result → lasting self.new ≡ held self.new };
}

/// A journal: each message at its moment, as it came, and the status of its answer; or only those
/// that are no questions. What was refused before it was a message is not kept. Once something
/// could not be kept, nothing more is.
#[derive(Drop)]
pub struct Journal<W> {
    out: W,
    // Whether a message lasts before the room acts on it; otherwise the system writes it later.
    is_synced: bool,
    // Whether questions are kept too, which change nothing.
    keeps_questions: bool,
    has_failed: bool,
}

impl<W: Keeper> Journal<W> {
    /// A journal that goes on where its keeper is. With `is_synced` a message lasts before the room
    /// acts on it; otherwise the system writes it later. Without `keeps_questions` only those
    /// messages are kept that are no questions.
    pub fn new(out: W, is_synced: bool, keeps_questions: bool) -> Journal<W>
        ensures { result ≡ record {
          out = out;
          is_synced = is_synced;
          keeps_questions = keeps_questions;
          has_failed = false;
        } }
    {
        Journal {
            out,
            is_synced,
            keeps_questions,
            has_failed: false,
        }
    }

    // Whether what has arrived is kept.
    fn keeps(&self, arrived: &Arrived<'_>) -> bool
        ensures { result ≡ is_kept self.now.keeps_questions arrived.now }
    {
        match arrived {
            Arrived::Message { message, .. } => self.keeps_questions || !asks_only(message.method),
            Arrived::Refused { .. } => false,
        }
    }

    /// Records that a part begins, at a room whose rows have this digest.
    pub fn begin(&mut self, head: &StartDigest) -> Result<(), JournalFailed>
        requires { IsDigest head.now.digits }
        ensures kept { KeepsAll (W.held self.old.out) (W.held self.new.out) (room_text head.now)
            result }
        ensures put { OnOk result (W.puts self.old.out self.new.out (room_text head.now)) }
        ensures lasts { OnOk result
            (Lasts self.old.is_synced (W.lasting self.new.out) (W.held self.new.out)) }
        ensures failed { self.new.has_failed ≡ (self.old.has_failed || is_err result) }
        ensures for_good { FailsForGood self.old self.new result }
        ensures cause { OnErr result (HasCause W.has_failed self.old self.new) }
    {
        if self.has_failed {
            return Err(JournalFailed);
        }
        let kept = keep_room(&mut self.out, self.is_synced, head);
        self.noted(kept)
    }

    /// Records that the journal ended well. It fails if something could not be kept before. If
    /// messages last, so does that.
    pub fn end(&mut self) -> Result<(), JournalFailed>
        ensures kept { KeepsAll (W.held self.old.out) (W.held self.new.out) [] result }
        ensures ended { OnOk result (W.ends self.old.out self.new.out) }
        ensures lasts { OnOk result
            (Lasts self.old.is_synced (W.lasting self.new.out) (W.held self.new.out)) }
        ensures failed { self.new.has_failed ≡ (self.old.has_failed || is_err result) }
        ensures for_good { FailsForGood self.old self.new result }
        ensures cause { OnErr result (HasCause W.has_failed self.old self.new) }
    {
        if self.has_failed {
            return Err(JournalFailed);
        }
        let kept = keep_end(&mut self.out, self.is_synced);
        self.noted(kept)
    }

    // Notes whether something could be kept: if not, the journal has failed for good.
    fn noted(&mut self, kept: Result<(), JournalFailed>) -> Result<(), JournalFailed>
        requires { self.old.has_failed ≡ false }
        ensures same_result { result ≡ kept }
        ensures failed { self.new.has_failed ≡ is_err kept }
        ensures is_synced { self.new.is_synced ≡ self.old.is_synced }
        ensures keeps_questions { self.new.keeps_questions ≡ self.old.keeps_questions }
        ensures out { self.new.out ≡ self.old.out }
    {
        self.has_failed = kept.is_err();
        kept
    }
}

impl<W: Keeper> Observer for Journal<W> {
    ghost held = { known_by W.held };

    ghost has_failed = { λ journal. journal.has_failed };

    ghost came = { message_text };

    ghost response = { answer_text };

    ghost notes = { λ _ _ _ _. ⊤ };

    fn arrived(&mut self, arrived: &Arrived<'_>, at: Moment) -> Result<(), JournalFailed>
        requires { IsBounded arrived.now }
        ensures keeps { KeepsAll (W.held self.old.out) (W.held self.new.out)
            (kept_of self.old.keeps_questions arrived.now (came_of message_text arrived.now at))
            result }
        ensures kept { KeepsAll (known_by W.held self.old) (known_by W.held self.new)
            (came_of message_text arrived.now at) result }
        ensures put { OnOk result (PutsKept W.puts (is_kept self.old.keeps_questions arrived.now)
            self.old.out self.new.out (came_of message_text arrived.now at)) }
        ensures lasts { OnOk result
            (Lasts (self.old.is_synced && is_kept self.old.keeps_questions arrived.now)
            (W.lasting self.new.out) (W.held self.new.out)) }
        ensures failed { self.new.has_failed ≡ (self.old.has_failed || is_err result) }
        ensures for_good { FailsForGood self.old self.new result }
        ensures cause { OnErr result (HasCause W.has_failed self.old self.new) }
    {
        if self.has_failed {
            return Err(JournalFailed);
        }
        let kept = match arrived {
            Arrived::Message { bytes, .. } if self.keeps(arrived) => {
                keep_message(&mut self.out, self.is_synced, at, bytes)
            }
            _ => Ok(()),
        };
        self.noted(kept)
    }

    fn answering(&mut self, arrived: &Arrived<'_>, answer: &[u8]) -> Result<(), JournalFailed>
        ensures keeps { KeepsAll (W.held self.old.out) (W.held self.new.out)
            (kept_of self.old.keeps_questions arrived.now
            (response_of answer_text arrived.now answer.now)) result }
        ensures kept { KeepsAll (known_by W.held self.old) (known_by W.held self.new)
            (response_of answer_text arrived.now answer.now) result }
        ensures put { OnOk result (PutsKept W.puts (is_kept self.old.keeps_questions arrived.now)
            self.old.out self.new.out (response_of answer_text arrived.now answer.now)) }
        ensures failed { self.new.has_failed ≡ (self.old.has_failed || is_err result) }
        ensures for_good { FailsForGood self.old self.new result }
        ensures cause { OnErr result
            (HasCause W.has_failed self.old self.new ⊎ LacksStatus answer.now) }
    {
        if self.has_failed {
            return Err(JournalFailed);
        }
        let kept = match arrived {
            Arrived::Message { .. } if self.keeps(arrived) => keep_answer(&mut self.out, answer),
            _ => Ok(()),
        };
        self.noted(kept)
    }

    // Beside what all observers ensure: nothing is put.
    fn answered(&mut self, _asked: &Asked<'_>, _answer: &[u8])
        ensures same { self.new ≡ self.old }
    {}
}

// Whether only questions are asked by this method.
fn asks_only(method: &[u8]) -> bool
    ensures { result ≡ asks_only method.now }
{
    method == b"GET".as_slice() || method == b"HEAD".as_slice()
}

// Keeps the head with which a part begins, and makes it last if `is_synced`.
fn keep_room<W: Keeper>(
    out: &mut W,
    is_synced: bool,
    head: &StartDigest,
) -> Result<(), JournalFailed>
    requires { IsDigest head.now.digits }
    ensures kept { KeepsAll (W.held out.old) (W.held out.new) (room_text head.now) result }
    ensures put { OnOk result (W.puts out.old out.new (room_text head.now)) }
    ensures lasts { OnOk result (Lasts is_synced (W.lasting out.new) (W.held out.new)) }
    ensures cause { OnErr result (W.has_failed out.new ≡ true) }
{
    keep_entry(out, is_synced, &EntryText::room(head))
}

// Keeps a message, and makes it last if `is_synced`.
fn keep_message<W: Keeper>(
    out: &mut W,
    is_synced: bool,
    at: Moment,
    bytes: &[u8],
) -> Result<(), JournalFailed>
    requires { IsEntry (message at bytes.now) }
    ensures kept { KeepsAll (W.held out.old) (W.held out.new) (message_text at bytes.now) result }
    ensures put { OnOk result (W.puts out.old out.new (message_text at bytes.now)) }
    ensures lasts { OnOk result (Lasts is_synced (W.lasting out.new) (W.held out.new)) }
    ensures cause { OnErr result (W.has_failed out.new ≡ true) }
{
    keep_entry(out, is_synced, &EntryText::message(at, bytes))
}

// Keeps an answer's status.
fn keep_answer<W: Keeper>(out: &mut W, answer: &[u8]) -> Result<(), JournalFailed>
    ensures kept { KeepsAll (W.held out.old) (W.held out.new) (answer_text answer.now) result }
    ensures put { OnOk result (W.puts out.old out.new (answer_text answer.now)) }
    ensures cause { OnErr result ((W.has_failed out.new ≡ true) ⊎ LacksStatus answer.now) }
{
    match status_of(answer) {
        Some(status) => out.keep(EntryText::answer(status).bytes()),
        None => Err(JournalFailed),
    }
}

// Keeps an entry, and makes it last if `is_synced`.
fn keep_entry<W: Keeper>(
    out: &mut W,
    is_synced: bool,
    entry: &EntryText,
) -> Result<(), JournalFailed>
    requires { (e : Entry) × IsEntry e × (entry.now.text.items ≡ text_of e) }
    ensures kept { KeepsAll (W.held out.old) (W.held out.new) entry.now.text.items result }
    ensures put { OnOk result (W.puts out.old out.new entry.now.text.items) }
    ensures lasts { OnOk result (Lasts is_synced (W.lasting out.new) (W.held out.new)) }
    ensures cause { OnErr result (W.has_failed out.new ≡ true) }
{
    match out.keep(entry.bytes()) {
        Ok(()) => make_last(out, is_synced),
        Err(unkept) => Err(unkept),
    }
}

// Records that the journal ended well, and makes it last if `is_synced`.
fn keep_end<W: Keeper>(out: &mut W, is_synced: bool) -> Result<(), JournalFailed>
    ensures kept { KeepsAll (W.held out.old) (W.held out.new) [] result }
    ensures ended { OnOk result (W.ends out.old out.new) }
    ensures lasts { OnOk result (Lasts is_synced (W.lasting out.new) (W.held out.new)) }
    ensures cause { OnErr result (W.has_failed out.new ≡ true) }
{
    match out.end() {
        Ok(()) => make_last(out, is_synced),
        Err(unkept) => Err(unkept),
    }
}

// Makes all that was kept last if `is_synced`.
fn make_last<W: Keeper>(out: &mut W, is_synced: bool) -> Result<(), JournalFailed>
    ensures held { W.held out.new ≡ W.held out.old }
    ensures put { (first : W) (entry : List ℕ) → W.puts first out.old entry
        → W.puts first out.new entry }
    ensures ended { (first : W) → W.ends first out.old → W.ends first out.new }
    ensures lasts { OnOk result (Lasts is_synced (W.lasting out.new) (W.held out.new)) }
    ensures cause { OnErr result (W.has_failed out.new ≡ true) }
{
    if !is_synced {
        return Ok(());
    }
    if out.sync() {
        Ok(())
    } else {
        Err(JournalFailed)
    }
}
