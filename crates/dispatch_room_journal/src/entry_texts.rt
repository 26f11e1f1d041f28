//! The text of one entry, as it is written.
ghost use Rattle.std.specs.Prelude.{◌≡◌, ◌∷◌, [], ◌++◌, length};
ghost use Rattle.arrayvec.specs.ArrayVec.{array_vec_len};
ghost use Rattle.dispatch_room_journal.specs.Entries.{IsDigest, IsEntry, IsLine, answer, line_text};
ghost use Rattle.dispatch_room_journal.specs.Entries.{message, room, text_of};

use crate::entry_lines::{EntryLine, head_words};
use crate::journal_inbox::ENTRY_ROOM;
use crate::line_texts::append;
use arrayvec::ArrayVec;
use itoa::Buffer;
use room_model::digests::StartDigest;
use room_types::numbers::Moment;

/// The text of one entry, as it is written. It has room for the longest.
#[derive(Drop)]
pub struct EntryText {
    text: ArrayVec<u8, ENTRY_ROOM>,
}

impl EntryText {
    /// That a part begins, at a room whose rows have this digest.
    pub fn room(head: &StartDigest) -> EntryText
        requires { IsDigest head.now.digits }
        ensures { result.text.items ≡ text_of (room head.now) }
    {
        EntryText::line(&EntryLine::Room(*head))
    }

    /// That a message came at a moment: a line, its bytes as they came, and a line end.
    pub fn message(at: Moment, bytes: &[u8]) -> EntryText
        requires { IsEntry (message at bytes.now) }
        ensures { result.text.items ≡ text_of (message at bytes.now) }
    {
        let size = bytes.len();
        let mut entry = EntryText::line(&EntryLine::Message { at, size });
        append(&mut entry.text, bytes);
        append(&mut entry.text, b"\n");
        entry
    }

    /// That the message before was answered with this status.
    pub fn answer(status: u16) -> EntryText
        requires { IsEntry (answer status) }
        ensures { result.text.items ≡ text_of (answer status) }
    {
        EntryText::line(&EntryLine::Answer(status))
    }

    // A line and its end.
    fn line(line: &EntryLine) -> EntryText
        requires { IsLine line.now }
        ensures text { result.text.items ≡ line_text line.now ++ 10 ∷ [] }
        ensures len { array_vec_len result.text ≡ length (line_text line.now ++ 10 ∷ []) }
    {
        let mut text = ArrayVec::new();
        add_line(&mut text, line);
        append(&mut text, b"\n");
        EntryText { text }
    }

    /// Its bytes.
    pub fn bytes(&self) -> &[u8]
        ensures { result.now ≡ self.now.text.items }
    {
        self.text.as_slice()
    }
}

// Puts a line without its end into an empty text.
fn add_line(text: &mut ArrayVec<u8, ENTRY_ROOM>, line: &EntryLine)
    requires is_one { IsLine line.now }
    requires empty { text.old.items ≡ [] }
    requires none { array_vec_len text.old ≡ 0 }
    ensures items { text.new.items ≡ line_text line.now }
    ensures len { array_vec_len text.new ≡ length (line_text line.now) }
{
    match line {
        EntryLine::Room(head) => {
            append(text, head_words(head.version));
            append(text, &head.digits);
        }
        EntryLine::Message { at, size } => {
            append(text, b"message ");
            append(text, Buffer::new().format(at.get()).as_bytes());
            append(text, b" ");
            append(text, Buffer::new().format(*size).as_bytes());
        }
        EntryLine::Answer(status) => {
            append(text, b"answer ");
            append(text, Buffer::new().format(*status).as_bytes());
        }
    }
}
