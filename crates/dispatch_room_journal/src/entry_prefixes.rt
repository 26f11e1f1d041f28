//! A look at the first bytes of a journal.
ghost use Rattle.std.specs.Prelude.{◌≡◌, ◌++◌, ◌∷◌};
ghost use Rattle.dispatch_room_journal.specs.Entries.{IsLine, line_text};
ghost use Rattle.dispatch_room_journal.specs.EntryPrefixes.{LookIs};

use crate::entry_lines::{EntryLine, cut, line_in};
use crate::line_prefixes::begins_line;

/// Where an entry is in the bytes that begin with it.
#[derive(Clone, Copy)]
pub struct EntryLayout {
    /// What its line says.
    pub line: EntryLine,
    /// Where a message's bytes begin: after the line and its end.
    pub start: usize,
    /// The number of the entry's bytes.
    pub end: usize,
}

/// What the first bytes of a journal are.
#[derive(Clone, Copy)]
pub enum EntryPrefix {
    /// They begin with an entry.
    Whole(EntryLayout),
    /// They end within an entry.
    Part,
    /// They begin with no entry, whatever follows.
    Foreign,
}

/// What the first bytes of a journal are, which begin with this line and its end.
fn look_after(bytes: &[u8], line: EntryLine, rest: &[u8]) -> EntryPrefix
    requires is_one { IsLine line }
    requires first { bytes.now ≡ line_text line ++ 10 ∷ rest.now }
    ensures { LookIs bytes.now result }
{
    let start = bytes.len() - rest.len();
    let EntryLine::Message { size, .. } = line else {
        return EntryPrefix::Whole(EntryLayout {
            line,
            start,
            end: start,
        });
    };
    if rest.len() <= size {
        return EntryPrefix::Part;
    }
    if rest[size] != b'\n' {
        return EntryPrefix::Foreign;
    }
    EntryPrefix::Whole(EntryLayout {
        line,
        start,
        end: start + size + 1,
    })
}

/// What the first bytes of a journal are.
pub fn look_at(bytes: &[u8]) -> EntryPrefix
    ensures { LookIs bytes.now result }
{
    match cut(bytes, b'\n') {
        Some((line, rest)) => match line_in(line) {
            Some(line) => look_after(bytes, line, rest),
            None => EntryPrefix::Foreign,
        },
        None => {
            if begins_line(bytes) {
                EntryPrefix::Part
            } else {
                EntryPrefix::Foreign
            }
        }
    }
}
