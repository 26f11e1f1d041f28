//! The journal of a served room: each message that it answered, at its moment, as it came.
//!
//! A journal is a text of entries, one after another. An entry is a line, and after the line of a
//! message its bytes and a line end:
//!
//! ```text
//! room 2 9f86d0..0a08          a part begins, at a room whose rows have this digest
//! message 1774771200 231       a message came at this moment, of so many bytes
//! POST /call HTTP/1.1 ..       its bytes
//! answer 200                   its answer's status
//! ```
//!
//! A line `room 1 ..` gives the digest of all rows but that of the zone.
//!
//! An `EntryText` is the text of an entry, and `read_entry` reads entries again in the memory of
//! one message.
//!
//! A replay plays the messages of a journal, at their moments, to a room that stands where the
//! journal begins, and compares their answers with those that it has.
//!
//! A journal may be a chain of records: each has a check of itself and of all before it, so that a
//! byte that changed, or a record that was lost or came twice, is found at its record.
//!
//! ```text
//! list 2
//! 00072 5f1c..07               a record of 72 bytes, and its check: SHA-256, in digits, of the
//! room 2 9f86d0..0a08          check before it and of the record; before the first, 64 zeros
//! 00254 88ab..1e
//! message 1774771200 231
//! POST /call HTTP/1.1 ..
//! ```
//!
//! Where the list ended well, its last record is a line `end`. A record `row ..` is a line of the
//! fleet's file, which an import puts there. Neither is an entry.
//!
//! `ListSource` reads what the records say, and a byte with which no entry begins where a record is
//! not the one that comes next: all that a list says, over the rows in it, or one segment after
//! another, each up to the next row, and the rows between them. `put_record` writes a record, and
//! `verify` looks a whole list through.
//!
//! Why it is so. Two rooms that are asked the same at the same moments are one room, so a list of
//! messages is a copy of a room, and a way to look back. A message is kept before the room acts on
//! it, and its status before the answer is written. Were it the other way round, a stop could
//! leave a room that no list leads to. A replay compares only statuses, as the bytes are the
//! machine's by proof.
//!
//! What holds. A text is the text of one list only. Equal rooms that replay it answer and end
//! alike. A replay leads to the room that was served, if each message that changes a room changes
//! its digest. A check covers its record and all before it.
//!
//! Traps. A message without a status was done or was not, and only the next part's digest shows
//! which; at the list's end nobody was answered, and it is left out. A check names where a list
//! changed, and not what stood there. Sizes stand outside the checks, so that lists already
//! written are read. After a power cut a list may end within a record: only the beginning of one
//! is cut off, and it is set aside first.
#![tactic(auto)]

pub mod answer_frames;
pub mod answer_statuses;
pub mod answer_writers;
pub mod chain_laws;
pub mod cut_records;
pub mod entry_lines;
pub mod entry_prefixes;
pub mod entry_reader;
pub mod entry_texts;
pub mod journal_digests;
pub mod journal_inbox;
pub mod journal_messages;
pub mod journal_numbers;
pub mod laws;
pub mod line_prefixes;
mod line_texts;
pub mod list_ends;
pub mod list_source;
pub mod list_tallies;
pub mod next_entry;
pub mod played_message;
pub mod read_progress;
pub mod read_steps;
pub mod record_fronts;
pub mod record_headers;
pub mod record_inbox;
pub mod record_writer;
pub mod replay_faults;
pub mod replay_laws;
pub mod replay_outcomes;
pub mod replay_progress;
pub mod replayed_journal;
pub mod row_runs;
pub mod streamed_messages;
pub mod verification;
pub mod whole_entries;
pub mod whole_records;
