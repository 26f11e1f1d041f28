//! How far a list was read.
ghost use Rattle.std.specs.Prelude.{◌≤◌, length};

use crate::record_fronts::Link;
use crate::record_inbox::RecordInbox;

/// How far a list is to be read.
#[derive(Clone, Copy)]
pub enum Reach {
    /// To its end, over the rows in it.
    Full,
    /// To the next row.
    Segment,
}

/// How far a list was read.
#[derive(Clone, Copy)]
pub enum Mode {
    /// Nothing of it was looked at.
    Fresh(Reach),
    /// It is no chain: its own bytes are its entries.
    Plain(Reach),
    /// It is a chain, and has come so far.
    Chain(Reach, Link),
    /// Nothing that is left says anything.
    Done(Reach),
}

/// What was found of what comes next.
#[derive(Clone, Copy)]
pub enum Step {
    /// More has to be read.
    More,
    /// It was looked at.
    Moved,
    /// A row was passed over.
    Passed,
    /// It is no record that comes next.
    Wrong,
    /// It is the end.
    Ended,
}

/// How far a list was read: the bytes that were read, and how many of those at the front may be
/// given.
#[derive(Drop)]
pub struct JournalCursor {
    pub inbox: RecordInbox,
    pub mode: Mode,
    pub vouched: usize,
    ghost fits: { vouched ≤ length inbox },
}
