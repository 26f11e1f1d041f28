//! What the text of a journal decides by itself. Each law is the contract of a function that does
//! nothing.
ghost use Rattle.dispatch_room_journal.specs.Laws.{IsNoEnd, IsOneEntry, IsOneJournal};

/// A text begins with at most one entry.
pub fn one_entry()
    ensures { IsOneEntry }
{}

/// A text that begins with an entry is not empty there, nor cut short, nor foreign.
pub fn no_end()
    ensures { IsNoEnd }
{}

/// A text is the text of at most one list of entries.
pub fn one_journal()
    ensures { IsOneJournal }
{}
