//! What a list holds.
ghost use Rattle.std.specs.Prelude.{◌≡◌, ◌+◌, ◌++◌, ℕ, List, None, min};

use crate::entry_lines::EntryLine;
use crate::entry_reader::EntryFault;
use room_types::numbers::Moment;

/// When the first message of a list came, and the last.
#[derive(Clone, Copy)]
pub struct Span {
    pub first: Moment,
    pub last: Moment,
}

/// What a list holds.
#[derive(Clone, Copy)]
pub struct Tally {
    /// The number of its messages, which stops at the greatest of its type.
    pub messages: u64,
    /// When they came: none where there is none.
    pub span: Option<Span>,
}

/// Where a text is no list, and why.
#[derive(Clone, Copy)]
pub struct Defect {
    pub fault: EntryFault,
    /// The message at which it is, from 1.
    pub number: u64,
}

impl Tally {
    ghost use Rattle.dispatch_room_journal.specs.ListTallies.{Tallies, moments_by};

    /// Nothing came yet.
    pub fn new() -> Tally
        ensures { result ≡ record { messages = 0; span = None } }
    {
        Tally {
            messages: 0,
            span: None,
        }
    }

    /// An entry with this line came.
    pub fn note(&mut self, line: &EntryLine)
        ensures { (moments : List ℕ) → Tallies self.old moments
            → Tallies self.new (moments ++ moments_by line.now) }
    {
        if let EntryLine::Message { at, .. } = *line {
            self.messages = self.messages.saturating_add(1);
            let first = match self.span {
                Some(span) => span.first,
                None => at,
            };
            self.span = Some(Span { first, last: at });
        }
    }

    /// Where what came is followed by none.
    pub fn defect(&self, fault: EntryFault) -> Defect
        ensures { result ≡ record { fault = fault; number = min (self.now.messages + 1) u64.MAX } }
    {
        Defect {
            fault,
            number: self.messages.saturating_add(1),
        }
    }
}
