//! How far a replay has come.
ghost use Rattle.std.specs.Prelude.{◌≡◌, ◌+◌, min, true, false};

/// How far a replay has come.
#[derive(Clone, Copy)]
pub struct Progress {
    /// The number of the messages, which stops at the greatest of its type.
    pub messages: u64,
    /// Whether the last entry is a message that was left out.
    pub is_open: bool,
    /// Whether a head came.
    pub is_begun: bool,
}

impl Progress {
    /// Nothing came yet.
    pub fn new() -> Progress
        ensures { result ≡ record { messages = 0; is_open = false; is_begun = false } }
    {
        Progress {
            messages: 0,
            is_open: false,
            is_begun: false,
        }
    }

    /// A head came.
    pub fn note_head(&mut self)
        ensures { self.new ≡ record self.old { is_open = false; is_begun = true } }
    {
        self.is_open = false;
        self.is_begun = true;
    }

    /// A message came.
    pub fn note_message(&mut self, is_left_out: bool)
        ensures { self.new ≡ record self.old {
          messages = min (self.old.messages + 1) u64.MAX;
          is_open = is_left_out;
        } }
    {
        self.messages = self.messages.saturating_add(1);
        self.is_open = is_left_out;
    }
}
