//! Why no further message was read.

use room_types::refusal_statuses::Refusal;

/// Why no message was read.
#[derive(Clone, Copy, PartialEq, Eq)]
pub enum Unread {
    /// The stream ended between messages.
    End,
    /// The stream ended within a message.
    Cut,
    /// A read failed.
    ReadFault,
    /// The reads that were granted are used up.
    ReadsSpent,
    /// What stands at the front is refused with one of `BadMessage`, `HeadTooLong`, `BodyTooLong`,
    /// `Expectation` and `Coding`. The answer has no content where `head_only` is true: the head
    /// was read whole, and its method is HEAD.
    Refused { refusal: Refusal, head_only: bool },
}
