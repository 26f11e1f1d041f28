//! What is to be answered.
ghost use Rattle.std.specs.Prelude.{◌≡◌};
ghost use Rattle.room_http.specs.Arrivals.{Arrival, IsShown, is_head_only};
ghost use Rattle.room_http.specs.Arrivals.{is_closing as closes_after};

use room_http_messages::messages::Message;
use room_types::refusal_statuses::Refusal;

/// What is to be answered: a message and its bytes as they came, or what is refused instead of one.
#[derive(Clone, Copy)]
pub enum Arrived<'inbox> {
    Message {
        message: Message<'inbox>,
        bytes: &'inbox [u8],
    },
    Refused {
        refusal: Refusal,
        head_only: bool,
    },
}

impl<'inbox> Arrived<'inbox> {
    /// Whether the answer has no content.
    pub fn head_only(&self) -> bool
        ensures { (o : Arrival) → IsShown self.now o → result ≡ is_head_only o }
    {
        match self {
            Arrived::Message { message, .. } => message.head_only,
            Arrived::Refused { head_only, .. } => *head_only,
        }
    }

    /// Whether the connection closes after the answer.
    pub fn is_closing(&self) -> bool
        ensures { (o : Arrival) → IsShown self.now o → result ≡ closes_after o }
    {
        match self {
            Arrived::Message { message, .. } => message.closing,
            Arrived::Refused { .. } => true,
        }
    }
}
