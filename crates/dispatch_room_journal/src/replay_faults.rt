//! Why a replay stops.

use room_types::refusal_statuses::Refusal;

/// Why a replay stops.
#[derive(Clone, Copy)]
pub enum ReplayFault {
    /// What stands there is no journal, or a message of it is none.
    Bad,
    /// A message is answered with another status than the journal gives.
    Differs,
    /// The journal goes on at another room.
    OtherRoom,
    /// A read failed.
    ReadFailed,
    /// A write failed, or took nothing.
    WriteFailed,
    /// Memory was refused, or storage failed.
    Unavailable(Refusal),
}

/// Why a replay stopped, and at which message.
#[derive(Clone, Copy)]
pub struct Stopped {
    pub fault: ReplayFault,
    /// The number of the message at which it stopped, from 1: the one after those that were done
    /// with. It stops at the greatest of its type.
    pub number: u64,
}
