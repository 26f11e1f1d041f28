//! What needs an eye, by rank: the first is the most urgent.
ghost use Rattle.std.specs.Prelude.{◌≡◌};
ghost use Rattle.room_types.specs.Codes.{Decodes};
ghost use Rattle.room_types.specs.Ranks.{is_past, is_timed, limit_of, rank_number, subject_of};

/// What an entry of the queue is about, the most urgent first.
#[derive(Clone, Copy, PartialEq, Eq, PartialOrd, Ord)]
pub enum Rank {
    /// An active incident that nobody serves.
    Unserved,
    /// An order that its crew has not acknowledged.
    Unacknowledged,
    /// A vehicle that should be at the scene by now.
    LateForScene,
    /// A report out of turn.
    OutOfTurn,
    /// A loan that is over.
    Overdue,
    /// A vehicle that is on duty though its shift is over.
    ShiftOver,
    /// A standby point that is short of cover.
    Uncovered,
    /// An offer that nobody answers.
    Unanswered,
}

/// What the number of an entry is of.
#[derive(Clone, Copy, PartialEq, Eq)]
pub enum Subject {
    Incident,
    Report,
    /// The other division of a loan or an offer.
    Division,
    /// The number is 0.
    Nothing,
    Point,
}

impl Rank {
    /// The number of the rank: 1 to 8.
    pub fn number(self) -> u8
        ensures { result ≡ rank_number self }
    {
        match self {
            Rank::Unserved => 1,
            Rank::Unacknowledged => 2,
            Rank::LateForScene => 3,
            Rank::OutOfTurn => 4,
            Rank::Overdue => 5,
            Rank::ShiftOver => 6,
            Rank::Uncovered => 7,
            Rank::Unanswered => 8,
        }
    }

    /// The rank of this number; none where it is not 1 to 8.
    pub fn from_number(number: u8) -> Option<Rank>
        ensures { Decodes rank_number number result }
    {
        match number {
            1 => Some(Rank::Unserved),
            2 => Some(Rank::Unacknowledged),
            3 => Some(Rank::LateForScene),
            4 => Some(Rank::OutOfTurn),
            5 => Some(Rank::Overdue),
            6 => Some(Rank::ShiftOver),
            7 => Some(Rank::Uncovered),
            8 => Some(Rank::Unanswered),
            _ => None,
        }
    }

    /// After how many seconds it needs an eye, where that is the same for all of the rank: how
    /// long a vehicle may take to a scene is by the incident's class.
    pub fn limit(self) -> Option<u32>
        ensures { result ≡ limit_of self }
    {
        match self {
            Rank::Unserved => Some(180),
            Rank::Unacknowledged => Some(60),
            Rank::Unanswered => Some(300),
            Rank::LateForScene
            | Rank::OutOfTurn
            | Rank::Overdue
            | Rank::ShiftOver
            | Rank::Uncovered => None,
        }
    }

    /// Whether so many seconds are more than the rank's own limit; never where it has none.
    pub fn is_past(self, seconds: u32) -> bool
        ensures { result ≡ is_past self seconds }
    {
        match self.limit() {
            Some(limit) => seconds > limit,
            None => false,
        }
    }

    /// What the number of an entry is of.
    pub fn subject(self) -> Subject
        ensures { result ≡ subject_of self }
    {
        match self {
            Rank::Unserved | Rank::Unacknowledged | Rank::LateForScene => Subject::Incident,
            Rank::OutOfTurn => Subject::Report,
            Rank::Overdue | Rank::Unanswered => Subject::Division,
            Rank::ShiftOver => Subject::Nothing,
            Rank::Uncovered => Subject::Point,
        }
    }

    /// Whether an entry has a moment that it counts from: since when a point is short is not known.
    pub fn is_timed(self) -> bool
        ensures { result ≡ is_timed self }
    {
        match self {
            Rank::Uncovered => false,
            Rank::Unserved
            | Rank::Unacknowledged
            | Rank::LateForScene
            | Rank::OutOfTurn
            | Rank::Overdue
            | Rank::ShiftOver
            | Rank::Unanswered => true,
        }
    }
}
