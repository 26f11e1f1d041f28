//! What a command line asks for. Files are named by their paths.

use room_place::plans::DivisionNumber;
use room_types::asks::Who;
use room_types::numbers::{Moment, Number};
use std::net::SocketAddr;

/// A command with all that it needs.
#[derive(Clone, Copy)]
pub enum Task<'a> {
    /// A room is created in a file.
    Init {
        file: &'a str,
        plan: &'a str,
    },
    /// The rows of a fleet are enrolled in a room, and before that kept in a list, if one is given.
    Import {
        file: &'a str,
        fleet: &'a str,
        list: Option<&'a str>,
    },
    /// A room of the first version is moved to this one.
    Migrate {
        file: &'a str,
    },
    /// A room is served at an address.
    Serve {
        file: &'a str,
        service: Service<'a>,
    },
    /// A journal is replayed to a room.
    Replay {
        file: &'a str,
        replay: Replay,
    },
    /// How much a journal holds is reported, or the first record at which it is none.
    Verify {
        list: &'a str,
    },
    /// What is wrong with a room's file is reported.
    Check {
        file: &'a str,
    },
    /// A room gets the plan of a file, which before that is kept in a list, if one is given.
    Replan {
        file: &'a str,
        plan: &'a str,
        list: Option<&'a str>,
    },
    /// The digest of a room is printed.
    Digest {
        file: &'a str,
    },
    /// A copy of a room is put in the place of a file.
    Restore {
        copy: &'a str,
        file: &'a str,
    },
    /// A new room is made of an old one, since a day.
    Renew {
        file: &'a str,
        new: &'a str,
        since: &'a str,
    },
    /// The board of a desk is shown.
    Board {
        look: Look<'a>,
    },
    /// The report of a division's day is written.
    Times {
        file: &'a str,
        division: DivisionNumber,
        day: &'a str,
    },
    /// The report of a division's day over two rooms is written, of which the first was made of the
    /// older one.
    JoinedTimes {
        file: &'a str,
        older: &'a str,
        division: DivisionNumber,
        day: &'a str,
    },
    /// The terminals of a room are listed, or those of one user changed; the change is before that
    /// kept in a list, if one is given.
    Terminals {
        file: &'a str,
        wanted: Terminals,
        list: Option<&'a str>,
    },
    /// Everyone whom a plan or a fleet names gets the tokens that it gives; before that this is
    /// kept in a list, if one is given.
    SetTerminals {
        file: &'a str,
        csv: &'a str,
        list: Option<&'a str>,
    },
}

impl<'a> Task<'a> {
    ghost use Rattle.std.specs.Prelude.{◌≡◌};
    ghost use Rattle.std.specs.Option.{option_map};
    ghost use Rattle.dispatch_room_cli.specs.Tasks.{file_of};

    /// The room's file: none of a board, which knows only where a room is served, and none of a
    /// list.
    pub fn file(&self) -> Option<&'a str>
        ensures { option_map (λ file. file.now) result ≡ file_of self.now }
    {
        match *self {
            Task::Init { file, .. }
            | Task::Import { file, .. }
            | Task::Migrate { file }
            | Task::Check { file }
            | Task::Digest { file }
            | Task::Restore { file, .. }
            | Task::Serve { file, .. }
            | Task::Replay { file, .. }
            | Task::Terminals { file, .. }
            | Task::SetTerminals { file, .. }
            | Task::Replan { file, .. }
            | Task::Renew { file, .. } => Some(file),
            Task::Times { file, .. } | Task::JoinedTimes { file, .. } => Some(file),
            Task::Board { .. } | Task::Verify { .. } => None,
        }
    }
}

/// Where a room is served, how much, and how long it waits.
#[derive(Clone, Copy)]
pub struct Service<'a> {
    /// Where it listens: an address of this machine only.
    pub address: SocketAddr,
    /// How many connections it serves, one after another. With 2^64 - 1, the default, it goes on
    /// until it is stopped.
    pub connections: u64,
    /// How many milliseconds it waits for the first byte of a message, where the number of
    /// connections is given.
    pub idle: u16,
    /// How many seconds a connection may be silent where the service goes on until it is stopped.
    pub keep: u16,
    /// How many seconds a message has from its first byte, and an answer.
    pub patience: u16,
    /// Whether the paths of history are served.
    pub history: bool,
    /// Whether a line is written to standard error for each message.
    pub log: bool,
    /// Where each message is kept, if it is.
    pub journal: Option<Journal<'a>>,
}

/// The file of a journal, and how it is kept.
#[derive(Clone, Copy)]
pub struct Journal<'a> {
    pub list: &'a str,
    /// Whether each record is on the disk before the room acts on it, or when the system writes it.
    pub is_synced: bool,
    /// Whether questions are kept too, which change nothing.
    pub keeps_questions: bool,
}

/// How much of a journal is replayed, and what is reported of it.
#[derive(Clone, Copy)]
pub struct Replay {
    /// The last moment that is replayed; none, the default, replays all.
    pub until: Option<Moment>,
    /// Whether each message is played as it comes, and its answer written.
    pub answers: bool,
    /// Whether the paths of history were served.
    pub history: bool,
    /// Whether the list may end within a record, as one that is still written.
    pub open: bool,
    /// Whether the digest of the room is printed at the end.
    pub digest: bool,
}

/// What is done to the terminals of a room.
#[derive(Clone, Copy)]
pub enum Terminals {
    /// Who has one is listed.
    List,
    /// This user gets a new token, and the old ones are refused.
    New(Who),
    /// The tokens of this user are refused.
    Revoke(Who),
}

/// Which desk's board is shown, of which served room, and how.
#[derive(Clone, Copy)]
pub struct Look<'a> {
    /// Where the room is served.
    pub address: &'a str,
    /// Whether it may be another machine, which gets the token in plain HTTP.
    pub plain: bool,
    /// Where the token of the desk stands.
    pub token: TokenPlace<'a>,
    /// The incident that is shown too, with what came of it and whom to send.
    pub incident: Option<Number>,
    /// How many seconds it takes in all, at most.
    pub patience: u16,
    pub color: Color,
}

/// Where the token of a desk stands.
#[derive(Clone, Copy)]
pub enum TokenPlace<'a> {
    /// It is a word of the command line, which others on the machine can see.
    Word(&'a str),
    /// It is the first line of a file.
    File(&'a str),
}

/// Whether a board has colours.
#[derive(Clone, Copy, PartialEq, Eq)]
pub enum Color {
    /// Only on a terminal.
    Auto,
    Always,
    Never,
}
