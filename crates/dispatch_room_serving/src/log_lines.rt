//! The line of a message in the log.
ghost use Rattle.std.specs.Prelude.{◌≡◌, ◌<◌, ◌*ℤ◌, ◌++◌, Some, codes, pos};
ghost use Rattle.std.specs.Fmt.{◌++?◌};
ghost use Rattle.jiff.specs.Words.{civil_nanos};
ghost use Rattle.dispatch_room_serving.specs.LogLines.{asker_text, path_of, visible, visible_byte};
ghost use Rattle.dispatch_room_serving.specs.Logs.{asked_by, request_text, text_of};

use dispatch_room_journal::entry_lines::cut;
use jiff::Timestamp;
use jiff::civil::DateTime;
use jiff::tz::Offset;
use room_types::asks::Who;
use room_types::callsign::Callsign;
use room_types::numbers::Moment;
use std::fmt;

/// What is visible in ASCII, and a question mark for each other byte.
#[derive(Clone, Copy)]
pub struct Visible<'a> {
    pub bytes: &'a [u8],
}

impl<'a> fmt::Display for Visible<'a> {
    ghost output = { λ shown. Some (visible shown.bytes.now) };

    fn fmt<W: fmt::Write>(&self, f: &mut fmt::Formatter<W>) -> fmt::Result {
        for &byte in self.bytes {
            f.write_char(char::from(visible_byte(byte)))?;
        }
        Ok(())
    }
}

fn visible_byte(byte: u8) -> u8
    ensures value { result ≡ visible_byte byte }
    ensures ascii { result < 128 }
{
    if byte.is_ascii_graphic() { byte } else { b'?' }
}

/// Who asked, if the room knew who it was.
#[derive(Clone, Copy)]
pub struct Asker {
    pub who: Option<Who>,
}

impl fmt::Display for Asker {
    ghost output = { λ asker. Some (asker_text asker.who) };

    fn fmt<W: fmt::Write>(&self, f: &mut fmt::Formatter<W>) -> fmt::Result {
        match &self.who {
            Some(Who::Desk(division)) => write!(f, "desk {}", division.get()),
            Some(Who::Crew(callsign)) => write!(f, "crew {}", callsign.as_str()),
            Some(Who::Position(position)) => write!(f, "position {}", position.get()),
            None => f.write_str("none"),
        }
    }
}

/// The method and the path of a message, or that there is none.
#[derive(Clone, Copy)]
pub enum Request<'a> {
    Message {
        method: Visible<'a>,
        path: Visible<'a>,
    },
    Unread,
}

impl<'a> fmt::Display for Request<'a> {
    ghost output = { λ request. Some (request_text (asked_by request)) };

    fn fmt<W: fmt::Write>(&self, f: &mut fmt::Formatter<W>) -> fmt::Result {
        match self {
            Request::Message { method, path } => write!(f, "{method} {path}"),
            Request::Unread => f.write_str("- -"),
        }
    }
}

/// The line of a message.
#[derive(Clone, Copy)]
pub struct LogLine<'a> {
    /// The moment of its answer, as a clock of UTC shows it.
    pub at: DateTime,
    pub asker: Asker,
    pub request: Request<'a>,
    pub status: Visible<'a>,
    /// The milliseconds that it took.
    pub millis: u128,
}

impl<'a> fmt::Display for LogLine<'a> {
    ghost output = { λ line. Some (text_of line) };

    fn fmt<W: fmt::Write>(&self, f: &mut fmt::Formatter<W>) -> fmt::Result {
        write!(f, "{}Z {} ", self.at, self.asker)?;
        write!(f, "{} {} ", self.request, self.status)?;
        write!(f, "{} ms", self.millis)
    }
}

/// A message whose body was refused, and what is wrong with it.
#[derive(Clone, Copy)]
pub struct RefusedBody<'a, F> {
    pub request: Request<'a>,
    pub fault: F,
}

impl<'a, F: fmt::Display> fmt::Display for RefusedBody<'a, F> {
    ghost output = { λ body. Some (request_text (asked_by body.request) ++ codes ": ")
        ++? F.output body.fault };

    fn fmt<W: fmt::Write>(&self, f: &mut fmt::Formatter<W>) -> fmt::Result {
        write!(f, "{}: {}", self.request, self.fault)
    }
}

/// What a clock of UTC shows at a moment.
pub fn utc(at: Moment) -> DateTime
    ensures { civil_nanos result ≡ pos at *ℤ pos 1_000_000_000 }
{
    match Timestamp::from_second(i64::from(at.get())) {
        Ok(at) => Offset::UTC.to_datetime(at),
        Err(_) => unreachable!(),
    }
}

/// A target up to its parameters.
#[tactic(auto, using(crate::proofs::LogLemmas::path_before, crate::proofs::LogLemmas::path_whole))]
pub fn path_of(target: &[u8]) -> &[u8]
    ensures { result.now ≡ path_of target.now }
{
    match cut(target, b'?') {
        Some((path, _)) => path,
        None => target,
    }
}
