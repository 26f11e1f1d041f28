//! A log of what is served: a line for each message.
ghost use Rattle.std.specs.Prelude.{◌≡◌, ◌-◌, ◌/◌, [], IfSome, None, codes, false};
ghost use Rattle.std.specs.Duration.{as_nanos};
ghost use Rattle.dispatch_room_journal.specs.JournalRecords.{status_in};
ghost use Rattle.dispatch_room_serving.specs.LoggedLines.{Logs, PutsAll, PutsLine, request_of};
ghost use Rattle.dispatch_room_serving.specs.Logs.{asked_by};

use crate::log_lines::{Asker, LogLine, RefusedBody, Request, Visible, path_of, utc};
use dispatch_room_exit::failure_causes::Explainer;
use dispatch_room_journal::answer_statuses::status_in;
use room_http::arrivals::Arrived;
use room_http::observers::{Asked, JournalFailed, Observer};
use room_http_requests::body_faults::{BodyFault, fault_of};
use room_http_requests::router::Routes;
use room_types::numbers::Moment;
use std::alloc::Global;
use std::io::{ErrorKind, Write};
use std::time::{Clock, Duration};

// How often a write of a line is tried, at most.
const MOST_TRIES: u32 = u32::MAX;

/// A log, with a line for each message that is answered: the moment of its answer, who asked, its
/// method and path, the status, and the milliseconds from the whole message to the written answer,
/// as `2026-03-29T08:15:00Z desk 1 GET /queue 200 3 ms`. It has no token but one that stands in the
/// method or the path. What is wrong with a body that is refused is explained after its line.
#[derive(Drop)]
pub struct Log<'a, E, T> {
    alloc: Global,
    clock: &'a T,
    explainer: Explainer<'a>,
    out: &'a mut E,
    goes_on: bool,
    began: Duration,
}

impl<'a, E: Write, T: Clock> Log<'a, E, T> {
    /// A log that is written, or one that is not.
    pub fn new(
        alloc: Global,
        clock: &'a T,
        explainer: Explainer<'a>,
        out: &'a mut E,
        is_written: bool,
    ) -> Log<'a, E, T>
        ensures { result.goes_on ≡ is_written }
    {
        Log {
            alloc,
            clock,
            explainer,
            out,
            goes_on: is_written,
            began: Duration::ZERO,
        }
    }

    /// A message has arrived: its time begins.
    pub fn begin(&mut self) {
        self.began = self.now();
    }

    // The time of a clock that is never set back: none passes where it can't be read.
    fn now(&self) -> Duration {
        self.clock.monotonic().unwrap_or(self.began)
    }

    // Writes a line at once, and returns whether it could.
    fn put(&mut self, asked: &Asked<'_>, answer: &[u8]) -> bool
        ensures { PutsLine result (E.contents self.old.out.now) (E.contents self.new.out.now)
            asked.now answer.now }
    {
        let line = LogLine {
            at: utc(asked.at),
            asker: Asker { who: asked.who },
            request: request_of(asked.arrived),
            status: Visible {
                bytes: status_in(answer),
            },
            millis: millis_between(self.began, self.now()),
        };
        match format!(in self.alloc; "{line}\n") {
            Ok(line) => put_all(self.out, line.as_bytes()),
            Err(_) => false,
        }
    }
}

// The milliseconds from one time of a clock to another.
fn millis_between(began: Duration, now: Duration) -> u128
    ensures { result ≡ (as_nanos now - as_nanos began) / 1_000_000 }
{
    now.saturating_sub(began).as_millis()
}

// What is wrong with a body that was refused for it: no other message is answered with this status.
fn refused_body<'a>(
    alloc: Global,
    asked: &Asked<'a>,
    answer: &[u8],
) -> Option<RefusedBody<'a, BodyFault>>
    ensures request { IfSome result (λ body.
        asked_by body.request ≡ request_of asked.now.arrived.now) }
    ensures status { IfSome result (λ body. status_in answer.now ≡ codes "400") }
{
    if status_in(answer) == b"400".as_slice()
        && let Arrived::Message { message, .. } = asked.arrived
        && let Ok(routes) = Routes::new(alloc)
        && let Ok(target) = routes.route(true, message.method, message.target)
        && let Some(fault) = fault_of(alloc, &target, message.body)
    {
        return Some(RefusedBody {
            request: request_of(asked.arrived),
            fault,
        });
    }
    None
}

// Writes all the bytes, and returns whether it could. A write that a signal interrupts is tried
// again.
fn put_all<E: Write>(out: &mut E, bytes: &[u8]) -> bool
    ensures { PutsAll result (E.contents out.old) (E.contents out.new) bytes.now }
{
    let mut written = 0;
    'tries: for _try in 0..MOST_TRIES {
        if written == bytes.len() {
            return true;
        }
        match out.write(&bytes[written..]) {
            Ok(0) => return false,
            Ok(count) => written += count,
            Err(error) if error.kind() == ErrorKind::Interrupted => {}
            Err(_) => return false,
        }
    }
    false
}

// The method and the path of a message.
fn request_of<'a>(arrived: &Arrived<'a>) -> Request<'a>
    ensures { asked_by result ≡ request_of arrived.now }
{
    match arrived {
        Arrived::Message { message, .. } => Request::Message {
            method: Visible {
                bytes: message.method,
            },
            path: Visible {
                bytes: path_of(message.target),
            },
        },
        Arrived::Refused { .. } => Request::Unread,
    }
}

impl<'a, E: Write, T: Clock> Observer for Log<'a, E, T> {
    ghost held = { λ _. None };

    // A log that can't be written is given up, and that is not reported.
    ghost has_failed = { λ _. false };

    ghost came = { λ _ _. [] };

    ghost response = { λ _. [] };

    // The line is written, unless there is no log, or it was given up.
    ghost notes = { λ old new asked answer. Logs old.goes_on new.goes_on (E.contents old.out.now)
        (E.contents new.out.now) asked answer };

    fn arrived(&mut self, _arrived: &Arrived<'_>, _at: Moment) -> Result<(), JournalFailed> {
        self.begin();
        Ok(())
    }

    fn answering(&mut self, _arrived: &Arrived<'_>, _answer: &[u8]) -> Result<(), JournalFailed> {
        Ok(())
    }

    fn answered(&mut self, asked: &Asked<'_>, answer: &[u8]) {
        if self.goes_on {
            self.goes_on = self.put(asked, answer);
            if let Some(body) = refused_body(self.alloc, asked, answer) {
                self.explainer.explain(body);
            }
        }
    }
}
