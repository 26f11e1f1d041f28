//! The dry run: the example room in memory, served over one connection, always at the same moment.
ghost use Rattle.std.specs.Prelude.{◌≡◌, ℕ, Bool, false, [], Some, replicate, IfOk, IfErr, OnOk};
ghost use Rattle.std.specs.Prelude.{OnErr};
ghost use Rattle.room_http.specs.Session.{ReadsAtMost};
ghost use Rattle.room_model.specs.Rooms.{IsUnavailable};
ghost use Rattle.dispatch_room_dry_run.specs.Example.{IsExampleDialogue};
ghost use Rattle.dispatch_room_dry_run.specs.DryRun.{example_moment, most_reads};

use crate::example_session::serve_example;
use room_http::clocks::FixedClock;
use room_http::session::{Connection, ServeEnd};
use room_http_messages::sinks::Sink;
use room_http_messages::sources::Source;
use room_types::refusal_statuses::Refusal;
use std::alloc::Global;

/// The moment of all that happens in it.
const MOMENT: u64 = 1000;

/// How many reads it makes at most.
const MOST_READS: u32 = 10_000;

/// Serves the example room, made anew in memory, on a connection. A refusal is lack of memory or of
/// storage, and then nothing was read or written.
pub fn dry_run<R: Source, W: Sink>(
    alloc: Global,
    connection: &mut Connection<R, W>,
) -> Result<ServeEnd, Refusal>
    requires reader { R.has_failed connection.old.reader ≡ false }
    requires writer { W.has_failed connection.old.writer ≡ false }
    ensures reads { OnOk result (ReadsAtMost most_reads (R.reads connection.old.reader)
        (R.reads connection.new.reader)) }
    // What is written is the dialogue of the example room with the messages that are read, all at
    // one moment.
    ensures dialogue { IfOk result (λ end. (count : ℕ) × (was_none : Bool) × IsExampleDialogue
        (record {
          left = R.left connection.old.reader;
          reads = R.reads connection.old.reader;
          held = W.held connection.old.writer;
          given = Some [];
        })
        (record {
          reads = R.reads connection.new.reader;
          held = W.held connection.new.writer;
          given = Some
              (replicate count example_moment);
          read_failed = R.has_failed connection.new.reader;
          read_ended = R.has_ended connection.new.reader;
          write_failed = W.has_failed connection.new.writer;
          was_none = was_none;
          observer_failed = false;
        })
        most_reads end) }
    ensures unavailable { IfErr result IsUnavailable }
    ensures unused { OnErr result (connection.new ≡ connection.old) }
{
    let mut clock = FixedClock::<MOMENT>::new();
    let end = serve_example(alloc, connection, &mut clock, MOST_READS)?;
    Ok(end)
}
