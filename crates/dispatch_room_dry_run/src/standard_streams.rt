//! The dry run over the standard input and output of a program.
ghost use Rattle.std.specs.Prelude.{◌≡◌, [], false, replicate, IfOk, Result, Some};
ghost use Rattle.room_http.specs.declared.session.ServeEnd.{ServeEnd as End};
ghost use Rattle.room_types.specs.declared.refusal_statuses.Refusal.{Refusal as Refused};
ghost use Rattle.dispatch_room_dry_run.specs.DryRun.{example_moment};
ghost use Rattle.dispatch_room_dry_run.specs.DryRunEnds.{IsRun, end_of, ended};
ghost use Rattle.dispatch_room_dry_run.specs.Example.{IsDryRun};

use crate::dry_run::dry_run;
use dispatch_room_exit::exit_status::{Done, Failure, end, refused};
use room_http::session::{Connection, ServeEnd};
use room_http_messages::sinks::Sink;
use room_http_messages::sources::Source;
use room_http_messages::standard_wires::Wire;
use std::alloc::Global;

/// Runs it, reports on standard error why it fails, and returns its exit status.
pub fn run(rt: &HostRuntime) -> u8
    ensures { IsRun result }
{
    let mut connection = Connection {
        reader: Wire::new(rt.stdin()),
        writer: Wire::new(rt.stdout()),
    };
    let done = over_streams(rt.alloc(), &mut connection);
    end(done, &mut rt.stderr())
}

// The dry run over any streams, and why it fails.
fn over_streams<R: Source, W: Sink>(
    alloc: Global,
    connection: &mut Connection<R, W>,
) -> Result<Done, Failure>
    requires reader { R.has_failed connection.old.reader ≡ false }
    requires writer { W.has_failed connection.old.writer ≡ false }
    ensures { (served : Result End Refused) × (result ≡ end_of served) × IfOk served (IsDryRun
        (record {
          left = R.left connection.old.reader;
          reads = R.reads connection.old.reader;
          held = W.held connection.old.writer;
          given = Some [];
        })
        (λ count was_none. record {
          reads = R.reads connection.new.reader;
          held = W.held connection.new.writer;
          given = Some (replicate count example_moment);
          read_failed = R.has_failed connection.new.reader;
          read_ended = R.has_ended connection.new.reader;
          write_failed = W.has_failed connection.new.writer;
          was_none = was_none;
          observer_failed = false;
        })) }
{
    match dry_run(alloc, connection) {
        Ok(end) => ended(end),
        Err(refused_as) => Err(refused(refused_as)),
    }
}

// What the end of serving one connection is to a program that served no more.
fn ended(end: ServeEnd) -> Result<Done, Failure>
    ensures { result ≡ ended end }
{
    match end {
        ServeEnd::Closed => Ok(Done::Whole),
        ServeEnd::Cut | ServeEnd::ClockFault | ServeEnd::ReadsSpent => Err(Failure::Connection),
        ServeEnd::ReadFault | ServeEnd::WriteFault => Err(Failure::Network),
        ServeEnd::Memory => Err(Failure::Memory),
        ServeEnd::JournalFailed => Err(Failure::Journal),
    }
}
