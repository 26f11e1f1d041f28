//! A connection that the example room serves.
ghost use Rattle.std.specs.Prelude.{◌≡◌, false, IfOk, IfErr, OnOk, OnErr};
ghost use Rattle.room_http.specs.Session.{ReadsAtMost};
ghost use Rattle.room_model.specs.Rooms.{IsUnavailable};
ghost use Rattle.dispatch_room_dry_run.specs.Example.{IsExampleDialogue};

use crate::memory_room::example_room;
use room_http::clocks::Clock;
use room_http::handlers::Handler;
use room_http::observers::Nobody;
use room_http::session::{Connection, ServeEnd, serve};
use room_http::settings::HttpSettings;
use room_http_messages::sinks::Sink;
use room_http_messages::sources::Source;
use room_http_time::zones::Zone;
use room_types::refusal_statuses::Refusal;
use std::alloc::Global;

/// Serves the example room, made anew in memory, on a connection, with at most so many reads. A
/// refusal is lack of memory or of storage; then nothing was read or written, and the clock was not
/// asked.
pub fn serve_example<R: Source, W: Sink, C: Clock>(
    alloc: Global,
    connection: &mut Connection<R, W>,
    clock: &mut C,
    budget: u32,
) -> Result<ServeEnd, Refusal>
    requires reader { R.has_failed connection.old.reader ≡ false }
    requires writer { W.has_failed connection.old.writer ≡ false }
    ensures reads { OnOk result (ReadsAtMost budget (R.reads connection.old.reader)
        (R.reads connection.new.reader)) }
    // What is written is the dialogue of the example room with the messages that are read.
    ensures dialogue { IfOk result (IsExampleDialogue
        (record {
          left = R.left connection.old.reader;
          reads = R.reads connection.old.reader;
          held = W.held connection.old.writer;
          given = C.given clock.old;
        })
        (record {
          reads = R.reads connection.new.reader;
          held = W.held connection.new.writer;
          given = C.given clock.new;
          read_failed = R.has_failed connection.new.reader;
          read_ended = R.has_ended connection.new.reader;
          write_failed = W.has_failed connection.new.writer;
          was_none = C.was_none clock.new;
          observer_failed = false;
        })
        budget) }
    ensures unavailable { IfErr result IsUnavailable }
    ensures unused { OnErr result ((connection.new ≡ connection.old) × (clock.new ≡ clock.old)) }
{
    let mut store = example_room(alloc)?;
    let zone = Zone::read(store.plan().zone()).unwrap();
    let setting = HttpSettings {
        zone,
        history: false,
    };
    let Ok(handler) = Handler::new(alloc, setting) else {
        let _ = store.close();
        return Err(Refusal::Memory);
    };
    let end = serve(&handler, connection, &mut store, clock, &mut Nobody, budget);
    let _ = store.close();
    Ok(end)
}
