//! Only the prover needs this to be a crate of its own.
//! The dry run as a program of its own: what `dispatch_room` is without words. So the first answer
//! waits for the proof of no command.
#![tactic(auto)]

ghost use Rattle.std.specs.Process.{exit_status};
ghost use Rattle.dispatch_room_dry_run.specs.DryRunEnds.{IsRun};

use dispatch_room_dry_run::standard_streams::run;
use std::process::ExitCode;

fn main(rt: HostRuntime) -> ExitCode {
    dry_run(&rt)
}

// The dry run, and the exit status by how it ended.
fn dry_run(rt: &HostRuntime) -> ExitCode
    ensures { IsRun (exit_status result) }
{
    ExitCode::from(run(rt))
}
