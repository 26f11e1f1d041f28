//! The control room, as a program. Without words it is the dry run: the example room in memory,
//! its messages from standard input, its answers to standard output. With words it is a command
//! over a room's file.
#![tactic(auto)]

ghost use Rattle.std.specs.Prelude.{◌≡◌, ◌≢◌, ◌≤◌, ◌<◌, IfErr, IfOk, Err, length, map};
ghost use Rattle.std.specs.Prelude.{string_bytes};
ghost use Rattle.std.specs.IoError.{error_kind};
ghost use Rattle.dispatch_room_exit.specs.ExitStatus.{status_after};
ghost use Rattle.dispatch_room_exit.specs.declared.exit_status.Failure.TheVariants.{Memory};
ghost use Rattle.dispatch_room_commands.specs.TaskSteps.{IsCommand};
ghost use Rattle.dispatch_room_dry_run.specs.DryRunEnds.{IsRun};

use dispatch_room_commands::commands::{USAGE, command};
use dispatch_room_dry_run::standard_streams::run;
use dispatch_room_exit::exit_status::{Failure, end};
use std::env;
use std::io::{self, ErrorKind, Write};
use std::process::ExitCode;

fn main(rt: HostRuntime) -> ExitCode {
    let words = arguments(&rt);
    let status = program(&rt, &words, &mut rt.stdout(), &mut rt.stderr());
    ExitCode::from(status)
}

// The program, and its exit status: the dry run, or what the words ask for. The program's name is
// the first of them.
fn program<O: Write, E: Write>(
    rt: &HostRuntime,
    words: &io::Result<Vec<String>>,
    out: &mut O,
    err: &mut E,
) -> u8
    ensures none { IfOk words.now (λ words. length words.items ≤ 1 → IsRun result) }
    ensures asked { IfOk words.now (λ words. 1 < length words.items
        → IsCommand (map string_bytes words.items) (O.contents out.old) (O.contents out.new)
        result) }
    ensures unread { IfErr words.now (λ error. error_kind error ≡ ErrorKind.InvalidData
        → result ≡ USAGE) }
    ensures memory { IfErr words.now (λ error. error_kind error ≢ ErrorKind.InvalidData
        → result ≡ status_after (Err Memory)) }
{
    match words {
        Ok(words) if words.len() <= 1 => run(rt),
        Ok(words) => command(rt, rt.alloc(), words.as_slice(), out, err),
        Err(error) if error.kind() == ErrorKind::InvalidData => {
            let _ = writeln!(
                err,
                "error: invalid UTF-8 was detected in one or more arguments"
            );
            USAGE
        }
        Err(_) => end(Err(Failure::Memory), err),
    }
}

// The words of the command line, the program's name first.
fn arguments(rt: &HostRuntime) -> io::Result<Vec<String>> {
    Ok(env::args(rt)?.collect(rt.alloc())?)
}
