//! The commands over a room's file: what they write, and the exit status.
ghost use Rattle.std.specs.Prelude.{◌≡◌, MatchBool, Result, map, string_bytes, true};
ghost use Rattle.clap.specs.Words.{kind_of};
ghost use Rattle.clap.specs.declared.error.Error.{Error as Mistake};
ghost use Rattle.clap.specs.declared.error.ErrorKind.TheVariants.{OutOfMemory};
ghost use Rattle.dispatch_room_commands.specs.CommandEnds.{IsHelpDone, IsWordsOutput};
ghost use Rattle.dispatch_room_commands.specs.CommandEnds.{IsWordsStatus, is_mistake};
ghost use Rattle.dispatch_room_commands.specs.TaskSteps.{IsAskedBy, IsExit, IsExitHere, IsImportOf};
ghost use Rattle.dispatch_room_commands.specs.TaskSteps.{IsTask};
ghost use Rattle.dispatch_room_disk.specs.CommandSteps.{at};
ghost use Rattle.dispatch_room_cli.specs.ExplainedFailures.{Explains};
ghost use Rattle.dispatch_room_cli.specs.declared.tasks.Task.{Task as Asked};
ghost use Rattle.dispatch_room_disk.specs.SystemFiles.{system};

use crate::board::board;
use crate::check::check;
use crate::digest::digest;
use crate::joined_times::joined_times;
use crate::migrate::migrate;
use crate::renew::renew;
use crate::replay::replay;
use crate::restore::restore;
use crate::task_causes::explain;
use crate::times::times;
use crate::verify::verify_list;
use clap::Error;
use clap::error::ErrorKind;
use dispatch_room_changes::files::is_open_to_others;
use dispatch_room_changes::import::import;
use dispatch_room_changes::init::init;
use dispatch_room_changes::kept_changes::ChangedFile;
use dispatch_room_changes::kept_import::import_kept;
use dispatch_room_changes::replan::replan;
use dispatch_room_changes::terminals::{set_terminals, terminals};
use dispatch_room_cli::argument_parser;
use dispatch_room_cli::tasks::Task;
use dispatch_room_exit::exit_status::{Done, Failure, end};
use dispatch_room_exit::failure_causes::Explainer;
use dispatch_room_tcp::hosts::{Host, Machine};
use dispatch_room_tcp::serve::serve_file;
use std::alloc::Global;
use std::io::{IsTerminal, Write};

/// The exit status of a mistake in the words of the command line.
pub const USAGE: u8 = 2;

/// The words of a command line.
pub trait Asks<'a> {
    // What they may be read as.
    ghost reads: { Self → Result Asked Mistake → Type 0 };

    // That they ask that a failure be explained.
    ghost asks_why: { Self → Type 0 };

    /// What they ask for: a task, or help. Else they have a mistake, or memory was refused.
    fn read(self, alloc: Global) -> Result<Task<'a>, Error>
        ensures { reads self result };

    /// Whether they ask that a failure be explained.
    fn explains(&self) -> bool
        ensures { MatchBool result (asks_why self.now) (¬ (asks_why self.now)) };
}

// A task is the one that the words ask for. Whatever is served by them, is served to this machine.
impl<'a> Asks<'a> for &'a [String] {
    ghost reads = { λ words asked. IsAskedBy (map string_bytes words.now) asked };

    ghost asks_why = { λ words. Explains (map string_bytes words.now) };

    fn read(self, alloc: Global) -> Result<Task<'a>, Error> {
        argument_parser::read(alloc, self)
    }

    fn explains(&self) -> bool {
        argument_parser::explains(self)
    }
}

/// Does what the words of a command line ask for, the program's name first. Results are printed to
/// `out`; to `err` why it fails, a warning where others can read or write the room's file, and
/// the log of what is served. On a terminal, and where the words ask for it, a failure is explained
/// before it is named. Returns the exit status: 0 done, or help asked for; 1 refused input; 2 usage;
/// 3 storage; 4 network; 5 memory; 6 journal.
pub fn command<'a, W: Asks<'a>, O: Write, E: Write>(
    rt: &HostRuntime,
    alloc: Global,
    words: W,
    out: &mut O,
    err: &mut E,
) -> u8
    ensures { (asked : Result Asked Mistake) × W.reads words asked
        × IsExitHere asked (O.contents out.old) (O.contents out.new) result }
{
    let host = host_of(rt, alloc, &words);
    let mut machine = host;
    exit(host, &mut machine, words.read(alloc), out, err)
}

// What a command runs on. Failures are explained where the words ask for that.
fn host_of<'a, 'b, W: Asks<'b>>(rt: &'a HostRuntime, alloc: Global, words: &W) -> Host<'a>
    ensures { W.asks_why words.now → result.explainer.is_wanted ≡ true }
{
    Host {
        rt,
        explainer: explainer_of(rt, words.explains()),
        alloc,
    }
}

// Failures are explained on a terminal, and where that is asked for.
fn explainer_of(rt: &HostRuntime, is_asked_for: bool) -> Explainer<'_>
    ensures { is_asked_for ≡ true → result.is_wanted ≡ true }
{
    Explainer::new(rt, is_asked_for || rt.stderr().is_terminal())
}

// Does a task, or reports what the words are in its place, and returns the exit status.
fn exit<M: Machine, O: Write, E: Write>(
    host: Host<'_>,
    machine: &mut M,
    asked: Result<Task<'_>, Error>,
    out: &mut O,
    err: &mut E,
) -> u8
    ensures { IsExit system M.heard M.File.Write.contents M.File.lasting asked.entry
        (at (O.contents out.old) (M.done machine.old))
        (at (O.contents out.new) (M.done machine.new)) result }
{
    match asked {
        Ok(task) => {
            if let Some(file) = task.file() {
                warn(host.rt, file, err);
            }
            let done = perform(host, machine, &task, out, err);
            explain(host.explainer, &task, &done);
            end(done, err)
        }
        Err(error) => refuse(&error, out, err),
    }
}

// Warns where others than its owner can read or write the room's file.
fn warn<E: Write>(rt: &HostRuntime, file: &str, err: &mut E) {
    if is_open_to_others(rt, file) {
        let _ = writeln!(
            err,
            "warning: others can read or write {file}, which holds the token of each terminal: \
             chmod 600 {file}*"
        );
    }
}

fn perform<M: Machine, O: Write, E: Write>(
    host: Host<'_>,
    machine: &mut M,
    task: &Task<'_>,
    out: &mut O,
    err: &mut E,
) -> Result<Done, Failure>
    ensures { IsTask system M.heard M.File.Write.contents M.File.lasting task.now
        (at (O.contents out.old) (M.done machine.old))
        (at (O.contents out.new) (M.done machine.new)) result }
{
    let explainer = host.explainer;
    match *task {
        Task::Init { file, plan } => init(explainer, machine, file, plan, out),
        Task::Import { file, fleet, list } => {
            import_fleet(explainer, machine, ChangedFile { file, list }, fleet, out)
        }
        Task::Replan { file, plan, list } => {
            replan(explainer, machine, ChangedFile { file, list }, plan, out)
        }
        Task::Migrate { file } => migrate(machine, file, out),
        Task::Check { file } => check(machine, file, out),
        Task::Digest { file } => digest(machine, file, out),
        Task::Restore { copy, file } => restore(explainer, machine, copy, file, out),
        Task::Serve { file, service } => serve_file(host, machine, file, service, out),
        Task::Replay {
            file,
            replay: ref how,
        } => replay(explainer, machine, file, how, out, err),
        Task::Renew { file, new, since } => renew(machine, file, new, since, out),
        Task::Verify { list } => verify_list(machine, list, out),
        Task::Board { ref look } => board(explainer, machine, look, out),
        Task::Times {
            file,
            division,
            day,
        } => times(machine, file, division, day, out),
        Task::JoinedTimes {
            file,
            older,
            division,
            day,
        } => joined_times(machine, file, older, division, day, out),
        Task::Terminals { file, wanted, list } => {
            terminals(explainer, machine, ChangedFile { file, list }, wanted, out)
        }
        Task::SetTerminals { file, csv, list } => {
            set_terminals(explainer, machine, ChangedFile { file, list }, csv, out)
        }
    }
}

// Imports a fleet, which is kept in the room's list before, where there is one.
fn import_fleet<M: Machine, O: Write>(
    explainer: Explainer<'_>,
    machine: &mut M,
    place: ChangedFile<'_>,
    fleet: &str,
    out: &mut O,
) -> Result<Done, Failure>
    ensures { IsImportOf system M.File.Write.contents M.File.lasting place.entry fleet.now
        (at (O.contents out.old) (M.done machine.old))
        (at (O.contents out.new) (M.done machine.new)) result }
{
    match place.list {
        Some(list) => import_kept(explainer, machine, place.file, fleet, list, out),
        None => import(explainer, machine, place.file, fleet, out),
    }
}

// Prints a mistake in the words or the help that was asked for, and returns the exit status.
fn refuse<O: Write, E: Write>(error: &Error, out: &mut O, err: &mut E) -> u8
    ensures status { IsWordsStatus (kind_of error.now) result }
    ensures output { IsWordsOutput (kind_of error.now) (O.contents out.old) (O.contents out.new) }
{
    if is_mistake(error.kind()) {
        let _ = write!(err, "{error}");
        return USAGE;
    }
    end(help(error, out), err)
}

// Whether an error of the words is a mistake in them, and neither help that was asked for nor
// lack of memory.
fn is_mistake(kind: ErrorKind) -> bool
    ensures { result ≡ is_mistake kind }
{
    !matches!(
        kind,
        ErrorKind::DisplayHelp | ErrorKind::DisplayVersion | ErrorKind::OutOfMemory
    )
}

// Writes the help that was asked for.
fn help<O: Write>(error: &Error, out: &mut O) -> Result<Done, Failure>
    ensures done { IsHelpDone (kind_of error.now) result }
    ensures output { kind_of error.now ≡ OutOfMemory
        → O.contents out.new ≡ O.contents out.old }
{
    if error.kind() == ErrorKind::OutOfMemory {
        return Err(Failure::Memory);
    }
    match write!(out, "{error}") {
        Ok(()) => Ok(Done::Whole),
        Err(_) => Err(Failure::Network),
    }
}
