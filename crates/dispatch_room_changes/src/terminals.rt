//! `terminals`: who has a terminal in a room, a new token, a terminal taken away, and all that a
//! file names.
ghost use Rattle.std.specs.Prelude.{◌≡◌};
ghost use Rattle.dispatch_room_cli.specs.declared.tasks.Terminals.TheVariants as wanted;
ghost use Rattle.dispatch_room_changes.specs.ChangeTasks.{Lists};
ghost use Rattle.dispatch_room_changes.specs.ChangeSteps.{Draws, IsMadeAsText, IsSet, IsSetting};
ghost use Rattle.dispatch_room_changes.specs.ChangeSteps.{IsSettingOf, IsTerminals, Renews};
ghost use Rattle.dispatch_room_changes.specs.ChangeSteps.{Withdraws, is_a_crew, reissue_of};
ghost use Rattle.dispatch_room_disk.specs.CommandSteps.{Quietly, at};
ghost use Rattle.dispatch_room_disk.specs.RoomFiles.{there};
ghost use Rattle.dispatch_room_tcp.specs.Hosts.{Works};
ghost use Rattle.dispatch_room_disk.specs.SystemFiles.{system};

use crate::kept_changes::{ChangedFile, make_in_file};
use crate::terminal_files::terminals_in;
use dispatch_room_cli::tasks::Terminals;
use dispatch_room_csv::sheets::Sheet;
use dispatch_room_disk::outputs::print;
use dispatch_room_disk::room_files::RoomFile;
use dispatch_room_exit::exit_status::{Done, Failure};
use dispatch_room_exit::failure_causes::Explainer;
use dispatch_room_lists::change_texts::{terminals_text, token_text};
use dispatch_room_lists::room_changes::RoomChange;
use dispatch_room_tasks::listed_terminals::list_in;
use dispatch_room_tasks::random_tokens::{RANDOM, token_of};
use dispatch_room_tcp::hosts::Machine;
use room_store_writes::change_faults::TokenChange;
use room_types::asks::Who;
use room_types::fleet::Terminal;
use room_types::token::Token;
use std::io::Write;

/// Lists who has a terminal, or gives one user a new token, or takes a user's terminals away.
pub fn terminals<M: Machine, O: Write>(
    explainer: Explainer<'_>,
    machine: &mut M,
    place: ChangedFile<'_>,
    wanted: Terminals,
    out: &mut O,
) -> Result<Done, Failure>
    ensures { IsTerminals system M.File.Write.contents M.File.lasting place.entry wanted
        (at (O.contents out.old) (M.done machine.old))
        (at (O.contents out.new) (M.done machine.new)) result }
{
    match wanted {
        Terminals::List => list(machine, place.file, out),
        Terminals::New(who) => give_token(explainer, machine, place, who, out),
        Terminals::Revoke(who) => revoke(explainer, machine, place, who, out),
    }
}

// Lists who has a terminal.
fn list<M: Machine, O: Write>(machine: &mut M, file: &str, out: &mut O) -> Result<Done, Failure>
    ensures { Works system (there file.now) Lists (at (O.contents out.old) (M.done machine.old))
        (at (O.contents out.new) (M.done machine.new)) result }
{
    let conn = machine.open(RoomFile::Kept(file))?;
    let listed = list_in(machine.alloc(), conn, out);
    machine.close(RoomFile::Kept(file), listed)
}

// Gives a user a new token, and then prints it.
fn give_token<M: Machine, O: Write>(
    explainer: Explainer<'_>,
    machine: &mut M,
    place: ChangedFile<'_>,
    who: Who,
    out: &mut O,
) -> Result<Done, Failure>
    ensures { IsTerminals system M.File.Write.contents M.File.lasting place.entry (wanted.New who)
        (at (O.contents out.old) (M.done machine.old))
        (at (O.contents out.new) (M.done machine.new)) result }
{
    let token = renew(explainer, machine, place, who)?;
    match writeln!(out, "{}", token.as_str()) {
        Ok(()) => Ok(Done::Whole),
        Err(_) => Err(Failure::Network),
    }
}

// Takes a user's terminal away, and reports it.
fn revoke<M: Machine, O: Write>(
    explainer: Explainer<'_>,
    machine: &mut M,
    place: ChangedFile<'_>,
    who: Who,
    out: &mut O,
) -> Result<Done, Failure>
    ensures { IsTerminals system M.File.Write.contents M.File.lasting place.entry (wanted.Revoke who)
        (at (O.contents out.old) (M.done machine.old))
        (at (O.contents out.new) (M.done machine.new)) result }
{
    withdraw(explainer, machine, place, who)?;
    print(b"revoked\n", out)
}

// Takes a user's terminal away. A vehicle's crew always has one, so it gets a token that nobody is
// told.
fn withdraw<M: Machine>(
    explainer: Explainer<'_>,
    machine: &mut M,
    place: ChangedFile<'_>,
    who: Who,
) -> Result<(), Failure>
    ensures { Quietly (Withdraws system M.File.Write.contents M.File.lasting place.entry who
        (is_a_crew who)) (M.done machine.old) (M.done machine.new) result }
{
    if is_a_crew(&who) {
        renew(explainer, machine, place, who)?;
        return Ok(());
    }
    reissue(explainer, machine, place, TokenChange { who, token: None })
}

// Gives a user a new random token, which is returned.
fn renew<M: Machine>(
    explainer: Explainer<'_>,
    machine: &mut M,
    place: ChangedFile<'_>,
    who: Who,
) -> Result<Token, Failure>
    ensures { Quietly (Renews system M.File.Write.contents M.File.lasting place.entry who)
        (M.done machine.old) (M.done machine.new) result }
{
    let token = new_token(machine)?;
    let change = TokenChange {
        who,
        token: Some(token),
    };
    reissue(explainer, machine, place, change)?;
    Ok(token)
}

fn is_a_crew(who: &Who) -> bool
    ensures { result ≡ is_a_crew who.now }
{
    matches!(who, Who::Crew(_))
}

// Leaves a user only this token, or none.
fn reissue<M: Machine>(
    explainer: Explainer<'_>,
    machine: &mut M,
    place: ChangedFile<'_>,
    change: TokenChange,
) -> Result<(), Failure>
    ensures { Quietly (IsMadeAsText system M.File.Write.contents M.File.lasting place.entry
        (reissue_of change.who change.token)) (M.done machine.old) (M.done machine.new) result }
{
    let Ok(text) = token_text(machine.alloc(), &change) else {
        return Err(Failure::Memory);
    };
    let change = RoomChange::Token(change);
    make_in_file(explainer, machine, place, &change, text.as_slice())
}

/// Gives all that a plan's or a fleet's file names the terminals that it gives them, and reports
/// how many these are.
pub fn set_terminals<M: Machine, O: Write>(
    explainer: Explainer<'_>,
    machine: &mut M,
    place: ChangedFile<'_>,
    csv: &str,
    out: &mut O,
) -> Result<Done, Failure>
    ensures { IsSetting system M.File.Write.contents M.File.lasting place.entry csv.now
        (at (O.contents out.old) (M.done machine.old))
        (at (O.contents out.new) (M.done machine.new)) result }
{
    let text = machine.read_text(csv)?;
    let sheet = Sheet::new(machine.alloc(), explainer, csv, text.as_slice());
    set_by(explainer, machine, place, sheet, out)
}

// Gives all that a file's text names the terminals that it gives them.
fn set_by<M: Machine, O: Write>(
    explainer: Explainer<'_>,
    machine: &mut M,
    place: ChangedFile<'_>,
    sheet: Sheet<'_>,
    out: &mut O,
) -> Result<Done, Failure>
    ensures { IsSettingOf system M.File.Write.contents M.File.lasting place.entry sheet.entry.text.now
        (at (O.contents out.old) (M.done machine.old))
        (at (O.contents out.new) (M.done machine.new)) result }
{
    let listed = terminals_in(sheet)?;
    set(explainer, machine, place, listed, out)
}

// Gives all that a list names its terminals.
fn set<M: Machine, O: Write>(
    explainer: Explainer<'_>,
    machine: &mut M,
    place: ChangedFile<'_>,
    listed: Vec<Terminal>,
    out: &mut O,
) -> Result<Done, Failure>
    ensures { IsSet system M.File.Write.contents M.File.lasting place.entry listed
        (at (O.contents out.old) (M.done machine.old))
        (at (O.contents out.new) (M.done machine.new)) result }
{
    let Ok(text) = terminals_text(machine.alloc(), listed.as_slice()) else {
        return Err(Failure::Memory);
    };
    let count = listed.len();
    let change = RoomChange::Terminals(listed);
    make_in_file(explainer, machine, place, &change, text.as_slice())?;
    match writeln!(out, "set: terminals {count}") {
        Ok(()) => Ok(Done::Whole),
        Err(_) => Err(Failure::Network),
    }
}

// A token of the machine's random bytes.
fn new_token<M: Machine>(machine: &mut M) -> Result<Token, Failure>
    ensures { Quietly Draws (M.done machine.old) (M.done machine.new) result }
{
    let mut random = [0; RANDOM];
    machine.fill_random(&mut random)?;
    match token_of(machine.alloc(), &random) {
        Ok(Some(token)) => Ok(token),
        Ok(None) => Err(Failure::Storage),
        Err(_) => Err(Failure::Memory),
    }
}
