//! `board`: a served room is asked as a desk, and what the desk sees is shown.
ghost use Rattle.std.specs.Prelude.{◌≡◌, ◌⊎◌, IfOk, IfSome, MatchResult, Ok, false, true};
ghost use Rattle.std.specs.Duration.{as_nanos};
ghost use Rattle.dispatch_room_cli.specs.Addresses.{IsAnother, IsThisMachine};
ghost use Rattle.dispatch_room_commands.specs.CommandEnds.{end_of_board};
ghost use Rattle.dispatch_room_commands.specs.TaskSteps.{AsksRoom, Colours, Hears, HearsAnswers};
ghost use Rattle.dispatch_room_commands.specs.TaskSteps.{HearsReports, IsBoardOf, PrintsBoard};
ghost use Rattle.dispatch_room_commands.specs.TaskSteps.{board_nanos, reports_nanos};
ghost use Rattle.dispatch_room_disk.specs.CommandSteps.{Quietly, at};
ghost use Rattle.dispatch_room_board.specs.Requests.{report_requests, requests};
ghost use Rattle.dispatch_room_board.specs.declared.exchange.TheConstants.{MOST_HEARD};
ghost use Rattle.dispatch_room_exit.specs.declared.exit_status.Failure.TheVariants.{Input};
ghost use Rattle.dispatch_room_tcp.specs.HeardRooms.{IsHeard};

use crate::token_files::token_of;
use dispatch_room_board::boards::{Reached, board_of};
use dispatch_room_board::exchange::{hear, send};
use dispatch_room_board::requests::{Asker, report_requests, requests};
use dispatch_room_board::told_reports::vehicles_heard;
use dispatch_room_cli::addresses::is_this_machine;
use dispatch_room_cli::tasks::{Color, Look};
use dispatch_room_exit::exit_status::{Done, Failure};
use dispatch_room_exit::failure_causes::Explainer;
use dispatch_room_tcp::hosts::Machine;
use room_http_messages::sinks::Sink;
use room_http_messages::sources::Source;
use room_types::callsign::Callsign;
use room_types::token::Token;
use std::alloc::{AllocError, Global};
use std::io::Write;
use std::time::Duration;

/// Shows the board of a desk, of what it hears of the room at an address within a time: what could
/// not be reached is shown in it, and by the end. Where there is no token, or the address may be
/// another machine's, to which no token may go in plain HTTP, nothing is asked, and why is explained.
pub fn board<M: Machine, O: Write>(
    explainer: Explainer<'_>,
    machine: &mut M,
    look: &Look<'_>,
    out: &mut O,
) -> Result<Done, Failure>
    ensures { IsBoardOf M.heard look.now (at (O.contents out.old) (M.done machine.old))
        (at (O.contents out.new) (M.done machine.new)) result }
{
    may_ask(explainer, look)?;
    let token = token_of(explainer, machine, look.token)?;
    ask(machine, look, token, out)
}

// Whether a token may go to the address. Explains why it may not.
fn may_ask(explainer: Explainer<'_>, look: &Look<'_>) -> Result<(), Failure>
    ensures { MatchResult result
        (λ _. (look.now.plain ≡ true) ⊎ IsThisMachine look.now.address.now)
        (λ fault. (fault ≡ Input) × (look.now.plain ≡ false) × IsAnother look.now.address.now) }
{
    if look.plain || is_this_machine(look.address) {
        return Ok(());
    }
    let address = look.address;
    explainer.explain(format_args!(
        "{address} may be another machine's, to which the token would go in plain HTTP: --plain \
         lets it"
    ));
    Err(Failure::Input)
}

// Asks the room with a token, and shows what is heard: after the board the reports of vehicles, where
// its queue has any out of turn.
fn ask<M: Machine, O: Write>(
    machine: &mut M,
    look: &Look<'_>,
    token: Token,
    out: &mut O,
) -> Result<Done, Failure>
    ensures { AsksRoom M.heard look.now token (at (O.contents out.old) (M.done machine.old))
        (at (O.contents out.new) (M.done machine.new)) result }
{
    let colour = has_colour(machine, look.color);
    let said = hear_board(machine, look, token)?;
    let told = hear_reports(machine, look, token, said.as_slice())?;
    let proposes = look.incident.is_some();
    print(
        machine.alloc(),
        said.as_slice(),
        told.as_slice(),
        proposes,
        colour,
        out,
    )
}

// What is heard where a desk asks for its board.
fn hear_board<M: Machine>(
    machine: &mut M,
    look: &Look<'_>,
    token: Token,
) -> Result<Vec<u8>, Failure>
    ensures { Quietly (Hears M.heard look.now (board_nanos look.now)
        (requests token look.now.incident)) (M.done machine.old) (M.done machine.new) result }
{
    let asker = Asker {
        token,
        incident: look.incident,
    };
    let Ok(text) = requests(machine.alloc(), &asker) else {
        return Err(Failure::Memory);
    };
    hear_answers(machine, look, board_time(look), text.as_str())
}

// What is told of the reports of vehicles with any out of turn in the queue that was heard. Where
// there are none, the room is not called again.
fn hear_reports<M: Machine>(
    machine: &mut M,
    look: &Look<'_>,
    token: Token,
    said: &[u8],
) -> Result<Vec<u8>, Failure>
    ensures { Quietly (HearsReports M.heard look.now token said.now)
        (M.done machine.old) (M.done machine.new) result }
{
    let Ok(vehicles) = vehicles_heard(machine.alloc(), said) else {
        return Err(Failure::Memory);
    };
    if vehicles.is_empty() {
        return Ok(Vec::new(machine.alloc()));
    }
    hear_of(machine, look, token, vehicles.as_slice())
}

// What is told of the reports of these vehicles.
fn hear_of<M: Machine>(
    machine: &mut M,
    look: &Look<'_>,
    token: Token,
    vehicles: &[Callsign],
) -> Result<Vec<u8>, Failure>
    ensures { Quietly (Hears M.heard look.now (reports_nanos look.now)
        (report_requests token vehicles.now)) (M.done machine.old) (M.done machine.new) result }
{
    let Ok(text) = report_requests(machine.alloc(), &token, vehicles) else {
        return Err(Failure::Memory);
    };
    hear_answers(machine, look, reports_time(look), text.as_str())
}

// How long the call for a board may last. No clock is asked, so each call has its share of the seconds
// that the board may take in all.
fn board_time(look: &Look<'_>) -> Duration
    ensures { as_nanos result ≡ board_nanos look.now }
{
    Duration::from_millis(u64::from(look.patience) * 750)
}

// How long the call for reports may last.
fn reports_time(look: &Look<'_>) -> Duration
    ensures { as_nanos result ≡ reports_nanos look.now }
{
    Duration::from_millis(u64::from(look.patience) * 250)
}

// What is heard where the room is called and these requests are sent.
fn hear_answers<M: Machine>(
    machine: &mut M,
    look: &Look<'_>,
    time: Duration,
    requests: &str,
) -> Result<Vec<u8>, Failure>
    ensures { Quietly (HearsAnswers M.heard look.now (as_nanos time) requests.now)
        (M.done machine.old) (M.done machine.new) result }
{
    let sides = machine.call(look.address, time);
    match hear_on(machine.alloc(), requests, sides) {
        Ok(heard) => Ok(heard),
        Err(AllocError) => Err(Failure::Memory),
    }
}

// Prints the board of what was heard, and of what was told of reports.
fn print<O: Write>(
    alloc: Global,
    said: &[u8],
    told: &[u8],
    proposes: bool,
    colour: bool,
    out: &mut O,
) -> Result<Done, Failure>
    ensures { PrintsBoard said.now told.now proposes colour (O.contents out.old)
        (O.contents out.new) result }
{
    let Ok(board) = board_of(alloc, said, told, proposes, colour) else {
        return Err(Failure::Memory);
    };
    match out.write_all(board.page.as_slice()) {
        Ok(()) => end_of(board.reached),
        Err(_) => Err(Failure::Network),
    }
}

// How the command ends by how much of the board was reached.
fn end_of(reached: Reached) -> Result<Done, Failure>
    ensures { result ≡ end_of_board reached }
{
    match reached {
        Reached::All => Ok(Done::Whole),
        Reached::AllButRefused => Ok(Done::InPart),
        Reached::Less => Err(Failure::Network),
    }
}

// Whether a board has colours.
fn has_colour<M: Machine>(machine: &mut M, color: Color) -> bool
    ensures { Quietly (Colours color) (M.done machine.old) (M.done machine.new) (Ok result) }
{
    match color {
        Color::Auto => machine.has_terminal(),
        Color::Always => true,
        Color::Never => false,
    }
}

// Sends requests to a room on the sides of a connection to it, and hears what it says, also where it
// doesn't take all of them. Nothing is heard where there is no connection.
fn hear_on<R: Source + Drop, W: Sink + Drop>(
    alloc: Global,
    requests: &str,
    sides: Option<(R, W)>,
) -> Result<Vec<u8>, AllocError>
    requires { IfSome sides (λ sides. W.has_failed sides.1 ≡ false) }
    ensures { IfOk result (λ heard. IsHeard R.left R.has_failed W.held W.has_failed sides
        requests.now MOST_HEARD heard.items) }
{
    match sides {
        Some((mut reader, mut writer)) => {
            let _sent = send(requests, &mut writer);
            hear(alloc, &mut reader)
        }
        None => Ok(Vec::new(alloc)),
    }
}
