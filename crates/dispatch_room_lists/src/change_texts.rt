//! The text in which a list keeps a change of a room.
ghost use Rattle.std.specs.Prelude.{◌≡◌, ◌++◌, flat_map, unwrap_or, IfNone, IfOk, IfSome};
ghost use Rattle.std.specs.Prelude.{MatchOption, OnOk, [], string_bytes};
ghost use Rattle.dispatch_room_lists.specs.ListedRows.{IsNoChange};
ghost use Rattle.dispatch_room_lists.specs.RoomChanges.{AddsLine, AreNoLines, AreReadAs, IsEntry};
ghost use Rattle.dispatch_room_lists.specs.RoomChanges.{IsNoEntry, IsNoTerminals, IsOfNoOne};
ghost use Rattle.dispatch_room_lists.specs.RoomChanges.{IsTextOf, line_of, terminal_line};
ghost use Rattle.dispatch_room_lists.specs.RoomChanges.{terminals_text};

use crate::room_changes::RoomChange;
use dispatch_room_cli::who::who_of;
use dispatch_room_csv::plan_file::{PlanFileFault, read_plan};
use room_store_writes::change_faults::TokenChange;
use room_types::asks::Who;
use room_types::fleet::Terminal;
use room_types::token::Token;
use std::alloc::{AllocError, Global};
use std::fmt::Write;
use std::str;

// The header of a list of terminals.
const HEADER: &str = "terminal,token\n";

/// The text of a change that leaves a user one token or none: one line, with the user and the
/// token.
pub fn token_text(alloc: Global, change: &TokenChange) -> Result<Vec<u8>, AllocError>
    ensures { IfOk result (λ text. text.items
        ≡ terminals_text (terminal_line change.now.who (unwrap_or change.now.token []))) }
{
    let mut text = String::from_str(alloc, HEADER)?;
    match &change.token {
        Some(token) => push_line(&mut text, &change.who, token.as_str())?,
        None => push_line(&mut text, &change.who, "")?,
    }
    Ok(text.into_bytes())
}

/// The text of a list of terminals: a line for each, in order.
pub fn terminals_text(alloc: Global, listed: &[Terminal]) -> Result<Vec<u8>, AllocError>
    ensures { IfOk result (λ text.
        text.items ≡ terminals_text (flat_map line_of listed.now)) }
{
    let mut text = String::from_str(alloc, HEADER)?;
    for terminal in listed {
        push_line(&mut text, &terminal.who, terminal.token.as_str())?;
    }
    Ok(text.into_bytes())
}

fn push_line(text: &mut String, who: &Who, token: &str) -> Result<(), AllocError>
    ensures { OnOk result
        (string_bytes text.new ≡ string_bytes text.old ++ terminal_line who.now token.now) }
{
    match who {
        Who::Desk(division) => write!(text, "desk:{},{token}\n", division.get()),
        Who::Position(position) => write!(text, "position:{},{token}\n", position.get()),
        Who::Crew(callsign) => write!(text, "crew:{},{token}\n", callsign.as_str()),
    }
}

/// Reads the change of which this is the text; `None` if it is the text of no change.
pub fn change_of(alloc: Global, text: &[u8]) -> Result<Option<RoomChange>, AllocError>
    ensures change { IfOk result (λ found. IfSome found (λ change. IsTextOf change text.now)) }
    ensures none { IfOk result (λ found. IfNone found (IsNoChange text.now)) }
{
    match read_plan(alloc, text) {
        Ok(file) => Ok(Some(RoomChange::Plan(file))),
        Err(PlanFileFault::Memory) => Err(AllocError),
        Err(PlanFileFault::Input) => change_of_terminals(alloc, text),
        Err(PlanFileFault::Row(_)) => change_of_terminals(alloc, text),
    }
}

// The change of terminals whose text these bytes are.
fn change_of_terminals(alloc: Global, bytes: &[u8]) -> Result<Option<RoomChange>, AllocError>
    ensures change { IfOk result (λ found. IfSome found (λ change. IsTextOf change bytes.now)) }
    ensures none { IfOk result (λ found. IfNone found (IsNoTerminals bytes.now)) }
{
    match str::from_utf8(bytes) {
        Ok(text) => terminals_of(alloc, text),
        Err(_) => Ok(None),
    }
}

// The change of terminals whose text this is.
fn terminals_of(alloc: Global, text: &str) -> Result<Option<RoomChange>, AllocError>
    ensures change { IfOk result (λ found. IfSome found (λ change. IsTextOf change text.now)) }
    ensures none { IfOk result (λ found. IfNone found (IsNoTerminals text.now)) }
{
    let Some(lines) = text.strip_prefix(HEADER) else {
        return Ok(None);
    };
    match withdrawn_in(lines) {
        Some(who) => Ok(Some(RoomChange::Token(TokenChange { who, token: None }))),
        None => of_all(alloc, text, lines),
    }
}

// The list of terminals whose text this is, with these lines under its header.
fn of_all(alloc: Global, text: &str, lines: &str) -> Result<Option<RoomChange>, AllocError>
    requires { text.now ≡ terminals_text lines.now }
    ensures change { IfOk result (λ found. IfSome found (λ change. IsTextOf change text.now)) }
    ensures none { IfOk result (λ found. IfNone found (AreNoLines lines.now)) }
{
    let listed = listed_in(alloc, lines)?;
    let its_text = terminals_text(alloc, listed.as_slice())?;
    if its_text.as_slice() == text.as_bytes() {
        Ok(Some(RoomChange::Terminals(listed)))
    } else {
        Ok(None)
    }
}

// The user without a token whom the only line names.
fn withdrawn_in(lines: &str) -> Option<Who>
    ensures { MatchOption result (IsOfNoOne lines.now) (λ who. lines.now ≡ terminal_line who []) }
{
    who_of(lines.strip_suffix(",\n")?)
}

// The terminals that the lines name. Lines of another form are skipped: the caller compares the
// text with that of the result, and so refuses them.
fn listed_in(alloc: Global, lines: &str) -> Result<Vec<Terminal>, AllocError>
    ensures { IfOk result (λ found. AreReadAs lines.now found.items) }
{
    let mut listed = Vec::new(alloc);
    let mut rest = lines;
    while let Some((line, below)) = rest.split_once('\n') {
        read_line(&mut listed, line)?;
        rest = below;
    }
    Ok(listed)
}

// Adds the terminal of a line, if it has one.
fn read_line(listed: &mut Vec<Terminal>, line: &str) -> Result<(), AllocError>
    ensures { OnOk result (AddsLine line.now listed.old.items listed.new.items) }
{
    match terminal_in(line) {
        Some(terminal) => listed.extend_from_slice(&[terminal]),
        None => Ok(()),
    }
}

fn terminal_in(line: &str) -> Option<Terminal>
    ensures { MatchOption result (IsNoEntry line.now) (IsEntry line.now) }
{
    let (who, token) = line.split_once(',')?;
    Some(Terminal {
        token: Token::parse(token)?,
        who: who_of(who)?,
    })
}
