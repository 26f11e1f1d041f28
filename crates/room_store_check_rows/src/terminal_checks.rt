//! Whether terminals fit a room: each vehicle has one crew's terminal, and no terminal is
//! another's; and else what is wrong with them first.
ghost use Rattle.std.specs.Prelude.{◌≡◌, ◌↔◌, IfErr, IfOk, IsTrue, length};
ghost use Rattle.std.specs.BTreeSet.{IsFromIterResult};
ghost use Rattle.std.specs.List.{list_any};
ghost use Rattle.room_types.specs.KeyedRows.{IsKeyed};
ghost use Rattle.room_types.specs.Keys.{callsign_cmp};
ghost use Rattle.room_types.specs.declared.refusal_statuses.Refusal.TheVariants.{Memory};
ghost use Rattle.room_model.specs.FleetRows.{AreTerminals, is_crew, terminal_key, token_cmp};
ghost use Rattle.room_model.specs.RoomSlices.{room_of};
ghost use Rattle.room_store_check_rows.specs.TerminalCrews.{crew_again, crew_of, crews_of};
ghost use Rattle.room_store_check_rows.specs.TerminalCrews.{second_crew, subject_fault};
ghost use Rattle.room_store_check_rows.specs.TerminalCrews.{terminals_fault, two_crews, uncrewed};
ghost use Rattle.room_store_check_rows.specs.FirstFaults.{first_of};
ghost use Rattle.room_store_check_rows.specs.Misfits.{DetectsOf};

use crate::disagreements::TerminalFault;
use crate::first_disagreement::unless;
use crate::room_checks::RoomRows;
use crate::vehicle_checks::has_vehicle;
use room_place::plans::Plan;
use room_types::asks::Who;
use room_types::callsign::Callsign;
use room_types::fleet::Terminal;
use room_types::refusal_statuses::Refusal;
use room_types::tables::Vehicle;
use std::alloc::{AllocError, Global};
use std::collections::BTreeSet;

/// Whether these terminals fit the room of this plan and these rows: they are in token order, each
/// with a token of its own; each vehicle has exactly one crew's terminal, each crew's vehicle is
/// there, and each desk's division is in the plan. The one refusal is `Memory`.
pub fn do_terminals_fit(
    alloc: Global,
    plan: &Plan,
    rows: &RoomRows,
    terminals: &[Terminal],
) -> Result<bool, Refusal>
    ensures test { IfOk result (λ fit. IsTrue fit
        ↔ AreTerminals (room_of plan.now.areas rows.now) terminals.now) }
    ensures memory { IfErr result (λ refusal. refusal ≡ Memory) }
{
    Ok(terminals_fault(alloc, plan, rows, terminals)?.is_none())
}

/// What is wrong first with these terminals in the room of this plan and these rows; nothing
/// exactly where they fit it. The one refusal is `Memory`.
pub fn terminals_fault(
    alloc: Global,
    plan: &Plan,
    rows: &RoomRows,
    terminals: &[Terminal],
) -> Result<Option<TerminalFault>, Refusal>
    ensures detected { IfOk result (DetectsOf (room_of plan.now.areas rows.now) terminals.now) }
    ensures memory { IfErr result (λ refusal. refusal ≡ Memory) }
{
    let _in_order = rows.vehicles.as_slice();
    if !are_keyed(terminals) {
        return Ok(Some(TerminalFault::Token));
    }
    let crews = crews(alloc, terminals)?;
    Ok(fault_by(plan, rows, terminals, &crews))
}

// Whether tokens rise, so that each names one terminal.
fn are_keyed(terminals: &[Terminal]) -> bool
    ensures { IsTrue result ↔ IsKeyed token_cmp terminal_key terminals.now }
{
    terminals.is_sorted_by(|terminal, next| terminal.token < next.token)
}

// The vehicles that have a crew's terminal.
fn crews(alloc: Global, terminals: &[Terminal]) -> Result<BTreeSet<Callsign>, AllocError>
    ensures { IfOk result (IsFromIterResult callsign_cmp (crews_of terminals.now)) }
{
    terminals
        .iter()
        .filter_map(|terminal| crew_of(terminal.who))
        .collect(alloc)
}

fn crew_of(who: Who) -> Option<Callsign>
    ensures { result ≡ crew_of who }
{
    match who {
        Who::Crew(callsign) => Some(callsign),
        Who::Desk(_) | Who::Position(_) => None,
    }
}

// What is wrong first by the vehicles that have a crew's terminal.
fn fault_by(
    plan: &Plan,
    rows: &RoomRows,
    terminals: &[Terminal],
    crews: &BTreeSet<Callsign>,
) -> Option<TerminalFault>
    ensures { result ≡ terminals_fault plan.now.areas rows.now terminals.now crews.now }
{
    two_crews(terminals, crews)
        .or(uncrewed(crews, rows.vehicles.as_slice()))
        .or(subject_fault(plan, rows, terminals))
}

// Two crews of one vehicle are two terminals, and one vehicle. Only where there are fewer vehicles
// is it asked which.
fn two_crews(terminals: &[Terminal], crews: &BTreeSet<Callsign>) -> Option<TerminalFault>
    ensures { result ≡ two_crews terminals.now crews.now }
{
    if crews.len() == count_crews(terminals) {
        return None;
    }
    second_crew(terminals)
}

fn count_crews(terminals: &[Terminal]) -> usize
    ensures { result ≡ length (crews_of terminals.now) }
{
    terminals
        .iter()
        .filter_map(|terminal| crew_of(terminal.who))
        .count()
}

// The first vehicle with a crew's terminal that has another later.
fn second_crew(terminals: &[Terminal]) -> Option<TerminalFault>
    ensures { result ≡ second_crew terminals.now }
{
    let mut left = terminals;
    while let Some((first, others)) = left.split_first() {
        let found = crew_again(first.who, others);
        if found.is_some() {
            return found;
        }
        left = others;
    }
    None
}

fn crew_again(who: Who, others: &[Terminal]) -> Option<TerminalFault>
    ensures { result ≡ crew_again who others.now }
{
    match who {
        Who::Crew(callsign) => {
            unless(
                !has_crew(callsign, others),
                TerminalFault::TwoCrews(callsign),
            )
        }
        Who::Desk(_) | Who::Position(_) => None,
    }
}

fn has_crew(callsign: Callsign, terminals: &[Terminal]) -> bool
    ensures { result ≡ list_any (λ t. is_crew callsign t.who) terminals.now }
{
    terminals
        .iter()
        .any(|terminal| is_crew(callsign, terminal.who))
}

fn is_crew(callsign: Callsign, who: Who) -> bool
    ensures { result ≡ is_crew callsign who }
{
    match who {
        Who::Crew(crew) => crew.cmp(&callsign).is_eq(),
        Who::Desk(_) | Who::Position(_) => false,
    }
}

// The first vehicle without a crew's terminal.
fn uncrewed(crews: &BTreeSet<Callsign>, vehicles: &[Vehicle]) -> Option<TerminalFault>
    ensures { result ≡ first_of (uncrewed crews.now) vehicles.now }
{
    for vehicle in vehicles {
        let found = crew_fault(crews, vehicle);
        if found.is_some() {
            return found;
        }
    }
    None
}

fn crew_fault(crews: &BTreeSet<Callsign>, vehicle: &Vehicle) -> Option<TerminalFault>
    ensures { result ≡ uncrewed crews.now vehicle.now }
{
    let callsign = vehicle.callsign;
    unless(crews.contains(&callsign), TerminalFault::NoCrew(callsign))
}

// The first terminal whose vehicle or division is not there.
fn subject_fault(plan: &Plan, rows: &RoomRows, terminals: &[Terminal]) -> Option<TerminalFault>
    ensures { result ≡ first_of (λ t. subject_fault plan.now.areas rows.now t.who) terminals.now }
{
    for terminal in terminals {
        let found = fault_of(plan, rows, terminal.who);
        if found.is_some() {
            return found;
        }
    }
    None
}

fn fault_of(plan: &Plan, rows: &RoomRows, who: Who) -> Option<TerminalFault>
    ensures { result ≡ subject_fault plan.now.areas rows.now who }
{
    match who {
        Who::Crew(callsign) => {
            unless(has_vehicle(rows, &callsign), TerminalFault::Crew(callsign))
        }
        Who::Desk(division) => unless(plan.has(division), TerminalFault::Desk(division)),
        Who::Position(_) => None,
    }
}
