//! Whether the terminals of one user may be changed so.
ghost use Rattle.std.specs.Prelude.{◌≡◌};
ghost use Rattle.room_tables_schema.specs.DatabaseFaults.{fault_of};
ghost use Rattle.room_store_writes.specs.TerminalChanges.{change_fault_of, fault_in, fault_to_give};
ghost use Rattle.room_store_writes.specs.TerminalChanges.{fault_to_take, unknown_fault};

use crate::terminal_holders::{has_terminal, has_token, may_have};
use room_place::plans::Plan;
use room_tables_schema::database_faults::Fault;
use room_types::asks::Who;
use room_types::fleet::Terminal;
use room_types::token::Token;
use sqlite::Error;

/// What is to become of the terminals of one desk, position or crew.
#[derive(Clone, Copy)]
pub struct TokenChange {
    pub who: Who,
    /// The one token that names it; none where it is to have no terminal.
    pub token: Option<Token>,
}

/// Why terminals are not changed.
#[derive(Clone, Copy, Debug, PartialEq, Eq)]
pub enum ChangeFault {
    /// The desk's division is not in the plan.
    NoDivision,
    /// No vehicle has the callsign.
    NoVehicle,
    /// Who is to have no terminal has none already.
    NoTerminal,
    /// Who is to have no terminal is a vehicle's crew, which always has one.
    CrewsTerminal,
    /// A terminal has the token.
    TokenTaken,
    /// Memory was refused; the same call may succeed later.
    Memory,
    /// The database failed for another cause.
    Storage,
}

impl From<Fault> for ChangeFault {
    ghost from_gives = { λ fault why. why ≡ change_fault_of fault };

    fn from(fault: Fault) -> ChangeFault {
        match fault {
            Fault::Memory => ChangeFault::Memory,
            Fault::Storage => ChangeFault::Storage,
        }
    }
}

impl From<Error> for ChangeFault {
    ghost from_gives = { λ error why. why ≡ change_fault_of (fault_of error) };

    fn from(error: Error) -> ChangeFault {
        ChangeFault::from(Fault::from(error))
    }
}

/// Why a user may not have only this token, or none; none where nothing speaks against it.
pub fn fault_in(plan: &Plan, terminals: &[Terminal], change: &TokenChange) -> Option<ChangeFault>
    ensures { result ≡ fault_in plan.now.areas terminals.now change.now.who change.now.token }
{
    match &change.token {
        Some(token) => fault_to_give(plan, terminals, &change.who, token),
        None => fault_to_take(terminals, &change.who),
    }
}

fn fault_to_give(
    plan: &Plan,
    terminals: &[Terminal],
    who: &Who,
    token: &Token,
) -> Option<ChangeFault>
    ensures { result ≡ fault_to_give plan.now.areas terminals.now who.now token.now }
{
    if !may_have(plan, terminals, who) {
        Some(unknown_fault(who))
    } else if has_token(terminals, token) {
        Some(ChangeFault::TokenTaken)
    } else {
        None
    }
}

fn fault_to_take(terminals: &[Terminal], who: &Who) -> Option<ChangeFault>
    ensures { result ≡ fault_to_take terminals.now who.now }
{
    match who {
        Who::Crew(_) => Some(ChangeFault::CrewsTerminal),
        Who::Desk(_) | Who::Position(_) if has_terminal(terminals, who) => None,
        Who::Desk(_) | Who::Position(_) => Some(ChangeFault::NoTerminal),
    }
}

// Why a user may have no terminal.
fn unknown_fault(who: &Who) -> ChangeFault
    ensures { result ≡ unknown_fault who.now }
{
    match who {
        Who::Desk(_) => ChangeFault::NoDivision,
        Who::Position(_) | Who::Crew(_) => ChangeFault::NoVehicle,
    }
}
