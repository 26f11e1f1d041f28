//! Which row of a list of terminals is refused first, where these replace those of all that it
//! names.
ghost use Rattle.std.specs.Prelude.{◌≡◌, length, MatchOption};
ghost use Rattle.room_tables_schema.specs.DatabaseFaults.{fault_of};
ghost use Rattle.dispatch_room_tasks.specs.declared.replacement_faults.ReplaceFault.TheVariants as why;
ghost use Rattle.dispatch_room_tasks.specs.ReplacedTerminals.{AreFree, IsFirstFault, failure_of};
ghost use Rattle.dispatch_room_tasks.specs.ReplacedTerminals.{is_kept, is_listed, is_second};
ghost use Rattle.dispatch_room_tasks.specs.ReplacedTerminals.{lack_of, row_fault, unknown_fault};

use dispatch_room_exit::exit_status::Failure;
use room_place::plans::Plan;
use room_store_writes::terminal_holders::{has_token, is_same, may_have};
use room_tables_schema::database_faults::Fault;
use room_types::asks::Who;
use room_types::fleet::Terminal;
use room_types::token::Token;
use sqlite::Error;
use std::alloc::AllocFailed;

/// Why a row of a list of terminals is refused.
#[derive(Clone, Copy)]
pub enum RowFault {
    /// The desk's division is not in the plan.
    NoDivision,
    /// No vehicle has the callsign.
    NoVehicle,
    /// A terminal that stays has the token, or a row before.
    TokenTaken,
    /// A row before gives the crew a token, and a crew has one.
    SecondToken,
}

/// Why terminals are not replaced.
#[derive(Clone, Copy)]
pub enum ReplaceFault {
    /// The first row that is refused, counted from 0, and why.
    Row(usize, RowFault),
    /// Memory was refused; the same call may succeed later.
    Memory,
    /// The database failed for another cause.
    Storage,
}

impl From<Fault> for ReplaceFault {
    ghost from_gives = { λ fault cause. cause ≡ lack_of fault };

    fn from(fault: Fault) -> ReplaceFault {
        match fault {
            Fault::Memory => ReplaceFault::Memory,
            Fault::Storage => ReplaceFault::Storage,
        }
    }
}

impl From<Error> for ReplaceFault {
    ghost from_gives = { λ error cause. cause ≡ lack_of (fault_of error) };

    fn from(error: Error) -> ReplaceFault {
        ReplaceFault::from(Fault::from(error))
    }
}

impl<T: Drop> From<AllocFailed<T>> for ReplaceFault {
    ghost from_gives = { λ _ cause. cause ≡ why.Memory };

    fn from(_: AllocFailed<T>) -> ReplaceFault {
        ReplaceFault::Memory
    }
}

/// How the program reports why terminals were not replaced.
pub(crate) fn failure_of(fault: ReplaceFault) -> Failure
    ensures { result ≡ failure_of fault }
{
    match fault {
        ReplaceFault::Row(_, RowFault::NoDivision) => Failure::Division,
        ReplaceFault::Row(_, _) => Failure::Input,
        ReplaceFault::Memory => Failure::Memory,
        ReplaceFault::Storage => Failure::Storage,
    }
}

/// The first row of a list that is refused, and why.
pub(crate) fn first_refused(
    plan: &Plan,
    terminals: &[Terminal],
    listed: &[Terminal],
) -> Option<(usize, RowFault)>
    ensures { MatchOption result
        (AreFree plan.now.areas terminals.now listed.now (length listed.now))
        (λ found. IsFirstFault plan.now.areas terminals.now listed.now found.0 found.1) }
{
    for at in 0..listed.len() {
        if let Some(fault) = row_fault(plan, terminals, listed, &listed[..at], &listed[at]) {
            return Some((at, fault));
        }
    }
    None
}

// Why a row is refused beside those before it.
fn row_fault(
    plan: &Plan,
    terminals: &[Terminal],
    listed: &[Terminal],
    earlier: &[Terminal],
    row: &Terminal,
) -> Option<RowFault>
    ensures { result
        ≡ row_fault plan.now.areas terminals.now listed.now earlier.now row.now }
{
    if !may_have(plan, terminals, &row.who) {
        Some(unknown_fault(&row.who))
    } else if is_kept(listed, terminals, &row.token) || has_token(earlier, &row.token) {
        Some(RowFault::TokenTaken)
    } else if is_second(earlier, &row.who) {
        Some(RowFault::SecondToken)
    } else {
        None
    }
}

// Why a user may have no terminal.
fn unknown_fault(who: &Who) -> RowFault
    ensures { result ≡ unknown_fault who.now }
{
    match who {
        Who::Desk(_) => RowFault::NoDivision,
        Who::Position(_) | Who::Crew(_) => RowFault::NoVehicle,
    }
}

// Whether a terminal that stays has the token.
fn is_kept(listed: &[Terminal], terminals: &[Terminal], token: &Token) -> bool
    ensures { result ≡ is_kept listed.now terminals.now token.now }
{
    terminals.iter().any(|terminal| *token == terminal.token && !is_listed(listed, &terminal.who))
}

// Whether it is a crew that a row before names.
fn is_second(earlier: &[Terminal], who: &Who) -> bool
    ensures { result ≡ is_second earlier.now who.now }
{
    match who {
        Who::Desk(_) | Who::Position(_) => false,
        Who::Crew(_) => is_listed(earlier, who),
    }
}

/// Whether a list names a user.
pub(crate) fn is_listed(listed: &[Terminal], who: &Who) -> bool
    ensures { result ≡ is_listed listed.now who.now }
{
    listed.iter().any(|terminal| is_same(&terminal.who, who))
}
