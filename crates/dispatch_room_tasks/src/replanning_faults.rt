//! Whether a room agrees with another plan, and why it doesn't get it.
ghost use Rattle.std.specs.Prelude.{◌≡◌};
ghost use Rattle.room_place.specs.Plans.{has_division};
ghost use Rattle.room_tables_schema.specs.DatabaseFaults.{fault_of};
ghost use Rattle.dispatch_room_tasks.specs.ReplacedTerminals.{lack_of};
ghost use Rattle.dispatch_room_tasks.specs.ReplannedRoom.{failure_of, first_lacking};
ghost use Rattle.dispatch_room_tasks.specs.declared.replacement_faults.ReplaceFault.TheVariants.{Memory};
ghost use Rattle.dispatch_room_tasks.specs.declared.replanning_faults.ReplanFault.TheVariants.{Terminals};

use crate::replacement_faults::{ReplaceFault, failure_of as terminals_failure};
use dispatch_room_exit::exit_status::Failure;
use room_place::plans::{Area, Plan};
use room_tables_schema::database_faults::Fault;
use sqlite::Error;
use std::alloc::AllocFailed;

/// Why a room doesn't get another plan.
#[derive(Clone, Copy)]
pub enum ReplanFault {
    /// The new plan has no area of this division, of which there is a row.
    Division(u32),
    /// Its terminals are not set.
    Terminals(ReplaceFault),
}

impl From<ReplaceFault> for ReplanFault {
    ghost from_gives = { λ fault cause. cause ≡ Terminals fault };

    fn from(fault: ReplaceFault) -> ReplanFault {
        ReplanFault::Terminals(fault)
    }
}

impl From<Fault> for ReplanFault {
    ghost from_gives = { λ fault cause. cause ≡ Terminals (lack_of fault) };

    fn from(fault: Fault) -> ReplanFault {
        ReplanFault::Terminals(ReplaceFault::from(fault))
    }
}

impl From<Error> for ReplanFault {
    ghost from_gives = { λ error cause. cause ≡ Terminals (lack_of (fault_of error)) };

    fn from(error: Error) -> ReplanFault {
        ReplanFault::Terminals(ReplaceFault::from(error))
    }
}

impl<T: Drop> From<AllocFailed<T>> for ReplanFault {
    ghost from_gives = { λ _ cause. cause ≡ Terminals Memory };

    fn from(_: AllocFailed<T>) -> ReplanFault {
        ReplanFault::Terminals(ReplaceFault::Memory)
    }
}

/// How the program reports why a room didn't get another plan.
pub(crate) fn failure_of(fault: ReplanFault) -> Failure
    ensures { result ≡ failure_of fault }
{
    match fault {
        ReplanFault::Division(_) => Failure::Division,
        ReplanFault::Terminals(fault) => terminals_failure(fault),
    }
}

/// The division of the first area of the old plan that the new plan has no area of.
pub(crate) fn first_lacking(old: &Plan, new: &Plan) -> Option<u32>
    ensures { result ≡ first_lacking old.now.areas new.now.areas }
{
    let lacking = old
        .areas()
        .iter()
        .find(|area| !has_division(new.areas(), area.division))?;
    Some(lacking.division)
}

fn has_division(areas: &[Area], division: u32) -> bool
    ensures { result ≡ has_division areas.now division }
{
    areas.iter().any(|area| area.division == division)
}
