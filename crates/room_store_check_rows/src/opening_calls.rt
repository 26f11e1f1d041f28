//! The first incident that is not merged and has no call of the moment at which it was opened.
ghost use Rattle.std.specs.Prelude.{◌≡◌, ◌||◌, IfErr, IfOk};
ghost use Rattle.std.specs.BTreeSet.{contains};
ghost use Rattle.room_types.specs.Codes.{is_merged};
ghost use Rattle.room_types.specs.declared.refusal_statuses.Refusal.TheVariants.{Memory};
ghost use Rattle.room_store_check_rows.specs.RowTests.{opening_cmp};
ghost use Rattle.room_store_check_rows.specs.FirstFaults.{first_of, opening_fault, uncalled_fault};
ghost use Rattle.room_store_check_rows.specs.HistoryChecks.{AreOpenings};

use crate::disagreements::{Disagreement, IncidentFault};
use crate::history_checks::Openings;
use crate::incident_checks::is_merged;
use crate::room_checks::RoomRows;
use room_types::refusal_statuses::Refusal;
use room_types::tables::{Call, Incident};
use std::alloc::{AllocError, Global};

// The first incident that no call opened. The one refusal is `Memory`.
pub(crate) fn unopened(alloc: Global, rows: &RoomRows) -> Result<Option<Disagreement>, Refusal>
    ensures first { IfOk result (λ found.
        found ≡ first_of (opening_fault rows.now) rows.now.incidents) }
    ensures memory { IfErr result (λ refusal. refusal ≡ Memory) }
{
    let openings = openings_by(alloc, rows.calls.as_slice())?;
    Ok(first_uncalled(&openings, rows.incidents.as_slice()))
}

// The first incident of which no opening is given.
pub(crate) fn first_uncalled(openings: &Openings, incidents: &[Incident]) -> Option<Disagreement>
    ensures { result ≡ first_of (uncalled_fault openings.now) incidents.now }
{
    for incident in incidents {
        if !is_opened(openings, incident) {
            return Some(Disagreement::Incident(
                incident.division,
                incident.number,
                IncidentFault::NoCall,
            ));
        }
    }
    None
}

fn is_opened(openings: &Openings, incident: &Incident) -> bool
    ensures { let i = incident.now in result ≡
        (is_merged i.state || contains opening_cmp openings.now (i.division, i.number, i.opened)) }
{
    is_merged(incident.state) || openings.has(incident)
}

// What the calls give, so that an opening is found at once.
fn openings_by(alloc: Global, calls: &[Call]) -> Result<Openings, AllocError>
    ensures { IfOk result (AreOpenings calls.now) }
{
    let mut openings = Openings::new(alloc);
    for call in calls {
        openings.add(call)?;
    }
    Ok(openings)
}
