//! The incidents that stay in a renewed room because of their calls.
ghost use Rattle.std.specs.Prelude.{◌≡◌, ℕ, IfOk, option_copied};
ghost use Rattle.std.specs.BTreeSet.{BTreeSet, contains};
ghost use Rattle.room_types.specs.Keys.{pair_cmp};
ghost use Rattle.dispatch_room_archive.specs.CalledIncidents.{AreCalled, is_end};

use room_place::plans::DivisionNumber;
use room_types::numbers::{Moment, Number};
use room_types::rows::Rows;
use room_types::tables::{Call, Incident};
use std::alloc::{AllocError, Global};
use std::collections::BTreeSet;
use std::marker::Model;

/// The incidents with a call that was taken since a moment, or is the last of its position. A
/// contract sees the set of their divisions and numbers.
#[derive(Drop)]
pub struct Called {
    incidents: BTreeSet<(DivisionNumber, Number)>,
}

impl Model for Called {
    ghost Value = { BTreeSet (ℕ × ℕ) };

    ghost view = { λ called. called.incidents };
}

impl Called {
    /// The incidents to which such calls of a room belong.
    pub fn since(alloc: Global, moment: Moment, calls: &Rows<Call>) -> Result<Called, AllocError>
        ensures { IfOk result (AreCalled moment calls.now calls.now) }
    {
        let calls = calls.as_slice();
        let mut incidents = BTreeSet::new(alloc);
        for at in 0..calls.len() {
            let call = calls[at];
            if call.at >= moment || is_end(&call, calls.get(at + 1)) {
                incidents.insert((call.division, call.incident))?;
            }
        }
        Ok(Called { incidents })
    }

    /// Whether the incident is one of them.
    pub fn has(&self, incident: &Incident) -> bool
        ensures { let i = incident.now in
            result ≡ contains pair_cmp self.now (i.division, i.number) }
    {
        self.incidents
            .contains(&(incident.division, incident.number))
    }
}

// Whether no call of its position comes after it in key order.
fn is_end(call: &Call, next: Option<&Call>) -> bool
    ensures { result ≡ is_end call.now (option_copied next.entry) }
{
    match next {
        Some(next) => next.position != call.position,
        None => true,
    }
}
