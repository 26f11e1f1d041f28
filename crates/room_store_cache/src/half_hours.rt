//! The incidents that were opened in one half hour.
ghost use Rattle.std.specs.Prelude.{◌≡◌, ◌↔◌, All, IfSome, IsTrue, None, nat_le, if◌then◌else◌};
ghost use Rattle.room_types.specs.Keys.{incident_key, pair_cmp};
ghost use Rattle.room_types.specs.KeyedRows.{drop_row, put_row};
ghost use Rattle.room_store_cache.specs.HalfHours.{IsOpenedIn};

use crate::cached_rows::put_if;
use room_types::rows::Rows;
use room_types::tables::Incident;

// How many seconds after the first of them the last may be opened.
const HALF_HOUR: u32 = 1_800;

/// Incidents that were opened in one half hour.
#[derive(Drop)]
pub struct HalfHour {
    /// When it begins, as a second of UTC since 1970.
    pub from: u32,
    pub incidents: Rows<Incident>,
    ghost within: { All (IsOpenedIn from) incidents },
}

impl HalfHour {
    /// The half hour from this second on, where all of these were opened in it.
    pub fn new(from: u32, incidents: Rows<Incident>) -> Option<HalfHour>
        ensures same { IfSome result (λ x. (x.from ≡ from) × (x.incidents ≡ incidents)) }
        ensures none { result ≡ None → ¬ (All (IsOpenedIn from) incidents) }
    {
        for incident in incidents.as_slice() {
            if !is_in(from, incident) {
                return None;
            }
        }
        Some(HalfHour { from, incidents })
    }

    /// The half hour after an incident is put: with it in its key's place, or, where it was opened
    /// before, without the one of its key. None where it was opened later, or memory is refused.
    pub fn with(self, incident: &Incident) -> Option<HalfHour>
        ensures { IfSome result (λ x. (x.from ≡ self.from) × (x.incidents
            ≡ (if nat_le self.from incident.now.opened
            then put_row pair_cmp incident_key self.incidents incident.now
            else drop_row pair_cmp incident_key self.incidents (incident_key incident.now)))) }
    {
        let HalfHour {
            from,
            mut incidents,
        } = self;
        let is_since = from <= incident.opened.get();
        if is_since && !is_in(from, incident) {
            return None;
        }
        match put_if(is_since, &mut incidents, incident) {
            Ok(()) => Some(HalfHour { from, incidents }),
            Err(_) => None,
        }
    }
}

// Whether an incident was opened in the half hour from this second on.
fn is_in(from: u32, incident: &Incident) -> bool
    ensures { IsTrue result ↔ IsOpenedIn from incident.now }
{
    let opened = incident.opened.get();
    from <= opened && opened - from <= HALF_HOUR
}
