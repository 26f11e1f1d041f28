//! The candidates of a search by rings, and the order in which it finds them: the nearest first.
use room_types::callsign::Callsign;
use room_types::tables::Vehicle;

/// How near a vehicle is: by distance in whole metres, and then by callsign.
#[derive(Clone, Copy, PartialEq, Eq, PartialOrd, Ord)]
pub(crate) struct Nearness {
    pub(crate) distance: u32,
    pub(crate) callsign: Callsign,
}

/// A vehicle that may be sent.
#[derive(Clone, Copy)]
pub(crate) struct Candidate {
    /// How many rings of cells it stands away from the incident's cell.
    pub(crate) ring: u32,
    /// Whether sending it breaks cover.
    pub(crate) breaks: bool,
    pub(crate) vehicle: Vehicle,
}
