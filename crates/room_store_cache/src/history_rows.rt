//! The rows of a division that a request reads beside its fleet.
use room_types::rows::Rows;
use room_types::tables::{Call, Incident, Report, Turn};

/// The rows of a division that a request reads beside its fleet.
#[derive(Drop)]
pub struct HistoryRows {
    pub incidents: Rows<Incident>,
    pub calls: Rows<Call>,
    pub turns: Rows<Turn>,
    pub reports: Rows<Report>,
}
