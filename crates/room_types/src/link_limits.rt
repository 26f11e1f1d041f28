//! How near and how soon a call is to come to be linked to an incident.

/// A call is linked to an incident that lies at most so many metres from it.
pub const LINK_METRES: u32 = 200;

/// A call is linked to an incident that was opened at most so many seconds before it.
pub const LINK_SECONDS: u32 = 900;
