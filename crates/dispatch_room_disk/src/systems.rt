//! The system by which files are opened and replaced.

use dispatch_room_exit::failure_causes::Explainer;

/// The system, with its files, and who explains why a call of it fails.
#[derive(Clone, Copy)]
pub struct System<'a> {
    pub rt: &'a HostRuntime,
    pub explainer: Explainer<'a>,
}
