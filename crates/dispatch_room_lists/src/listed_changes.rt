//! What the rows of a list are: a fleet, or another change of its room.
ghost use Rattle.std.specs.Prelude.{IfNone, IfOk, IfSome};
ghost use Rattle.dispatch_room_lists.specs.ListedRows.{IsListed, IsNoFile};

use crate::change_texts::change_of;
use crate::room_changes::RoomChange;
use dispatch_room_csv::fleet_file::{FleetFileFault, FleetLine, read_fleet};
use dispatch_room_tasks::row_outcomes::good_rows;
use room_types::fleet::FleetRow;
use std::alloc::{AllocError, Global};

/// What is done by the rows of a list.
#[derive(Drop)]
pub enum ListedChange {
    /// These rows of a fleet are enrolled.
    Fleet(Vec<FleetRow>),
    Change(RoomChange),
}

/// Reads what the rows of a list stand for; `None` if that is neither a fleet nor a change. Bad
/// rows of a fleet are left out.
pub fn listed_in(alloc: Global, text: &[u8]) -> Result<Option<ListedChange>, AllocError>
    ensures listed { IfOk result (λ found. IfSome found (IsListed text.now)) }
    ensures none { IfOk result (λ found. IfNone found (IsNoFile text.now)) }
{
    match read_fleet(alloc, text) {
        Ok(lines) => {
            let rows = good_rows(alloc, lines.as_slice())?;
            Ok(Some(ListedChange::Fleet(rows)))
        }
        Err(FleetFileFault::Memory) => Err(AllocError),
        Err(FleetFileFault::Input) => match change_of(alloc, text)? {
            Some(change) => Ok(Some(ListedChange::Change(change))),
            None => Ok(None),
        },
    }
}
