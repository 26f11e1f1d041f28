//! Why a call of the database fails.

ghost use Rattle.std.specs.Prelude.{◌≡◌};
ghost use Rattle.room_tables_schema.specs.DatabaseFaults.{fault_of};
ghost use Rattle.room_tables_schema.specs.declared.database_faults.Fault.TheVariants.{Memory};

use sqlite::ErrorCode;
use std::alloc::{AllocError, AllocFailed};
use thiserror::Error;

/// Why a call of the database fails. What the room refuses is none of these.
#[derive(Clone, Copy, Debug, PartialEq, Eq, Error)]
pub enum Fault {
    /// Memory was refused; the same call may succeed later.
    #[error("out of memory")]
    Memory,
    /// The database failed for another cause, or gave a row that is none of its table.
    #[error("the database failed")]
    Storage,
}

impl From<sqlite::Error> for Fault {
    ghost from_gives = { λ error fault. fault ≡ fault_of error };

    fn from(error: sqlite::Error) -> Fault {
        match error {
            sqlite::Error::SqliteFailure(ErrorCode::OutOfMemory) => Fault::Memory,
            _ => Fault::Storage,
        }
    }
}

impl From<AllocError> for Fault {
    ghost from_gives = { λ _ fault. fault ≡ Memory };

    fn from(_: AllocError) -> Fault {
        Fault::Memory
    }
}

impl<T: Drop> From<AllocFailed<T>> for Fault {
    ghost from_gives = { λ _ fault. fault ≡ Memory };

    fn from(_: AllocFailed<T>) -> Fault {
        Fault::Memory
    }
}
