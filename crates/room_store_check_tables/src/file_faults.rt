//! Why a file is not taken as a room.
ghost use Rattle.std.specs.Prelude.{◌≡◌};

use room_tables_schema::database_faults::Fault;

/// Why a file is not taken as a room.
#[derive(Clone, Copy)]
pub enum FileFault {
    /// The tables stand for no well-formed room.
    NotARoom,
    Memory,
    Storage,
}

impl From<Fault> for FileFault {
    ghost use Rattle.room_store_check_tables.specs.HeldRooms.{take_fault};

    ghost from_gives = { λ fault why. why ≡ take_fault fault };

    fn from(fault: Fault) -> FileFault {
        match fault {
            Fault::Memory => FileFault::Memory,
            Fault::Storage => FileFault::Storage,
        }
    }
}
