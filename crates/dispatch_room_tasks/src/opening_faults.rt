//! The failures by which the program reports faults of the store.
ghost use Rattle.std.specs.Prelude.{◌≡◌};
ghost use Rattle.dispatch_room_tasks.specs.OpeningFaults.{create_fault, open_fault};

use dispatch_room_exit::exit_status::Failure;
use room_store::store_creation::CreateFault;
use room_store_file::opened_file::OpenFault;

/// The failure where a room can't be created.
pub fn of_creating(fault: CreateFault) -> Failure
    ensures { result ≡ create_fault fault }
{
    match fault {
        CreateFault::NotEmpty => Failure::File,
        // A plan's terminals are sound: it was judged as it was read.
        CreateFault::BadTerminal => Failure::Input,
        CreateFault::Memory => Failure::Memory,
        CreateFault::Storage => Failure::Storage,
    }
}

/// The failure where a file can't be opened, or moved to this version.
pub fn of_opening(fault: OpenFault) -> Failure
    ensures { result ≡ open_fault fault }
{
    match fault {
        OpenFault::OtherVersion => Failure::Version,
        OpenFault::NotARoom => Failure::File,
        OpenFault::Memory => Failure::Memory,
        OpenFault::Storage => Failure::Storage,
    }
}
