//! The steps by which a room's file is opened, in their order.
ghost use Rattle.std.specs.Prelude.{◌≡◌, ◌⊎◌, [], ◌∷◌, IfErr, IfOk, List, Option};
ghost use Rattle.dispatch_room_exit.specs.declared.exit_status.Failure.TheVariants as failure;
ghost use Rattle.dispatch_room_disk.specs.DiskFaults.{IsFileFault};
ghost use Rattle.dispatch_room_disk.specs.FileSteps.{Follows};
ghost use Rattle.dispatch_room_disk.specs.OpeningSteps.{Step, begun, found, made, opened, opening};

use crate::room_files::RoomFile;
use dispatch_room_exit::exit_status::Failure;

/// The calls of the system by which a room's file is opened.
pub(crate) trait Opening {
    /// The files of a room, opened.
    type Opened: Drop;

    // What was done, where that is known.
    ghost done: { Self → Option (List Step) };

    // What holds of files that were opened.
    ghost usable: { Self → Self.Opened → Type 0 };

    /// Checks that a database was begun in a file. It fails as `File` if none was, or there is no
    /// file.
    fn find(&mut self, path: &str) -> Result<(), Failure>
        ensures done { Follows (found path.now ∷ []) (done self.old) (done self.new) result }
        ensures fault { IfErr result (λ fault. (fault ≡ failure.File) ⊎ IsFileFault fault) };

    /// Makes a file that only its owner reads and writes, where none is there.
    fn make(&mut self, path: &str) -> Result<(), Failure>
        ensures done { Follows (made path.now ∷ []) (done self.old) (done self.new) result }
        ensures fault { IfErr result IsFileFault };

    /// Begins an empty database in a file that holds none.
    fn begin(&mut self, path: &str) -> Result<(), Failure>
        ensures done { Follows (begun path.now ∷ []) (done self.old) (done self.new) result }
        ensures fault { IfErr result IsFileFault };

    /// Opens a file.
    fn open(&mut self, path: &str) -> Result<Self::Opened, Failure>
        ensures done { Follows (opened path.now ∷ []) (done self.old) (done self.new) result }
        ensures usable { IfOk result (usable self.new) }
        ensures fault { IfErr result IsFileFault };
}

/// Opens a room's file, by the steps of its kind.
pub(crate) fn opened<C: Opening>(calls: &mut C, file: RoomFile<'_>) -> Result<C::Opened, Failure>
    ensures done { Follows (opening file.entry) (C.done calls.old) (C.done calls.new) result }
    ensures usable { IfOk result (C.usable calls.new) }
    ensures fault { IfErr result (λ fault. (fault ≡ failure.File) ⊎ IsFileFault fault) }
{
    match file {
        RoomFile::Kept(path) | RoomFile::Old(path) => opened_found(calls, path),
        RoomFile::New(path) => opened_new(calls, path),
    }
}

// Opens a file that must be there.
fn opened_found<C: Opening>(calls: &mut C, path: &str) -> Result<C::Opened, Failure>
    ensures done { Follows (found path.now ∷ opened path.now ∷ []) (C.done calls.old)
        (C.done calls.new) result }
    ensures usable { IfOk result (C.usable calls.new) }
    ensures fault { IfErr result (λ fault. (fault ≡ failure.File) ⊎ IsFileFault fault) }
{
    calls.find(path)?;
    calls.open(path)
}

// Opens a file that is made first if it is not there, and in which a database is begun if it holds
// none.
fn opened_new<C: Opening>(calls: &mut C, path: &str) -> Result<C::Opened, Failure>
    ensures done { Follows (made path.now ∷ begun path.now ∷ opened path.now ∷ [])
        (C.done calls.old) (C.done calls.new) result }
    ensures usable { IfOk result (C.usable calls.new) }
    ensures fault { IfErr result IsFileFault }
{
    calls.make(path)?;
    calls.begin(path)?;
    calls.open(path)
}
