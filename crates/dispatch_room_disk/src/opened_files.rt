//! The files of a room, opened.
ghost use Rattle.std.specs.Prelude.{◌≡◌, IfErr, IfOk, IsTrue};
ghost use Rattle.sqlite_std_file.specs.File.{file_is_usable};
ghost use Rattle.dispatch_room_disk.specs.DiskFaults.{IsFileFault, IsUnopenedBy};

use crate::file_causes::explain_unopened;
use dispatch_room_exit::exit_status::Failure;
use dispatch_room_exit::failure_causes::Explainer;
use sqlite::{FileFrom, Files, Options, Start};
use sqlite_std_file::OpenError;
use std::hash::{BuildHasher, RandomState};
use std::io::ErrorKind;

// How many pages that were read or written are kept in memory: 2 MiB of a new room. The database
// gives each page one place there, by its number, and reads the page again if another one has taken
// that place.
const CACHE_PAGES: usize = 4096;

// How many written pages the log holds before they are copied into the file: 4 MiB of a new room,
// as many bytes as the database would choose with pages of 4,096. A copy keeps a request waiting
// for a millisecond and more, and costs less the more often each page was written.
const LOG_PAGES: usize = 8192;

/// Opens the files of a room, and returns them with how the database keeps them. Explains why if
/// they can't be opened.
pub fn open_files<S: Start>(
    rt: &HostRuntime,
    explainer: Explainer<'_>,
    path: &str,
    start: S,
) -> Result<(Files<FileFrom<S>>, Options), Failure>
    ensures log { IfOk result (λ opened. IsTrue (file_is_usable S.Start opened.0.log)) }
    ensures db { IfOk result (λ opened. IsTrue (file_is_usable S.Start opened.0.db)) }
    ensures kept { IfOk result (λ opened. opened.1.cache_pages ≡ 4096) }
    ensures copied { IfOk result (λ opened. opened.1.checkpoint_frames ≡ 8192) }
    ensures fault { IfErr result IsFileFault }
{
    let files = match sqlite_std_file::open(rt, path, start) {
        Ok(files) => files,
        Err(error) => {
            explain_unopened(rt, explainer, path, &error);
            return Err(fault_of(&error));
        }
    };
    let Ok(random) = RandomState::new(rt) else {
        return Err(Failure::Storage);
    };
    let mut options = Options::new(random.hash_one(&0u8));
    options.cache_pages = CACHE_PAGES;
    options.checkpoint_frames = LOG_PAGES;
    Ok((files, options))
}

fn fault_of(error: &OpenError) -> Failure
    ensures fault { IsFileFault result }
    ensures cause { IsUnopenedBy error.now result }
{
    match error {
        OpenError::OutOfMemory => Failure::Memory,
        OpenError::Io(error) if error.kind() == ErrorKind::OutOfMemory => Failure::Memory,
        _ => Failure::Storage,
    }
}
