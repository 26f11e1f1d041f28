//! The file of a new room: private to its owner, and with small pages.
ghost use Rattle.std.specs.Prelude.{◌≡◌, ◌≢◌, true, IfErr, IsErr, IsOk, IsTrue, OnOk};
ghost use Rattle.std.specs.IoError.{error_kind};
ghost use Rattle.dispatch_room_exit.specs.declared.exit_status.Failure.TheVariants.{Memory};
ghost use Rattle.sqlite_pages.specs.declared.error.Error.TheVariants.{Corrupt};
ghost use Rattle.sqlite_wal.specs.Reads.{AreClean};
ghost use Rattle.dispatch_room_disk.specs.DiskFaults.{IsFileFault, begun_by};
ghost use Rattle.dispatch_room_disk.specs.NewFiles.{IsBegun, IsSpared};

use crate::opened_files::open_files;
use dispatch_room_exit::exit_status::Failure;
use dispatch_room_exit::failure_causes::Explainer;
use sqlite::{Files, Options, Unknown};
use sqlite_disk::Disk;
use sqlite_pager::{PageSize, Pager};
use sqlite_pages::Error;
use sqlite_pool::Pool;
use std::alloc::Global;
use std::fs::{File, OpenOptions};
use std::io::{self, ErrorKind};
use std::os::unix::fs::OpenOptionsExt;

// How many bytes a page of a new room has. Each page on which a row changes is written whole, and a
// row has about a hundred bytes. The database's default is 4,096.
const PAGE: usize = 512;

/// Begins an empty database in the file of a room where it holds none.
pub(crate) fn begin_in(
    rt: &HostRuntime,
    explainer: Explainer<'_>,
    path: &str,
) -> Result<(), Failure>
    ensures { IfErr result IsFileFault }
{
    let (files, options) = open_files(rt, explainer, path, Unknown)?;
    let (begun, _files) = begin(rt.alloc(), explainer, path, files, options);
    begun
}

/// Makes a file that only its owner reads and writes, where none is there; its log gets the same
/// mode. Why it can't be made is reported by what opens it.
pub(crate) fn make_private(rt: &HostRuntime, path: &str) -> Result<(), Failure>
    ensures { IfErr result IsFileFault }
{
    made(&private_options().open(rt, path))
}

// What is reported of making a file: only lack of memory. Any other failure is reported by what
// opens the file.
fn made(file: &io::Result<File>) -> Result<(), Failure>
    ensures fault { IfErr result (λ fault. fault ≡ Memory) }
    ensures memory { IfErr file.now (λ error. error_kind error ≡ ErrorKind.OutOfMemory
        → IsErr result) }
    ensures same { IfErr file.now (λ error. error_kind error ≢ ErrorKind.OutOfMemory
        → IsOk result) }
    ensures made { OnOk file.now (IsOk result) }
{
    match file {
        Err(error) if error.kind() == ErrorKind::OutOfMemory => Err(Failure::Memory),
        _ => Ok(()),
    }
}

/// How that file is opened: only if it is not there yet, so one that is there stays as it is.
pub(crate) fn private_options() -> OpenOptions
    ensures { result.create_new ≡ true }
{
    let mut options = OpenOptions::new();
    options.mode(0o600);
    options.write(true);
    options.create_new(true);
    options
}

// Begins an empty database in files that hold none, and gives them back. A stop on the way leaves
// no database, so that one can be begun again, or an empty one. Files that hold one stay as they
// are, even if this fails.
fn begin<D: Disk + Drop>(
    alloc: Global,
    explainer: Explainer<'_>,
    path: &str,
    files: Files<D>,
    options: Options,
) -> (Result<(), Failure>, Files<D>)
    requires log { IsTrue (D.Disk.is_usable files.log) }
    requires db { IsTrue (D.Disk.is_usable files.db) }
    ensures begun { AreClean D.Disk result.1.log result.1.db
        → OnOk result.0 (IsBegun D.Disk files result.1) }
    ensures spared { AreClean D.Disk result.1.log result.1.db → IsSpared D.Disk files result.1 }
    ensures fault { IfErr result.0 IsFileFault }
{
    let size = PageSize::new(PAGE).unwrap();
    let pager = match Pager::new(alloc, files, size, options) {
        Ok(pager) => pager,
        Err(failed) => return (Err(Failure::Memory), failed.value),
    };
    let mut pool = match Pool::new(alloc, pager, false) {
        Ok(pool) => pool,
        Err(failed) => return (Err(Failure::Memory), failed.value.close()),
    };
    let made = begun(explainer, path, pool.create());
    (made, pool.close())
}

// What came of beginning a database. Files that hold one already are refused as `Corrupt`, which is
// no failure here. Explains why if the files failed.
fn begun(explainer: Explainer<'_>, path: &str, created: Result<(), Error>) -> Result<(), Failure>
    ensures done { OnOk result (IfErr created (λ error. error ≡ Corrupt)) }
    ensures fault { IfErr result IsFileFault }
    ensures cause { result ≡ begun_by created }
{
    match created {
        Ok(()) | Err(Error::Corrupt) => Ok(()),
        Err(Error::OutOfMemory) => Err(Failure::Memory),
        Err(error) => {
            explainer.explain(format_args!("{path}: {error}"));
            Err(Failure::Storage)
        }
    }
}
