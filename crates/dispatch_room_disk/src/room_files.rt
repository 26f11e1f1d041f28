//! The file of a room: found or made, opened, worked in, and closed.
ghost use Rattle.std.specs.Prelude.{◌≡◌, Err, Ok, None, true, false, IfErr, IfOk, IsTrue, OnOk};
ghost use Rattle.std.specs.Prelude.{nat_eq, not};
ghost use Rattle.std.specs.IoError.{error_kind};
ghost use Rattle.sqlite.specs.Files.{file_state};
ghost use Rattle.sqlite.specs.State.{HasCleanDisk};
ghost use Rattle.dispatch_room_exit.specs.declared.exit_status.Failure.TheVariants as failure;
ghost use Rattle.dispatch_room_disk.specs.DiskFaults.{IsFileFault, IsUnfoundBy, fault_of};
ghost use Rattle.dispatch_room_disk.specs.RoomFiles.{Closes, IsConnected, IsCopiedOut, IsFound};
ghost use Rattle.dispatch_room_disk.specs.RoomFiles.{IsUnclosed, IsUnfound, IsUnharmed};
ghost use Rattle.dispatch_room_disk.specs.SystemFiles.{system};

use crate::file_causes::{explain_failed, explain_taken, explain_unbegun, explain_undone};
use crate::new_files::{begin_in, make_private};
use crate::new_logs::{lacked_log, remove_unused};
use crate::opened_files::open_files;
use crate::openings::{Opening, opened};
use crate::systems::System;
use dispatch_room_exit::exit_status::Failure;
use dispatch_room_exit::failure_causes::Explainer;
use dispatch_room_tasks::opened_room::TaskResult;
use sqlite::{Alter, Connection, Error, ErrorCode, File, FileStore, Files, Options, Unknown};
use sqlite_disk::Disk;
use std::fs;
use std::io::{self, ErrorKind, Read};

/// The file of a room, and what a command requires of it.
#[derive(Clone, Copy)]
pub enum RoomFile<'a> {
    /// It must be there. A file in which no database was begun is refused, and stays as it is: the
    /// database would take it for a new one, and write its first page.
    Kept(&'a str),
    /// It must be there too, and hold a room of version 1.
    Old(&'a str),
    /// It is made if it is not there, for its owner only.
    New(&'a str),
}

impl<'a> RoomFile<'a> {
    pub(crate) fn path(self) -> &'a str {
        match self {
            RoomFile::Kept(path) | RoomFile::Old(path) | RoomFile::New(path) => path,
        }
    }
}

/// Opens the database of a room's file. An empty log that was not there before is removed again if
/// the files that were opened hold no database. Explains why if it can't be opened, or something is
/// in it where it has to be empty.
pub fn open(
    rt: &HostRuntime,
    explainer: Explainer<'_>,
    file: RoomFile<'_>,
) -> Result<Connection<FileStore<File>>, Failure>
    ensures outside { IfOk result (λ conn. conn.in_transaction ≡ false) }
    ensures connected { IfOk result IsConnected }
    ensures fault { IfErr result IsUnfound }
{
    let lacked = lacked_log(rt, file.path());
    let (files, options) = opened(&mut System { rt, explainer }, file)?;
    connection(rt, explainer, file, lacked, files, options)
}

/// What came of work in the database of a room's file, once the file is closed with all that was
/// committed in it. Explains why if it can't be closed, or the work could not be done.
pub fn close<D: Disk + Drop, T: Drop>(
    explainer: Explainer<'_>,
    file: RoomFile<'_>,
    worked: TaskResult<T, FileStore<D>>,
) -> Result<T, Failure>
    ensures { Closes worked result }
{
    match worked {
        Ok((done, conn)) => match copied_out(explainer, file.path(), conn) {
            Ok(()) => {
                explain_failed(explainer, file, &done);
                done
            }
            Err(fault) => Err(fault),
        },
        Err(fault) => {
            explain_undone(explainer, file, fault);
            Err(fault)
        }
    }
}

// Closes a file, with all in it that was committed.
fn copied_out<D: Disk + Drop>(
    explainer: Explainer<'_>,
    path: &str,
    conn: Connection<FileStore<D>>,
) -> Result<(), Failure>
    ensures copied { OnOk result (IsCopiedOut conn) }
    ensures fault { IfErr result (IsUnclosed conn) }
{
    match conn.close_files() {
        Ok(files) => {
            drop(files);
            Ok(())
        }
        Err((error, store)) => {
            drop(store.close());
            Err(fault_of(explainer, path, error))
        }
    }
}

// No contract can say what was done with a file of the system.
impl<'a> Opening for System<'a> {
    type Opened = (Files<File>, Options);

    ghost done = { λ _. None };

    ghost usable = { λ _ opened. IsTrue (system.is_usable opened.0.log)
        × IsTrue (system.is_usable opened.0.db) };

    fn find(&mut self, path: &str) -> Result<(), Failure> {
        let begun = is_begun(self.rt, path);
        explain_unbegun(self.explainer, path, &begun);
        found(begun)
    }

    fn make(&mut self, path: &str) -> Result<(), Failure> {
        make_private(self.rt, path)
    }

    fn begin(&mut self, path: &str) -> Result<(), Failure> {
        begin_in(self.rt, self.explainer, path)
    }

    fn open(&mut self, path: &str) -> Result<(Files<File>, Options), Failure> {
        open_files(self.rt, self.explainer, path, Unknown)
    }
}

// A connection to the database that files hold. If that fails, an empty log that was not there
// before is removed while the files are still locked.
fn connection<D: Disk + Drop>(
    rt: &HostRuntime,
    explainer: Explainer<'_>,
    file: RoomFile<'_>,
    lacked: Option<String>,
    files: Files<D>,
    options: Options,
) -> Result<Connection<FileStore<D>>, Failure>
    requires log { IsTrue (D.Disk.is_usable files.log) }
    requires db { IsTrue (D.Disk.is_usable files.db) }
    ensures outside { IfOk result (λ conn. conn.in_transaction ≡ false) }
    ensures found { IfOk result (λ conn. HasCleanDisk (file_state conn) → IsFound files conn) }
    ensures unharmed { IfErr result (IsUnharmed D.Disk files) }
    ensures fault { IfErr result IsFileFault }
{
    match Connection::open_files(rt.alloc(), files, options) {
        Ok(conn) => {
            explain_taken(explainer, file, conn.schema());
            Ok(conn)
        }
        Err((error, left)) => {
            remove_unused(rt, lacked, &left);
            drop(left);
            Err(fault_of(explainer, file.path(), error))
        }
    }
}

// What is reported of a file by whether a database was begun in it, whole or damaged.
fn found(begun: io::Result<bool>) -> Result<(), Failure>
    ensures begun { OnOk result (begun ≡ Ok true) }
    ensures none { begun ≡ Ok false → result ≡ Err failure.File }
    ensures fault { IfErr result IsUnfound }
    ensures cause { IfErr begun (λ error. IfErr result (IsUnfoundBy (error_kind error))) }
{
    match begun {
        Ok(true) => Ok(()),
        Ok(false) => Err(Failure::File),
        Err(error) => Err(unfound(error.kind())),
    }
}

// What is reported of a file that can't be looked at: it is not there, or it can't be read.
fn unfound(kind: ErrorKind) -> Failure
    ensures { IsUnfoundBy kind result }
{
    match kind {
        ErrorKind::NotFound => Failure::File,
        ErrorKind::OutOfMemory => Failure::Memory,
        _ => Failure::Storage,
    }
}

// Whether a database was begun in a file.
fn is_begun(rt: &HostRuntime, path: &str) -> io::Result<bool> {
    if fs::metadata(rt, path)?.len() == 0 {
        return Ok(false);
    }
    let mut first = [0];
    fs::open(rt, path)?.read_exact(&mut first)?;
    Ok(begins(first[0]))
}

// Whether a database begins with a byte: that of its first page is written last, and is 0 until
// then.
fn begins(first: u8) -> bool
    ensures { result ≡ not (nat_eq first 0) }
{
    first != 0
}

// Explains an error of the database, and returns the program's failure for it.
fn fault_of(explainer: Explainer<'_>, path: &str, error: Error) -> Failure
    ensures { result ≡ fault_of error }
{
    explainer.explain(format_args!("{path}: {error}"));
    match error {
        Error::SqliteFailure(ErrorCode::OutOfMemory) => Failure::Memory,
        _ => Failure::Storage,
    }
}
