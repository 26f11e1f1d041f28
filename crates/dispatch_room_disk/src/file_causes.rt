//! Explains why a room's file is not opened, or nothing is done in it.

use crate::holders::holder;
use crate::room_files::RoomFile;
use dispatch_room_exit::exit_status::Failure;
use dispatch_room_exit::failure_causes::Explainer;
use room_tables_schema::schema_tests::{begins_as_room, is_empty};
use sqlite_schema::schema::Schema;
use sqlite_std_file::OpenError;
use std::fs;
use std::io::{self, ErrorKind};
use std::os::unix::fs::MetadataExt;

/// Explains why no database was begun in a file, where none was.
pub(crate) fn explain_unbegun(explainer: Explainer<'_>, path: &str, begun: &io::Result<bool>) {
    match begun {
        Ok(true) => {}
        Ok(false) => explainer.explain(format_args!(
            "{path} is no room: it is empty, or `init` was stopped"
        )),
        Err(error) => explainer.explain(format_args!("{path}: {error}")),
    }
}

/// Explains why the files of a room can't be opened.
pub(crate) fn explain_unopened(
    rt: &HostRuntime,
    explainer: Explainer<'_>,
    path: &str,
    error: &OpenError,
) {
    match error {
        OpenError::Busy if explainer.is_wanted() => match holder(rt, path) {
            Some(process) => {
                explainer.explain(format_args!("{path} is in use by process {process}"));
            }
            None => explainer.explain(format_args!("{path} is in use by another process")),
        },
        OpenError::Io(error) if explainer.is_wanted() && error.kind() == ErrorKind::Unsupported => {
            if explain_kind(rt, explainer, path).is_err() {
                explainer.explain(format_args!("{path}: {error}"));
            }
        }
        _ => explainer.explain(format_args!("{path}: {error}")),
    }
}

// Explains which of a room's files is of a kind that is not opened: the file that a path leads to,
// or its log, at whose name no link may stand. Else one was replaced while it was opened.
fn explain_kind(rt: &HostRuntime, explainer: Explainer<'_>, path: &str) -> io::Result<()> {
    let file = fs::canonicalize(rt, path)?;
    if let Some(fault) = fault_at(rt, file.as_str())? {
        explainer.explain(format_args!("{path} {fault}"));
        return Ok(());
    }
    let log = format!(in rt.alloc(); "{}-wal", file.as_str())?;
    if let Some(fault) = fault_at(rt, log.as_str())? {
        explainer.explain(format_args!("{log} {fault}"));
        return Ok(());
    }
    explainer.explain(format_args!("{path} was replaced while it was opened"));
    Ok(())
}

// What is wrong with the kind of a file: only a regular one with a single name is opened.
fn fault_at(rt: &HostRuntime, path: &str) -> io::Result<Option<&'static str>> {
    let found = fs::symlink_metadata(rt, path)?;
    Ok(if !found.is_file() {
        Some("is no regular file")
    } else if found.nlink() > 1 {
        Some("has a second hard link")
    } else {
        None
    })
}

/// Explains that nothing can be made in a file that was opened, because something is in it already:
/// a room, of this version or another, or another database.
pub(crate) fn explain_taken(explainer: Explainer<'_>, file: RoomFile<'_>, schema: &Schema) {
    let RoomFile::New(path) = file else {
        return;
    };
    if begins_as_room(schema) {
        explainer.explain(format_args!("{path} is a room already"));
    } else if !is_empty(schema) {
        explainer.explain(format_args!("{path} is another database"));
    }
}

/// Explains why the work can't be done in a file that was opened.
pub(crate) fn explain_undone(explainer: Explainer<'_>, file: RoomFile<'_>, fault: Failure) {
    let path = file.path();
    match (file, fault) {
        // Explained as it was opened.
        (RoomFile::New(_), Failure::File) => {}
        (_, Failure::File) => explainer.explain(format_args!(
            "{path} is no room: `dispatch_room check` says what is wrong"
        )),
        (RoomFile::Old(_), Failure::Version) => {
            explainer.explain(format_args!("{path} is a room of this version already"));
        }
        (_, Failure::Version) => explainer.explain(format_args!(
            "{path} is a room of version 1: `dispatch_room migrate` moves it"
        )),
        (RoomFile::New(_), Failure::Storage) => {
            explainer.explain(format_args!("{path} can't be written"));
        }
        (_, Failure::Storage) => explainer.explain(format_args!(
            "{path} can't be read, or is damaged: a row is not of its table"
        )),
        _ => {}
    }
}

/// Explains that a file failed during the work in it, though it could be closed.
pub(crate) fn explain_failed<T: Drop>(
    explainer: Explainer<'_>,
    file: RoomFile<'_>,
    done: &Result<T, Failure>,
) {
    if let Err(Failure::Storage) = done {
        let path = file.path();
        explainer.explain(format_args!("{path} can't be read or written, or is damaged"));
    }
}
