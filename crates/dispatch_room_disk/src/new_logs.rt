//! The log that is made beside a room's file as the file is opened. It is removed again if no
//! database is found there.
ghost use Rattle.std.specs.Prelude.{◌≡◌, ◌&&◌, nat_eq};

use sqlite::Leftover;
use sqlite_disk::Disk;
use std::fs;
use std::io::ErrorKind;

/// The path of a file's log, if there is no log yet. The log lies beside the file itself, also if
/// the path is a link to it.
pub(crate) fn lacked_log(rt: &HostRuntime, path: &str) -> Option<String> {
    let file = fs::canonicalize(rt, path).ok()?;
    let log = format!(in rt.alloc(); "{}-wal", file.as_str()).ok()?;
    match fs::symlink_metadata(rt, log.as_str()) {
        Err(error) if error.kind() == ErrorKind::NotFound => Some(log),
        _ => None,
    }
}

/// Removes a log that was not there before, if it is empty. The files that were opened with it are
/// still locked, so nobody else writes it. If it can't be removed it stays: why the file could not
/// be used is reported anyway.
pub(crate) fn remove_unused<D: Disk>(
    rt: &HostRuntime,
    lacked: Option<String>,
    _locked: &Leftover<D>,
) {
    if let Some(log) = lacked
        && let Ok(found) = fs::symlink_metadata(rt, log.as_str())
        && is_unused(found.is_file(), found.len())
    {
        let _ = fs::remove_file(rt, log.as_str());
    }
}

// Whether a log is a file without pages.
fn is_unused(is_file: bool, len: u64) -> bool
    ensures { result ≡ is_file && nat_eq len 0 }
{
    is_file && len == 0
}
