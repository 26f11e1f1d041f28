//! Which process holds a file.

use std::fs::{self, DirEntry, Metadata};
use std::io;
use std::os::unix::fs::MetadataExt;

/// The id of a process that has a file open and locked. `None` if there is none, or the system
/// doesn't show it, as of another user's processes.
pub fn holder(rt: &HostRuntime, path: &str) -> Option<u32> {
    let file = fs::metadata(rt, path).ok()?;
    for entry in fs::read_dir(rt, "/proc").ok()? {
        if let Some(process) = process_of(entry)
            && let Ok(true) = holds(rt, process, &file)
        {
            return Some(process);
        }
    }
    None
}

// The process of an entry of /proc, which has others too.
fn process_of(entry: io::Result<DirEntry>) -> Option<u32> {
    entry.ok()?.file_name().parse::<u32>().ok()
}

fn holds(rt: &HostRuntime, process: u32, file: &Metadata) -> io::Result<bool> {
    let open = format!(in rt.alloc(); "/proc/{process}/fd")?;
    for entry in fs::read_dir(rt, open.as_str())? {
        let entry = entry?;
        // A file that was closed meanwhile is skipped.
        if let Ok(found) = fs::metadata(rt, entry.path())
            && is_same(&found, file)
            && is_locked(rt, process, entry.file_name())?
        {
            return Ok(true);
        }
    }
    Ok(false)
}

fn is_same(one: &Metadata, other: &Metadata) -> bool {
    one.dev() == other.dev() && one.ino() == other.ino()
}

// Whether a process has a lock by one of its open files.
fn is_locked(rt: &HostRuntime, process: u32, open: &str) -> io::Result<bool> {
    let path = format!(in rt.alloc(); "/proc/{process}/fdinfo/{open}")?;
    Ok(
        fs::read_to_string(rt, path.as_str())?
            .as_str()
            .contains("lock:"),
    )
}
