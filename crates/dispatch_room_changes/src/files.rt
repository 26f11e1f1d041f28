//! Who may read or write a file that a command names.

use std::fs;
use std::os::unix::fs::PermissionsExt;

// The permissions of users other than the owner to read a file, and to write it.
const OTHERS: u32 = 0o066;

/// Whether users other than its owner may read or write a regular file. It is false if there is
/// none.
pub fn is_open_to_others(rt: &HostRuntime, path: &str) -> bool {
    match fs::metadata(rt, path) {
        Ok(found) => found.is_file() && found.permissions().mode() & OTHERS != 0,
        Err(_) => false,
    }
}
