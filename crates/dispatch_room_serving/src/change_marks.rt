//! The mark beside a list: a file that is as long as the list was before a change. It is there from
//! before the first byte of the change's records until they last, so whoever finds it knows where
//! they begin, whatever a power cut left of them. Its bytes are never written, so it takes no room,
//! and there is never a part of it: it has that length, or none yet.
ghost use Rattle.std.specs.Prelude.{false, refl, None, ⊤};

use crate::journal_files::{Lasting, folder_of};
use std::fs;
use std::fs::{File, OpenOptions};
use std::io::{Error, ErrorKind, Write};
use std::os::unix::fs::OpenOptionsExt;

/// The file of a list that was opened on the disk, beside which a change can be marked.
#[derive(Drop)]
pub struct ListOnDisk<'a> {
    rt: &'a HostRuntime,
    pub(crate) file: File,
    mark: String,
}

impl<'a> ListOnDisk<'a> {
    /// The file of a list, and the path of its mark.
    pub(crate) fn new(rt: &'a HostRuntime, file: File, mark: String) -> ListOnDisk<'a> {
        ListOnDisk { rt, file, mark }
    }
}

impl<'a> Write for ListOnDisk<'a> {
    ghost contents = { λ _. None };

    fn write(&mut self, buf: &[u8]) -> Result<usize, Error> {
        self.file.write(buf)
    }

    fn flush(&mut self) -> Result<(), Error> {
        self.file.flush()
    }
}

// No contract can say what a file holds, what of it lasts, nor what is marked beside it.
impl<'a> Lasting for ListOnDisk<'a> {
    ghost lasting = { λ _. None };

    ghost is_known = { false };

    ghost marks = { λ _ _. ⊤ };

    fn sync(&mut self) -> Result<(), Error> {
        self.file.sync_data()
    }

    fn mark(&mut self) -> Result<(), Error> {
        let bytes = self.file.metadata()?.len();
        mark(self.rt, self.mark.as_str(), bytes)
    }

    fn unmark(&mut self) -> Result<(), Error> {
        unmark(self.rt, self.mark.as_str())
    }

    ghost known = { λ _. refl };
}

/// The path of the mark of a list. The mark lies beside the list itself, also if its path is a link
/// to it.
pub(crate) fn mark_path(rt: &HostRuntime, path: &str) -> Result<String, Error> {
    let list = fs::canonicalize(rt, path)?;
    match format!(in rt.alloc(); "{}.change", list.as_str()) {
        Ok(mark) => Ok(mark),
        Err(_) => Err(ErrorKind::OutOfMemory.into()),
    }
}

/// How many bytes a mark has: `None` if there is none.
pub(crate) fn marked(rt: &HostRuntime, mark: &str) -> Result<Option<u64>, Error> {
    match fs::metadata(rt, mark) {
        Ok(found) => Ok(Some(found.len())),
        Err(error) if error.kind() == ErrorKind::NotFound => Ok(None),
        Err(error) => Err(error),
    }
}

// Makes a mark of so many bytes, and makes it last, and its name. Where a file has the name, that
// stays as it is.
fn mark(rt: &HostRuntime, mark: &str, bytes: u64) -> Result<(), Error> {
    let file = OpenOptions::new()
        .write(true)
        .create_new(true)
        .mode(0o600)
        .open(rt, mark)?;
    file.set_len(bytes)?;
    file.sync_all()?;
    folder_of(rt, mark)?.sync_all()
}

/// Removes a mark for good, if there is one.
pub(crate) fn unmark(rt: &HostRuntime, mark: &str) -> Result<(), Error> {
    let folder = folder_of(rt, mark);
    match fs::remove_file(rt, mark) {
        Ok(()) => folder?.sync_all(),
        Err(error) if error.kind() == ErrorKind::NotFound => Ok(()),
        Err(error) => Err(error),
    }
}
