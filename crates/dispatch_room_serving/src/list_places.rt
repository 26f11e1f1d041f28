//! The place of a list that is kept: whether it still stands there.
ghost use Rattle.std.specs.Prelude.{◌≡◌, ◌≢◌, false, true, IfOk, None, OnErr, ⊤};
ghost use Rattle.dispatch_room_serving.specs.ListPlaces.{finding_of, has_left};
ghost use Rattle.dispatch_room_serving.specs.declared.list_places.Finding.TheVariants.{There};

use crate::change_marks::ListOnDisk;
use std::alloc::Global;
use std::fs;
use std::io::{Error, ErrorKind};
use std::os::unix::fs::MetadataExt;

// How many files of one kind may lie aside beside a list.
const MOST_ASIDE: u32 = 1_000;

/// What can be put aside.
pub(crate) trait Aside {
    /// Puts it in a new file of this name. Where a file has the name, that stays as it is, and the
    /// error is `AlreadyExists`.
    fn put(&self, name: &str) -> Result<(), Error>;
}

/// Puts something aside beside a list: under the list's name with `.WORD.1`, `.2` and so on, the
/// first up to 1,000 that no file has. Returns that name.
pub(crate) fn put_aside<A: Aside>(
    alloc: Global,
    path: &str,
    word: &str,
    aside: &A,
) -> Result<String, Error> {
    for number in 1..=MOST_ASIDE {
        let Ok(name) = format!(in alloc; "{path}.{word}.{number}") else {
            return Err(ErrorKind::OutOfMemory.into());
        };
        match aside.put(name.as_str()) {
            Ok(()) => return Ok(name),
            Err(error) if error.kind() == ErrorKind::AlreadyExists => {}
            Err(error) => return Err(error),
        }
    }
    Err(ErrorKind::AlreadyExists.into())
}

/// What a look finds at the place of a list.
#[derive(Clone, Copy, PartialEq, Eq)]
pub enum Finding {
    /// The list, or the system doesn't say.
    There,
    /// The list, with fewer bytes than at the last look.
    Truncated,
    /// Another file or none: the list was renamed or removed.
    Elsewhere,
}

/// The place of a list: its path, which file of the system was opened there, how many bytes that
/// had at the last look, and whether a look found it moved or truncated.
#[derive(Clone, Copy)]
pub struct ListPlace<'a> {
    rt: &'a HostRuntime,
    path: &'a str,
    device: u64,
    inode: u64,
    bytes: u64,
    has_left: bool,
}

/// A file of the system that stands at a place.
pub trait Placed {
    // That the system doesn't say which file it is.
    ghost is_hidden: { Self → Type 0 };

    /// The place at which it was opened, if the system says which file it is.
    fn place<'a>(&self, rt: &'a HostRuntime, path: &'a str) -> Result<ListPlace<'a>, Error>
        ensures placed { IfOk result (λ place. place.has_left ≡ false) }
        ensures hidden { OnErr result (is_hidden self.now) };
}

// No contract can say when the system says it.
impl<'b> Placed for ListOnDisk<'b> {
    ghost is_hidden = { λ _. ⊤ };

    fn place<'a>(&self, rt: &'a HostRuntime, path: &'a str) -> Result<ListPlace<'a>, Error> {
        let found = self.file.metadata()?;
        Ok(ListPlace {
            rt,
            path,
            device: found.dev(),
            inode: found.ino(),
            bytes: found.len(),
            has_left: false,
        })
    }
}

impl<'a> ListPlace<'a> {
    /// What a look finds there, by one call of the system.
    pub fn look(&mut self) -> Finding
        ensures left { result ≢ There → self.new.has_left ≡ true }
        ensures stands { result ≡ There → self.new.has_left ≡ self.old.has_left }
    {
        let found = self.find();
        match found {
            Finding::There => {}
            Finding::Truncated | Finding::Elsewhere => self.has_left = true,
        }
        found
    }

    // What a look finds there, without a note that the list was moved or truncated.
    fn find(&mut self) -> Finding
        ensures same { self.new.has_left ≡ self.old.has_left }
    {
        match fs::metadata(self.rt, self.path) {
            Ok(found) => {
                let is_same = found.dev() == self.device && found.ino() == self.inode;
                let finding = finding_of(is_same, found.len(), self.bytes);
                if finding == Finding::There {
                    self.bytes = found.len();
                }
                finding
            }
            Err(error) if error.kind() == ErrorKind::NotFound => Finding::Elsewhere,
            Err(_) => Finding::There,
        }
    }

    /// Renames what stands there to its own name with `.truncated.1`, `.2` and so on. Returns
    /// whether it could. What has no bytes is left where it is.
    pub fn set_aside(&self, alloc: Global) -> bool {
        match fs::metadata(self.rt, self.path) {
            Ok(found) if found.len() == 0 => true,
            _ => put_aside(alloc, self.path, "truncated", self).is_ok(),
        }
    }
}

// What stands at the place of a list is renamed.
impl<'a> Aside for ListPlace<'a> {
    fn put(&self, name: &str) -> Result<(), Error> {
        fs::hard_link(self.rt, self.path, name)?;
        fs::remove_file(self.rt, self.path)
    }
}

// What stands at the place of a list that had `bytes` bytes: its file or another one, of `len`.
fn finding_of(is_same: bool, len: u64, bytes: u64) -> Finding
    ensures { result ≡ finding_of is_same len bytes }
{
    if !is_same {
        Finding::Elsewhere
    } else if len < bytes {
        Finding::Truncated
    } else {
        Finding::There
    }
}

/// What a look finds at the place of a list: `There` if no list is kept.
pub fn standing(place: &mut Option<ListPlace<'_>>) -> Finding
    ensures left { result ≢ There → has_left place.new ≡ true }
    ensures stands { result ≡ There → has_left place.new ≡ has_left place.old }
    ensures unlooked { place.old ≡ None → result ≡ There }
    ensures none { place.old ≡ None → place.new ≡ None }
{
    match place {
        Some(place) => place.look(),
        None => Finding::There,
    }
}
