//! A copy of a room, put in the place of a file.
ghost use Rattle.std.specs.Prelude.{◌≡◌, ◌≢◌, [], ◌∷◌, ℕ, IfErr, IfOk, IsErrAnd, IsOk, List, None};
ghost use Rattle.std.specs.Prelude.{OnOk, Option, false, map, true};
ghost use Rattle.std.specs.IoError.{error_kind};
ghost use Rattle.dispatch_room_exit.specs.declared.exit_status.Failure.TheVariants as failure;
ghost use Rattle.dispatch_room_disk.specs.DiskFaults.{IsFaultBy, IsFileFault};
ghost use Rattle.dispatch_room_disk.specs.FileSteps.{Does, Follows, FollowsFor};
ghost use Rattle.dispatch_room_disk.specs.ReplacingSteps.{IsFaultOf, Step, answered, compared};
ghost use Rattle.dispatch_room_disk.specs.ReplacingSteps.{copied, distinguished, ends, held, kept};
ghost use Rattle.dispatch_room_disk.specs.ReplacingSteps.{looked, moving, naming, put, putting};
ghost use Rattle.dispatch_room_disk.specs.ReplacingSteps.{removed, replacing, reserved, set_aside};
ghost use Rattle.dispatch_room_disk.specs.ReplacingSteps.{setting_aside, synced};
ghost use Rattle.dispatch_room_disk.specs.declared.aside_names.Found.{Found as Finding};
ghost use Rattle.dispatch_room_disk.specs.declared.aside_names.Found.TheVariants.{Copy};

use crate::aside_names::{Found, aside_path};
use crate::file_causes::explain_unopened;
use crate::new_files::private_options;
use crate::systems::System;
use dispatch_room_cli::database_names::ENDS;
use dispatch_room_exit::exit_status::Failure;
use dispatch_room_exit::failure_causes::Explainer;
use sqlite::{File, Files, Unknown};
use sqlite_std_file::OpenError;
use std::fs;
use std::io::{self, ErrorKind, Read};
use std::os::unix::fs::MetadataExt;

// How many rooms may lie aside beside one file.
const MOST_ASIDE: u32 = 1000;

// How many bytes of two files are compared at once.
const PIECE: usize = 4096;

/// The calls of the system by which a copy is put in the place of a file. Those that come after the
/// lock borrow it, so that it can't be given up before the last of them. What is set aside goes to
/// FILE.old, FILE.old.1 and so on, by the number of that name.
pub trait Replacing {
    /// The lock of a file.
    type Held: Drop;

    // What was done, where that is known.
    ghost done: { Self → Option (List Step) };

    /// Refuses a copy that is the file itself.
    fn distinguish(&mut self, copy: &str, path: &str) -> Result<(), Failure>
        ensures done { Follows (distinguished copy.now path.now ∷ []) (done self.old)
            (done self.new) result }
        ensures fault { IfErr result (λ fault. fault ≡ failure.File) };

    /// Locks the files that are there, so that nobody serves them meanwhile. A damaged file is no
    /// obstacle, nor is a journal that another program left beside it.
    fn hold(&mut self, path: &str) -> Result<Self::Held, Failure>
        ensures done { Follows (held path.now ∷ []) (done self.old) (done self.new) result }
        ensures fault { IfErr result IsFileFault };

    /// Whether FILE holds what the copy holds, and nothing lies beside it but empty files.
    fn has_copy(&mut self, lock: &Self::Held, copy: &str, path: &str) -> bool
        ensures done { Does (compared copy.now path.now result ∷ []) (done self.old)
            (done self.new) };

    /// Copies a whole file to FILE.new, which only its owner may read, and syncs it.
    fn copy(&mut self, lock: &Self::Held, copy: &str, path: &str) -> io::Result<()>
        ensures done { Follows (copied copy.now path.now ∷ []) (done self.old) (done self.new)
            result };

    /// Whether there is FILE, or a file that a database has beside it.
    fn is_there(&mut self, lock: &Self::Held, path: &str) -> io::Result<bool>
        ensures done { Follows (looked path.now (answered result) ∷ []) (done self.old)
            (done self.new) result };

    /// Makes an empty file of the name of this number, unless that is there, or a file that a
    /// database has beside it. Whether it did.
    fn reserve(&mut self, lock: &Self::Held, path: &str, number: u32) -> io::Result<bool>
        ensures done { Follows (reserved path.now number (answered result) ∷ []) (done self.old)
            (done self.new) result };

    /// Copies FILE with this end, if it is there, to the name of this number with that end, where
    /// none may be, and syncs it.
    fn keep(&mut self, lock: &Self::Held, path: &str, end: &str, number: u32) -> io::Result<()>
        ensures done { Follows (kept path.now number end.now ∷ []) (done self.old) (done self.new)
            result };

    /// Renames FILE, if it is there, to the reserved name of this number.
    fn set_aside(&mut self, lock: &Self::Held, path: &str, number: u32) -> io::Result<()>
        ensures done { Follows (set_aside path.now number ∷ []) (done self.old) (done self.new)
            result };

    /// Removes FILE with this end, if it is there.
    fn remove(&mut self, lock: &Self::Held, path: &str, end: &str) -> io::Result<()>
        ensures done { Follows (removed path.now end.now ∷ []) (done self.old) (done self.new)
            result };

    /// Renames FILE.new to FILE.
    fn put(&mut self, lock: &Self::Held, path: &str) -> io::Result<()>
        ensures done { Follows (put path.now ∷ []) (done self.old) (done self.new) result };

    /// Syncs the file's folder, so that the new names last.
    fn sync(&mut self, lock: &Self::Held, path: &str) -> io::Result<()>
        ensures done { Follows (synced path.now ∷ []) (done self.old) (done self.new) result };
}

/// Puts a copy of a room in the place of a file, unless the file is in use, or is the copy itself
/// (`File`). Where the copy's room is there already it stays. Any other is set aside under a name
/// of its own, with its log: the log is copied there before the file gets the name, and only then
/// does it go, and the copy comes. So whenever this is stopped there is the room that was there,
/// whole, in its place or aside, and no file lies beside the log of another.
pub fn put_in_place<R: Replacing>(
    calls: &mut R,
    explainer: Explainer<'_>,
    copy: &str,
    path: &str,
) -> Result<Found, Failure>
    ensures { (found : Finding) × IfOk result (λ it. it ≡ found)
        × FollowsFor IsFaultOf (replacing copy.now path.now found)
        (R.done calls.old) (R.done calls.new) result }
{
    calls.distinguish(copy, path)?;
    let held = calls.hold(path)?;
    let put = put_copy(calls, &held, copy, path);
    drop(held);
    put_by(explainer, path, put)
}

// What is reported of the replacement. Explains why if it failed.
fn put_by(explainer: Explainer<'_>, path: &str, put: io::Result<Found>) -> Result<Found, Failure>
    ensures done { IfOk put (λ found. result ≡ Ok found) }
    ensures file { IfErr result IsFileFault }
    ensures fault { IfErr put (λ error. IsErrAnd result (IsFaultBy (error_kind error))) }
{
    match put {
        Ok(found) => Ok(found),
        Err(error) => {
            explainer.explain(format_args!("{path}: {error}"));
            Err(fault_by(error.kind()))
        }
    }
}

// The program's failure for an error of the system.
fn fault_by(kind: ErrorKind) -> Failure
    ensures fault { IsFileFault result }
    ensures cause { IsFaultBy kind result }
{
    if kind == ErrorKind::OutOfMemory {
        Failure::Memory
    } else {
        Failure::Storage
    }
}

// Makes the new file beside the old one, moves the old one away, and gives the new one its name.
// Where an earlier run did all that, only the name is still to last.
fn put_copy<R: Replacing>(
    calls: &mut R,
    lock: &R::Held,
    copy: &str,
    path: &str,
) -> io::Result<Found>
    ensures { (found : Finding) × IfOk result (λ it. it ≡ found)
        × Follows (putting copy.now path.now found) (R.done calls.old) (R.done calls.new) result }
{
    if calls.has_copy(lock, copy, path) {
        calls.sync(lock, path)?;
        return Ok(Found::Copy);
    }
    calls.copy(lock, copy, path)?;
    let found = set_aside(calls, lock, path)?;
    calls.put(lock, path)?;
    calls.sync(lock, path)?;
    Ok(found)
}

// Moves away what is there. A log may lie there without a file.
fn set_aside<R: Replacing>(calls: &mut R, lock: &R::Held, path: &str) -> io::Result<Found>
    ensures { (found : Finding) × IfOk result (λ it. it ≡ found) × (found ≢ Copy)
        × Follows (setting_aside path.now found) (R.done calls.old) (R.done calls.new) result }
{
    if !calls.is_there(lock, path)? {
        return Ok(Found::Nothing);
    }
    let number = reserve(calls, lock, path)?;
    move_away(calls, lock, path, number)?;
    Ok(Found::Other(number))
}

// Reserves the first name that is free, and returns its number.
fn reserve<R: Replacing>(calls: &mut R, lock: &R::Held, path: &str) -> io::Result<u32>
    ensures { (number : ℕ) × IfOk result (λ it. it ≡ number)
        × Follows (naming path.now number) (R.done calls.old) (R.done calls.new) result }
{
    for number in 0..MOST_ASIDE {
        if calls.reserve(lock, path, number)? {
            return Ok(number);
        }
    }
    Err(ErrorKind::AlreadyExists.into())
}

// Moves a room to the name of a number. Each step lasts before the next: the log lies under that
// name before the file does, and is removed once the file lies there.
fn move_away<R: Replacing>(calls: &mut R, lock: &R::Held, path: &str, number: u32) -> io::Result<()>
    ensures { Follows (moving path.now number) (R.done calls.old) (R.done calls.new) result }
{
    keep_ends(calls, lock, path, number)?;
    calls.sync(lock, path)?;
    calls.set_aside(lock, path, number)?;
    calls.sync(lock, path)?;
    remove_ends(calls, lock, path)?;
    calls.sync(lock, path)
}

fn keep_ends<R: Replacing>(calls: &mut R, lock: &R::Held, path: &str, number: u32) -> io::Result<()>
    ensures { Follows (map (kept path.now number) ends) (R.done calls.old) (R.done calls.new)
        result }
{
    for end in ENDS {
        calls.keep(lock, path, end, number)?;
    }
    Ok(())
}

fn remove_ends<R: Replacing>(calls: &mut R, lock: &R::Held, path: &str) -> io::Result<()>
    ensures { Follows (map (removed path.now) ends) (R.done calls.old) (R.done calls.new) result }
{
    for end in ENDS {
        calls.remove(lock, path, end)?;
    }
    Ok(())
}

// No contract can say what was done with a file of the system.
impl<'a> Replacing for System<'a> {
    type Held = Option<Files<File>>;

    ghost done = { λ _. None };

    fn distinguish(&mut self, copy: &str, path: &str) -> Result<(), Failure> {
        if is_same(self.rt, copy, path) {
            self.explainer
                .explain(format_args!("{path} is the copy itself"));
            return Err(Failure::File);
        }
        Ok(())
    }

    fn hold(&mut self, path: &str) -> Result<Option<Files<File>>, Failure> {
        hold(self.rt, self.explainer, path)
    }

    fn has_copy(&mut self, _lock: &Self::Held, copy: &str, path: &str) -> bool {
        matches!(is_copied(self.rt, copy, path), Ok(true))
    }

    fn copy(&mut self, _lock: &Self::Held, copy: &str, path: &str) -> io::Result<()> {
        let new = format!(in self.rt.alloc(); "{path}.new")?;
        unless_missing(fs::remove_file(self.rt, new.as_str()))?;
        copy_whole(self.rt, copy, new.as_str())
    }

    fn is_there(&mut self, _lock: &Self::Held, path: &str) -> io::Result<bool> {
        is_taken(self.rt, path)
    }

    fn reserve(&mut self, _lock: &Self::Held, path: &str, number: u32) -> io::Result<bool> {
        let aside = aside_path(self.rt.alloc(), path, number)?;
        if is_taken(self.rt, aside.as_str())? {
            return Ok(false);
        }
        is_made(private_options().open(self.rt, aside.as_str()))
    }

    fn keep(&mut self, _lock: &Self::Held, path: &str, end: &str, number: u32) -> io::Result<()> {
        let from = format!(in self.rt.alloc(); "{path}{end}")?;
        let aside = aside_path(self.rt.alloc(), path, number)?;
        let to = format!(in self.rt.alloc(); "{}{end}", aside.as_str())?;
        if !stands(self.rt, from.as_str())? {
            return Ok(());
        }
        copy_whole(self.rt, from.as_str(), to.as_str())
    }

    fn set_aside(&mut self, _lock: &Self::Held, path: &str, number: u32) -> io::Result<()> {
        let aside = aside_path(self.rt.alloc(), path, number)?;
        unless_missing(fs::rename(self.rt, path, aside.as_str()))
    }

    fn remove(&mut self, _lock: &Self::Held, path: &str, end: &str) -> io::Result<()> {
        let beside = format!(in self.rt.alloc(); "{path}{end}")?;
        unless_missing(fs::remove_file(self.rt, beside.as_str()))
    }

    fn put(&mut self, _lock: &Self::Held, path: &str) -> io::Result<()> {
        let new = format!(in self.rt.alloc(); "{path}.new")?;
        fs::rename(self.rt, new.as_str(), path)
    }

    fn sync(&mut self, _lock: &Self::Held, path: &str) -> io::Result<()> {
        sync_folder(self.rt, path)
    }
}

// Whether a file that is no link holds the same bytes as another one, and nothing lies beside it
// but empty files.
fn is_copied(rt: &HostRuntime, copy: &str, path: &str) -> io::Result<bool> {
    if !fs::symlink_metadata(rt, path)?.is_file() {
        return Ok(false);
    }
    for end in ENDS {
        let beside = format!(in rt.alloc(); "{path}{end}")?;
        if stands(rt, beside.as_str())? && fs::metadata(rt, beside.as_str())?.len() > 0 {
            return Ok(false);
        }
    }
    holds_same(rt, copy, path)
}

// Whether two files hold the same bytes.
fn holds_same(rt: &HostRuntime, one: &str, other: &str) -> io::Result<bool> {
    let (mut one, mut other) = (fs::open(rt, one)?, fs::open(rt, other)?);
    if one.metadata()?.len() != other.metadata()?.len() {
        return Ok(false);
    }
    let (mut here, mut there) = ([0; PIECE], [0; PIECE]);
    for _piece in 0..u64::MAX {
        let count = one.read(&mut here)?;
        if count == 0 {
            return Ok(true);
        }
        other.read_exact(&mut there[..count])?;
        if here[..count] != there[..count] {
            return Ok(false);
        }
    }
    Ok(false)
}

// Whether there is a file of this path, or one that a database has beside it.
fn is_taken(rt: &HostRuntime, path: &str) -> io::Result<bool> {
    for end in ENDS {
        let beside = format!(in rt.alloc(); "{path}{end}")?;
        if stands(rt, beside.as_str())? {
            return Ok(true);
        }
    }
    stands(rt, path)
}

// Whether something has this path, a link too.
fn stands(rt: &HostRuntime, path: &str) -> io::Result<bool> {
    match fs::symlink_metadata(rt, path) {
        Ok(_) => Ok(true),
        Err(error) if error.kind() == ErrorKind::NotFound => Ok(false),
        Err(error) => Err(error),
    }
}

// Whether a file was made, which is not so where one was there.
fn is_made(made: io::Result<fs::File>) -> io::Result<bool>
    ensures made { OnOk made (result ≡ Ok true) }
    ensures there { IfErr made (λ error. error_kind error ≡ ErrorKind.AlreadyExists
        → result ≡ Ok false) }
    ensures failed { IfErr made (λ error. error_kind error ≢ ErrorKind.AlreadyExists
        → result ≡ Err error) }
{
    match made {
        Ok(_) => Ok(true),
        Err(error) if error.kind() == ErrorKind::AlreadyExists => Ok(false),
        Err(error) => Err(error),
    }
}

// Whether both paths lead to one file.
fn is_same(rt: &HostRuntime, one: &str, other: &str) -> bool {
    match (fs::metadata(rt, one), fs::metadata(rt, other)) {
        (Ok(one), Ok(other)) => one.dev() == other.dev() && one.ino() == other.ino(),
        _ => false,
    }
}

// The files that are there, locked.
fn hold(
    rt: &HostRuntime,
    explainer: Explainer<'_>,
    path: &str,
) -> Result<Option<Files<File>>, Failure>
    ensures { IfErr result IsFileFault }
{
    if fs::symlink_metadata(rt, path).is_err() {
        return Ok(None);
    }
    match sqlite_std_file::open(rt, path, Unknown) {
        Ok(files) => Ok(Some(files)),
        Err(OpenError::HotJournal) => Ok(None),
        Err(OpenError::OutOfMemory) => Err(Failure::Memory),
        Err(error) => {
            explain_unopened(rt, explainer, path, &error);
            Err(Failure::Storage)
        }
    }
}

// Copies a whole file to a path where none may be, for its owner only, and syncs it.
fn copy_whole(rt: &HostRuntime, from: &str, to: &str) -> io::Result<()> {
    let mut source = fs::open(rt, from)?;
    let mut target = private_options().open(rt, to)?;
    io::copy(&mut source, &mut target)?;
    target.sync_all()
}

// The result of a call that succeeds, too, if there was no such file.
fn unless_missing(done: io::Result<()>) -> io::Result<()>
    ensures done { OnOk done (IsOk result) }
    ensures missing { IfErr done (λ error. error_kind error ≡ ErrorKind.NotFound → IsOk result) }
    ensures there { IfErr done (λ error. error_kind error ≢ ErrorKind.NotFound → result ≡ done) }
{
    match done {
        Err(error) if error.kind() == ErrorKind::NotFound => Ok(()),
        _ => done,
    }
}

// Syncs a file's folder, so that new names last.
fn sync_folder(rt: &HostRuntime, path: &str) -> io::Result<()> {
    let folder = match path.rsplit_once('/') {
        Some(("", _)) => "/",
        Some((folder, _)) => folder,
        None => ".",
    };
    fs::open(rt, folder)?.sync_all()
}
