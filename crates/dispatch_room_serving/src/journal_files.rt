//! The file of a journal: a record that a crash cut off is set aside, or what is left of a truncated
//! list, and entries are appended to the rest.
ghost use Rattle.std.specs.Prelude.{◌≡◌, ◌||◌, ◌⊎◌, ℕ, List, Bool, false, if◌then◌else◌, is_some};
ghost use Rattle.std.specs.Prelude.{nat_lt, not, refl, IfErr, IsErrAnd, IsTrue, MatchResult, None};
ghost use Rattle.std.specs.Prelude.{Ok, OnErr, OnOk, Option, Some, length, true, ⊤};
ghost use Rattle.std.specs.Io.KnownBytes.{Appends};
ghost use Rattle.dispatch_room_exit.specs.declared.exit_status.Failure.TheVariants as failure;
ghost use Rattle.dispatch_room_journal.specs.Chains.{opening};
ghost use Rattle.dispatch_room_journal.specs.PlainTexts.{StandsKnown};
ghost use Rattle.dispatch_room_journal.specs.RowRuns.{PutsEntry};
ghost use Rattle.dispatch_room_journal.specs.declared.list_ends.ListEnd.{ListEnd};
ghost use Rattle.dispatch_room_serving.specs.Journals.{held_in, puts_end};
ghost use Rattle.dispatch_room_serving.specs.OpenedLists.{IsListFault, IsMarked};
ghost use Rattle.dispatch_room_serving.specs.declared.journal_files.WrittenFile.{WrittenFile};

use crate::change_marks::{ListOnDisk, mark_path, marked, unmark};
use crate::journals::Keeper;
use crate::list_places::{Aside, put_aside};
use crate::opened_lists::{ListFile, Rest, end_of};
use dispatch_room_exit::exit_status::Failure;
use dispatch_room_exit::failure_causes::Explainer;
use dispatch_room_journal::list_ends::{ListEnd, put_end, put_entry};
use dispatch_room_journal::record_writer::put_opening;
use room_http::observers::JournalFailed;
use room_http_messages::sinks::{Sink, WriteFailed};
use room_http_messages::standard_wires::Wire;
use std::alloc::Global;
use std::fs;
use std::fs::{File, OpenOptions, TryLockError};
use std::io::{self, Error, ErrorKind, Read, Seek, SeekFrom, Take, Write};
use std::marker::Model;
use std::os::fd::AsRawFd;
use std::os::unix::fs::OpenOptionsExt;

/// The list of a journal that was opened: its file, and how it goes on there.
#[derive(Drop)]
pub struct OpenedList<F: Lasting> {
    file: F,
    end: ListEnd,
}

// The list goes on at the file's end.
impl<F: Lasting> Model for OpenedList<F> {
    ghost Value = { F × ListEnd };

    ghost view = { λ list. (list.file, list.end) };

    ghost invariant = { λ list. StandsKnown list.end (F.contents list.file) };
}

impl<F: Lasting> OpenedList<F> {
    /// Its file.
    pub fn file(&self) -> &F
        ensures { result.now ≡ self.now.0 }
    {
        &self.file
    }

    /// How it goes on.
    pub fn end(&self) -> ListEnd
        ensures { result ≡ self.now.1 }
    {
        self.end
    }

    /// Its file, which from here on explains why it can't be written, and how the list goes on.
    pub fn into_file<'a>(
        self,
        explainer: Explainer<'a>,
        path: &'a str,
    ) -> (SystemFile<'a, F>, ListEnd)
        ensures file { result.0.file ≡ self.0 }
        ensures end { result.1 ≡ self.1 }
        ensures stands { StandsKnown result.1 (F.contents result.0.file) }
    {
        (SystemFile::new(self.file, explainer, path), self.end)
    }
}

/// Opens the file of a journal behind its last whole record, and locks it against other writers. A
/// missing file is made, for its owner only, and an empty one begins as a chain. A record that a
/// crash cut off is set aside, or what is left of a truncated list, which is reported to `err`.
/// What stands in the file then lasts, and so does its name, and no change is marked beside it.
/// Explains why if the file can't be opened, or is no journal.
pub fn open_journal<'a, E: Write>(
    rt: &'a HostRuntime,
    explainer: Explainer<'_>,
    alloc: Global,
    path: &str,
    err: &mut E,
) -> Result<OpenedList<ListOnDisk<'a>>, Failure>
    ensures { IfErr result (λ fault. (fault ≡ failure.Memory) ⊎ (fault ≡ failure.Journal)) }
{
    let file = opened(rt, explainer, path)?;
    let mark = match mark_path(rt, path) {
        Ok(mark) => mark,
        Err(error) => return Err(fault_of(explainer, path, &error)),
    };
    let mut found = FoundList {
        rt,
        alloc,
        explainer,
        path,
        mark: mark.as_str(),
        file: &file,
    };
    let end = end_of(alloc, explainer, path, &mut found, err)?;
    let file = ListOnDisk::new(rt, file, mark);
    Ok(OpenedList { file, end })
}

// The file of a list that was found or made at a path.
#[derive(Clone, Copy)]
struct FoundList<'a> {
    rt: &'a HostRuntime,
    alloc: Global,
    explainer: Explainer<'a>,
    path: &'a str,
    mark: &'a str,
    file: &'a File,
}

// No contract can say what was done with a file of the system, nor what is marked beside it.
impl<'a> ListFile for FoundList<'a> {
    type Reader = Wire<&'a File>;

    type Part = Wire<Take<&'a File>>;

    ghost tried = { λ _. None };

    ghost text = { λ _. None };

    ghost marks = { λ _ _. ⊤ };

    ghost is_unread = { λ _. ⊤ };

    fn settle(&mut self) -> Result<(), Failure> {
        self.explained(settle(self.rt, self.path, self.file))
    }

    fn reader(&self) -> Result<Wire<&'a File>, Failure> {
        let mut file = self.file;
        self.explained(file.seek(SeekFrom::Start(0)))?;
        Ok(Wire::new(file))
    }

    fn part(&self, bytes: u64) -> Result<Wire<Take<&'a File>>, Failure> {
        let mut file = self.file;
        self.explained(file.seek(SeekFrom::Start(0)))?;
        Ok(Wire::new(file.take(bytes)))
    }

    fn mark(&self) -> Result<Option<u64>, Failure> {
        self.explained(marked(self.rt, self.mark))
    }

    fn set_aside(&mut self, whole: u64, rest: Rest) -> Result<Option<String>, Failure> {
        let bytes = self.explained(length_of(self.file))?;
        let Some(at) = cut_to(bytes, whole) else {
            return Ok(None);
        };
        let end = ListEnding {
            rt: self.rt,
            file: self.file,
            at,
        };
        let put = put_aside(self.alloc, self.path, rest.word(), &end);
        self.explained(put).map(Some)
    }

    fn cut(&mut self, whole: u64) -> Result<(), Failure> {
        self.explained(cut(self.file, whole))
    }

    fn unmark(&mut self) -> Result<(), Failure> {
        self.explained(unmark(self.rt, self.mark))
    }

    fn begin(&mut self) -> Result<(), Failure> {
        let file = SystemFile::new(self.file, self.explainer, self.path);
        begin_chain(&mut WrittenFile::new(file))
    }
}

impl<'a> FoundList<'a> {
    // What a call of the system did. Explains why it failed.
    fn explained<T>(&self, done: Result<T, Error>) -> Result<T, Failure>
        ensures { MatchResult done (λ it. result ≡ Ok it) (λ _. IsErrAnd result IsListFault) }
    {
        match done {
            Ok(done) => Ok(done),
            Err(error) => Err(fault_of(self.explainer, self.path, &error)),
        }
    }
}

// Writes the line with which a chain begins, and makes it last. It fails only if its file does.
fn begin_chain<F: Lasting>(out: &mut WrittenFile<F>) -> Result<(), Failure>
    requires sound { out.old.failed ≡ false }
    ensures begun { OnOk result
        (Appends (F.contents out.old.file) (F.contents out.new.file) opening) }
    ensures lasts { OnOk result (F.lasting out.new.file ≡ F.contents out.new.file) }
    ensures fault { IfErr result (λ fault. fault ≡ failure.Journal) }
    ensures cause { OnErr result (out.new.failed ≡ true) }
{
    if put_opening(out).is_err() || !out.make_last() {
        return Err(Failure::Journal);
    }
    Ok(())
}

// Opens the file of a journal, and locks it against other writers.
fn opened(rt: &HostRuntime, explainer: Explainer<'_>, path: &str) -> Result<File, Failure>
    ensures { IfErr result IsListFault }
{
    match OpenOptions::new()
        .read(true)
        .append(true)
        .create(true)
        .mode(0o600)
        .open(rt, path)
    {
        Ok(file) => match file.try_lock() {
            Ok(()) => Ok(file),
            Err(TryLockError::WouldBlock) => {
                explainer.explain(format_args!("{path} is in use by another process"));
                Err(Failure::Journal)
            }
            Err(TryLockError::Error(error)) => Err(fault_of(explainer, path, &error)),
        },
        Err(error) => Err(fault_of(explainer, path, &error)),
    }
}

// Syncs what stands in a file, and its name in its folder. An earlier program may have ended at a
// sync that failed: then the system still shows what it has not written, and the next sync
// succeeds. So the file is synced first, and then the system's copies are dropped: what is read
// from here on is what the disk has. Only in that are whole records looked for, and only what
// follows them there is cut off.
fn settle(rt: &HostRuntime, path: &str, file: &File) -> Result<(), Error> {
    file.sync_all()?;
    let advised = libc::posix_fadvise(file.as_raw_fd(), 0, 0, libc::POSIX_FADV_DONTNEED);
    if advised != 0 {
        return Err(Error::from_raw_os_error(advised));
    }
    folder_of(rt, path)?.sync_all()
}

// The folder of a file, where a link to it leads.
pub(crate) fn folder_of(rt: &HostRuntime, path: &str) -> Result<File, Error> {
    let mut folder = fs::canonicalize(rt, path)?;
    folder.pop();
    File::open(rt, folder.as_str())
}

// The number of the bytes of a file.
fn length_of(file: &File) -> Result<u64, Error> {
    Ok(file.metadata()?.len())
}

// What stands in the file of a list from one of its bytes on.
#[derive(Clone, Copy)]
struct ListEnding<'a> {
    rt: &'a HostRuntime,
    file: &'a File,
    at: u64,
}

impl<'a> ListEnding<'a> {
    // Copies it to a new file of this name, and makes that last, and its name.
    fn copy_to(&self, target: &mut File, name: &str) -> Result<(), Error> {
        let mut file = self.file;
        file.seek(SeekFrom::Start(self.at))?;
        io::copy(&mut file, target)?;
        target.sync_all()?;
        folder_of(self.rt, name)?.sync_all()
    }
}

// It is copied. A file of which not all could be written is removed.
impl<'a> Aside for ListEnding<'a> {
    fn put(&self, name: &str) -> Result<(), Error> {
        let mut target = OpenOptions::new()
            .write(true)
            .create_new(true)
            .mode(0o600)
            .open(self.rt, name)?;
        let copied = self.copy_to(&mut target, name);
        if copied.is_err() {
            let _ = fs::remove_file(self.rt, name);
        }
        copied
    }
}

// Cuts off what follows so many bytes of a file.
fn cut(file: &File, whole: u64) -> Result<(), Error> {
    match cut_to(length_of(file)?, whole) {
        Some(end) => {
            file.set_len(end)?;
            file.sync_all()
        }
        None => Ok(()),
    }
}

// At which byte a file is cut off, by its length and that of its whole records: `None` if all of it
// is whole.
fn cut_to(bytes: u64, whole: u64) -> Option<u64>
    ensures { result ≡ if nat_lt whole bytes then Some whole else None }
{
    if whole < bytes { Some(whole) } else { None }
}

// Explains an error of the file, and returns the program's failure for it.
fn fault_of(explainer: Explainer<'_>, path: &str, error: &Error) -> Failure
    ensures { IsListFault result }
{
    explainer.explain(format_args!("{path}: {error}"));
    if error.kind() == ErrorKind::OutOfMemory {
        Failure::Memory
    } else {
        Failure::Journal
    }
}

/// An output to which bytes are appended, and which can make them last.
pub trait Lasting: Write {
    // What it holds wherever the machine stops, where that is known.
    ghost lasting: { Self → Option (List ℕ) };

    // Whether what it holds is known, of each of these or of none.
    ghost is_known: { Bool };

    // That a mark beside it has so many bytes, or that there is none.
    ghost marks: { Self → Option ℕ → Type 0 };

    /// Makes all that was written last.
    fn sync(&mut self) -> Result<(), Error>
        ensures held { Self.contents self.new ≡ Self.contents self.old }
        ensures lasts { OnOk result (lasting self.new ≡ Self.contents self.new) };

    /// Marks beside it, so that it lasts, how long it is: what follows is a change that does not
    /// last yet. What has no place for a mark fails.
    fn mark(&mut self) -> Result<(), Error>
        ensures held { Self.contents self.new ≡ Self.contents self.old }
        ensures marked { OnOk result (IsMarked Self.contents marks self.new) }
    {
        Err(ErrorKind::Unsupported.into())
    }

    /// Takes that mark away again, once all that is held lasts.
    fn unmark(&mut self) -> Result<(), Error>
        requires lasts { lasting self.old ≡ Self.contents self.old }
        ensures held { Self.contents self.new ≡ Self.contents self.old }
        ensures lasts { lasting self.new ≡ Self.contents self.new }
        ensures unmarked { OnOk result (marks self.new None) }
    {
        Err(ErrorKind::Unsupported.into())
    }

    ghost known: { (file : Self) → is_some (Self.contents file) ≡ is_known };
}

// No contract can say what a file holds, nor what of it lasts.
impl<'a> Lasting for &'a File {
    ghost lasting = { λ _. None };

    ghost is_known = { false };

    ghost marks = { λ _ _. ⊤ };

    fn sync(&mut self) -> Result<(), Error> {
        self.sync_data()
    }

    ghost known = { λ _. refl };
}

/// A file of the system. It explains why if it can't be written.
#[derive(Drop)]
pub struct SystemFile<'a, F> {
    file: F,
    explainer: Explainer<'a>,
    path: &'a str,
}

impl<'a, F> SystemFile<'a, F> {
    /// A file that was opened at a path.
    pub fn new(file: F, explainer: Explainer<'a>, path: &'a str) -> SystemFile<'a, F>
        ensures { result.file ≡ file }
    {
        SystemFile {
            file,
            explainer,
            path,
        }
    }

    // Explains why a call failed, if it did.
    fn explain<T>(&self, done: &Result<T, Error>) {
        if let Err(error) = done {
            let path = self.path;
            self.explainer.explain(format_args!("{path}: {error}"));
        }
    }
}

impl<'a, F: Lasting> Write for SystemFile<'a, F> {
    ghost contents = { λ system. F.contents system.file };

    fn write(&mut self, buf: &[u8]) -> Result<usize, Error> {
        let written = self.file.write(buf);
        self.explain(&written);
        written
    }

    fn flush(&mut self) -> Result<(), Error> {
        self.file.flush()
    }
}

impl<'a, F: Lasting> Lasting for SystemFile<'a, F> {
    ghost lasting = { λ system. F.lasting system.file };

    ghost is_known = { F.is_known };

    ghost marks = { λ system. F.marks system.file };

    fn sync(&mut self) -> Result<(), Error> {
        let synced = self.file.sync();
        self.explain(&synced);
        synced
    }

    fn mark(&mut self) -> Result<(), Error> {
        let marked = self.file.mark();
        self.explain(&marked);
        marked
    }

    fn unmark(&mut self) -> Result<(), Error> {
        let unmarked = self.file.unmark();
        self.explain(&unmarked);
        unmarked
    }

    ghost known = { λ system. F.known system.file };
}

/// A file that is written to, and whether a write or a sync failed.
#[derive(Drop)]
pub struct WrittenFile<F> {
    pub file: F,
    failed: bool,
}

impl<F> WrittenFile<F> {
    /// A file to which nothing failed.
    pub fn new(file: F) -> WrittenFile<F>
        ensures { result ≡ record { file = file; failed = false } }
    {
        WrittenFile {
            file,
            failed: false,
        }
    }
}

impl<F: Lasting> WrittenFile<F> {
    /// Makes all that was written last, and returns whether it could.
    pub fn make_last(&mut self) -> bool
        ensures held { F.contents self.new.file ≡ F.contents self.old.file }
        ensures failed { self.new.failed ≡ (self.old.failed || not result) }
        ensures lasts { IsTrue result → F.lasting self.new.file ≡ F.contents self.new.file }
    {
        let lasts = self.file.sync().is_ok();
        self.failed = self.failed || !lasts;
        lasts
    }

    /// Marks beside the file that a change begins here, and returns whether it could.
    pub fn mark(&mut self) -> bool
        ensures held { F.contents self.new.file ≡ F.contents self.old.file }
        ensures failed { self.new.failed ≡ (self.old.failed || not result) }
        ensures marked { IsTrue result → IsMarked F.contents F.marks self.new.file }
    {
        let marked = self.file.mark().is_ok();
        self.failed = self.failed || !marked;
        marked
    }

    /// Takes that mark away again, once all lasts, and returns whether it could.
    pub fn unmark(&mut self) -> bool
        requires lasts { F.lasting self.old.file ≡ F.contents self.old.file }
        ensures held { F.contents self.new.file ≡ F.contents self.old.file }
        ensures lasts { F.lasting self.new.file ≡ F.contents self.new.file }
        ensures failed { self.new.failed ≡ (self.old.failed || not result) }
        ensures unmarked { IsTrue result → F.marks self.new.file None }
    {
        let unmarked = self.file.unmark().is_ok();
        self.failed = self.failed || !unmarked;
        unmarked
    }
}

impl<F: Lasting> Sink for WrittenFile<F> {
    ghost held = { λ written. F.contents written.file };

    ghost has_failed = { λ written. written.failed };

    fn write(&mut self, buf: &[u8]) -> Result<usize, WriteFailed> {
        match self.file.write(buf) {
            Ok(count) => {
                if count == 0 && !buf.is_empty() {
                    self.failed = true;
                }
                Ok(count)
            }
            Err(_) => {
                self.failed = true;
                Err(WriteFailed)
            }
        }
    }
}

/// The file of a journal, to which entries are appended in the form of its list. Once one could not
/// be written, or made to last, none is.
#[derive(Drop)]
pub struct JournalFile<F: Lasting> {
    out: WrittenFile<F>,
    end: ListEnd,
}

// Where no write and no sync failed, the list goes on at the file's end.
impl<F: Lasting> Model for JournalFile<F> {
    ghost Value = { WrittenFile F × ListEnd };

    ghost view = { λ journal. (journal.out, journal.end) };

    ghost invariant = { λ journal. journal.out.failed ≡ false
        → StandsKnown journal.end (F.contents journal.out.file) };
}

impl<F: Lasting> JournalFile<F> {
    /// A file that was opened, and whose list goes on from here.
    pub fn new(file: F, end: ListEnd) -> JournalFile<F>
        requires { StandsKnown end (F.contents file) }
        ensures { result ≡ (record { file = file; failed = false }, end) }
    {
        JournalFile {
            out: WrittenFile::new(file),
            end,
        }
    }
}

// The entries and rows are those that the list holds, in whichever form.
impl<F: Lasting> Keeper for JournalFile<F> {
    ghost held = { held_in F.contents };

    ghost lasting = { held_in F.lasting };

    ghost has_failed = { λ journal. journal.0.failed };

    ghost puts = { λ old new entry. PutsEntry old.1 new.1 (F.contents old.0.file)
        (F.contents new.0.file) entry };

    ghost ends = { puts_end F.contents };

    fn keep(&mut self, entry: &[u8]) -> Result<(), JournalFailed> {
        if self.out.failed {
            return Err(JournalFailed);
        }
        match put_entry(&mut self.out, &mut self.end, entry) {
            Ok(()) => Ok(()),
            Err(_) => Err(JournalFailed),
        }
    }

    fn end(&mut self) -> Result<(), JournalFailed> {
        if self.out.failed {
            return Err(JournalFailed);
        }
        match put_end(&mut self.out, &mut self.end) {
            Ok(()) => Ok(()),
            Err(_) => Err(JournalFailed),
        }
    }

    fn sync(&mut self) -> bool {
        self.out.make_last()
    }
}
