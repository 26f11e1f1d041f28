//! How a list is opened: what of it is whole is found, what follows that is set aside and cut off,
//! and a list of which nothing is whole is begun. Of one that was truncated while it was written
//! nothing is whole; of one in which a power cut left more than the beginning of one record, what
//! stands before a change's mark is, if there is one.
ghost use Rattle.std.specs.Prelude.{◌≡◌, ◌+◌, ℕ, List, [], ◌∷◌, false, is_ok, min, IfErr, IfOk};
ghost use Rattle.std.specs.Prelude.{◌⊎◌, MatchResult, Option, Some, option_map, take};
ghost use Rattle.dispatch_room_exit.specs.declared.exit_status.Failure.TheVariants.{Journal};
ghost use Rattle.dispatch_room_exit.specs.declared.exit_status.Failure.TheVariants.{Memory};
ghost use Rattle.room_http_messages.specs.Streams.{Grows};
ghost use Rattle.dispatch_room_journal.specs.WholeEntries.{EndsWhole};
ghost use Rattle.dispatch_room_journal.specs.declared.whole_records.ListForm.TheVariants.{Chain};
ghost use Rattle.dispatch_room_journal.specs.declared.whole_records.ListForm.TheVariants.{Plain};
ghost use Rattle.dispatch_room_serving.specs.Journals.{IsUnread};
ghost use Rattle.dispatch_room_serving.specs.OpenedLists.{Clears, FindsMarked, IsFound};
ghost use Rattle.dispatch_room_serving.specs.OpenedLists.{IsListFault, IsUnfound, IsWholeAs, Opens};
ghost use Rattle.dispatch_room_serving.specs.OpenedLists.{Step, begun, copied, cut, goes_on_at};
ghost use Rattle.dispatch_room_serving.specs.OpenedLists.{marked_in, settled, unmarked};

use dispatch_room_exit::exit_status::Failure;
use dispatch_room_exit::failure_causes::Explainer;
use dispatch_room_journal::entry_reader::EntryFault;
use dispatch_room_journal::journal_inbox::JournalInbox;
use dispatch_room_journal::list_ends::ListEnd;
use dispatch_room_journal::record_fronts::{FIRST_LINK, OPENING};
use dispatch_room_journal::record_inbox::RecordInbox;
use dispatch_room_journal::whole_entries::whole_bytes;
use dispatch_room_journal::whole_records::{ListForm, WholeChain, look_through};
use room_http_messages::sources::Source;
use std::alloc::Global;
use std::io::Write;

/// What follows the whole records of a list.
#[derive(Clone, Copy)]
pub(crate) enum Rest {
    /// The beginning of one record, which a stop cut off.
    Cut,
    /// What a power cut left of a change whose records did not last yet.
    Change,
    /// What is left of a list that was truncated while it was written.
    Truncated,
}

impl Rest {
    /// The word in the name of the file to which it is copied.
    pub(crate) fn word(self) -> &'static str {
        match self {
            Rest::Cut | Rest::Change => "cut",
            Rest::Truncated => "truncated",
        }
    }
}

/// The file of a list, and the calls by which the list is opened.
pub(crate) trait ListFile {
    /// What reads the file.
    type Reader: Source + Drop;

    /// What reads its first bytes.
    type Part: Source + Drop;

    // What was tried with it, where that is known.
    ghost tried: { Self → Option (List Step) };

    // What stands in it, where that is known.
    ghost text: { Self → Option (List ℕ) };

    // That a mark beside it has so many bytes, or that there is none.
    ghost marks: { Self → Option ℕ → Type 0 };

    // That it, or its mark, can't be read.
    ghost is_unread: { Self → Type 0 };

    /// Makes what stands in it last, and its name. What is read from then on is what the disk has.
    fn settle(&mut self) -> Result<(), Failure>
        ensures tried { Grows (tried self.old) (tried self.new) (settled (is_ok result) ∷ []) }
        ensures fault { IfErr result IsListFault };

    /// What reads it from its first byte on.
    fn reader(&self) -> Result<Self::Reader, Failure>
        ensures left { IfOk result (λ reader. Self.Reader.left reader ≡ text self.now) }
        ensures sound { IfOk result (λ reader. Self.Reader.has_failed reader ≡ false) }
        ensures fault { IfErr result (λ fault.
            (fault ≡ Memory) ⊎ ((fault ≡ Journal) × is_unread self.now)) };

    /// What reads so many of its bytes, from the first on.
    fn part(&self, bytes: u64) -> Result<Self::Part, Failure>
        ensures left { IfOk result (λ part.
            Self.Part.left part ≡ option_map (take bytes) (text self.now)) }
        ensures sound { IfOk result (λ part. Self.Part.has_failed part ≡ false) }
        ensures fault { IfErr result (λ fault.
            (fault ≡ Memory) ⊎ ((fault ≡ Journal) × is_unread self.now)) };

    /// How many bytes the mark beside it has, which are those that lasted before a change: `None`
    /// if there is no mark.
    fn mark(&self) -> Result<Option<u64>, Failure>
        ensures marks { IfOk result (marks self.now) }
        ensures fault { IfErr result (λ fault.
            (fault ≡ Memory) ⊎ ((fault ≡ Journal) × is_unread self.now)) };

    /// Copies what follows so many bytes of it to a new file beside it, which is named by what that
    /// is, makes it last, and returns its name: `None` if nothing follows.
    fn set_aside(&mut self, whole: u64, rest: Rest) -> Result<Option<String>, Failure>
        ensures tried { Grows (tried self.old) (tried self.new)
            (copied whole rest (is_ok result) ∷ []) }
        ensures fault { IfErr result IsListFault };

    /// Cuts off what follows so many bytes of it.
    fn cut(&mut self, whole: u64) -> Result<(), Failure>
        ensures tried { Grows (tried self.old) (tried self.new) (cut whole (is_ok result) ∷ []) }
        ensures fault { IfErr result IsListFault };

    /// Takes the mark beside it away, if there is one, for good.
    fn unmark(&mut self) -> Result<(), Failure>
        ensures tried { Grows (tried self.old) (tried self.new) (unmarked (is_ok result) ∷ []) }
        ensures fault { IfErr result IsListFault };

    /// Writes the line with which a chain begins, and makes it last.
    fn begin(&mut self) -> Result<(), Failure>
        ensures tried { Grows (tried self.old) (tried self.new) (begun (is_ok result) ∷ []) }
        ensures fault { IfErr result IsListFault };
}

/// Opens a list, and returns how it goes on. Only in what the disk has are whole records looked
/// for, and only what follows them there is cut off, once it is set aside, which is reported to
/// `err`. Where more follows them than the beginning of one, that is only done if the list has a
/// change's mark, and behind that. A list of which nothing is whole begins as a chain. Explains why
/// if it can't be opened, or is no journal.
pub(crate) fn end_of<F: ListFile, E: Write>(
    alloc: Global,
    explainer: Explainer<'_>,
    path: &str,
    file: &mut F,
    err: &mut E,
) -> Result<ListEnd, Failure>
    ensures opens { Opens F.tried F.text F.marks F.is_unread F.Reader.has_failed F.Part.has_failed
        file.old file.new result }
    ensures fault { IfErr result IsListFault }
{
    file.settle()?;
    let mark = file.mark()?;
    let list = whole_list(alloc, explainer, path, file, mark)?;
    clear(file, list, err)?;
    match goes_on_at(list) {
        Some(end) => Ok(end),
        None => {
            file.begin()?;
            Ok(ListEnd::Chain(FIRST_LINK))
        }
    }
}

// Sets aside what follows the whole records of a list, and then cuts it off, which is reported to
// `err`. A mark has then served.
fn clear<F: ListFile, E: Write>(file: &mut F, list: WholeList, err: &mut E) -> Result<(), Failure>
    ensures clears { Clears F.tried file.old file.new list result }
    ensures fault { IfErr result IsListFault }
{
    let aside = file.set_aside(list.whole, list.rest)?;
    file.cut(list.whole)?;
    file.unmark()?;
    report_aside(&aside, list.rest, err);
    Ok(())
}

// Reports what was set aside, if anything was, and under which name.
fn report_aside<E: Write>(aside: &Option<String>, rest: Rest, err: &mut E) {
    let Some(name) = aside else {
        return;
    };
    let _ = match rest {
        Rest::Cut => writeln!(
            err,
            "journal: a record that was cut off is set aside as {name}"
        ),
        Rest::Change => writeln!(
            err,
            "journal: a change that was not made is set aside as {name}"
        ),
        Rest::Truncated => writeln!(
            err,
            "journal: the list was truncated, what is left is set aside as {name}"
        ),
    };
}

// How a list goes on, of which so many bytes are whole: `None` if it is to begin anew.
fn goes_on_at(list: WholeList) -> Option<ListEnd>
    ensures { result ≡ goes_on_at list }
{
    if list.whole == 0 { None } else { list.end }
}

// How many bytes of a file are whole records, what follows them, and how its list goes on: `None`
// if none is begun.
#[derive(Clone, Copy)]
struct WholeList {
    whole: u64,
    rest: Rest,
    end: Option<ListEnd>,
}

// Finds how much of a file is whole records. Explains why if that can't be known.
fn whole_list<F: ListFile>(
    alloc: Global,
    explainer: Explainer<'_>,
    path: &str,
    file: &F,
    mark: Option<u64>,
) -> Result<WholeList, Failure>
    ensures found { IfOk result
        (IsFound F.Part.has_failed (F.text file.now) mark) }
    ensures unfound { IfErr result (λ fault. (fault ≡ Memory) ⊎ ((fault ≡ Journal)
        × (F.is_unread file.now
        ⊎ IsUnfound F.Part.has_failed (F.text file.now) F.Reader.has_failed mark))) }
{
    let mut inbox = RecordInbox::new();
    let mut reader = file.reader()?;
    match look_through(&mut inbox, &mut reader) {
        Ok(form) => whole_of_form(alloc, explainer, path, file, &form),
        Err(EntryFault::Foreign) => match list_before(file, mark)? {
            Some(list) => Ok(list),
            None => {
                explainer.explain(format_args!(
                    "{path} is no journal: `dispatch_room verify {path}` says at which record"
                ));
                Err(Failure::Journal)
            }
        },
        Err(EntryFault::Read) => {
            explain_unread(explainer, path, EntryFault::Read, 0);
            Err(Failure::Journal)
        }
        Err(EntryFault::Cut) => Err(Failure::Journal),
    }
}

// What of a list is whole, by its first bytes, where a mark says how many of them lasted before a
// change: `None` if there is none, or these are not the whole records of a chain.
fn list_before<F: ListFile>(file: &F, mark: Option<u64>) -> Result<Option<WholeList>, Failure>
    ensures found { IfOk result
        (FindsMarked F.Part.has_failed (F.text file.now) mark) }
    ensures fault { IfErr result (λ fault.
        (fault ≡ Memory) ⊎ ((fault ≡ Journal) × F.is_unread file.now)) }
{
    let Some(bytes) = mark else {
        return Ok(None);
    };
    let mut inbox = RecordInbox::new();
    let mut part = file.part(bytes)?;
    match look_through(&mut inbox, &mut part) {
        Ok(form) => Ok(marked_in(bytes, &form)),
        Err(_) => Ok(None),
    }
}

// What of a list is whole whose first so many bytes have this form, and lasted before a change:
// these, if they are the whole records of a chain.
fn marked_in(bytes: u64, form: &ListForm) -> Option<WholeList>
    ensures { result ≡ marked_in bytes form.now }
{
    match form {
        ListForm::Chain(chain) => chain_to(bytes, chain),
        ListForm::New | ListForm::Truncated | ListForm::Plain => None,
    }
}

// The same of a chain of which so much is whole.
fn chain_to(bytes: u64, chain: &WholeChain) -> Option<WholeList>
    ensures { result ≡ marked_in bytes (Chain chain.now) }
{
    if whole_of(chain) != bytes {
        return None;
    }
    Some(WholeList {
        whole: bytes,
        rest: Rest::Change,
        end: Some(ListEnd::Chain(chain.link)),
    })
}

// How much of a list of this form is whole.
fn whole_of_form<F: ListFile>(
    alloc: Global,
    explainer: Explainer<'_>,
    path: &str,
    file: &F,
    form: &ListForm,
) -> Result<WholeList, Failure>
    ensures whole { IfOk result (IsWholeAs (F.text file.now) form.now) }
    ensures fault { IfErr result (λ fault.
        (fault ≡ Memory) ⊎ ((fault ≡ Journal) × (form.now ≡ Plain))) }
{
    match form {
        ListForm::New => Ok(WholeList {
            whole: 0,
            rest: Rest::Cut,
            end: None,
        }),
        ListForm::Truncated => Ok(WholeList {
            whole: 0,
            rest: Rest::Truncated,
            end: None,
        }),
        ListForm::Chain(chain) => Ok(WholeList {
            whole: whole_of(chain),
            rest: Rest::Cut,
            end: Some(ListEnd::Chain(chain.link)),
        }),
        ListForm::Plain => {
            let mut reader = file.reader()?;
            let whole = whole_in(alloc, explainer, path, &mut reader)?;
            Ok(WholeList {
                whole,
                rest: Rest::Cut,
                end: Some(ListEnd::Plain),
            })
        }
    }
}

// How many bytes of a list the first line of a chain and its whole records are.
fn whole_of(chain: &WholeChain) -> u64
    ensures { result ≡ min (chain.now.bytes + 7) u64.MAX }
{
    chain.bytes.saturating_add(OPENING.len() as u64)
}

// How many bytes of what a reader gives are whole records. Explains why if that can't be known.
fn whole_in<R: Source>(
    alloc: Global,
    explainer: Explainer<'_>,
    path: &str,
    reader: &mut R,
) -> Result<u64, Failure>
    requires sound { R.has_failed reader.old ≡ false }
    ensures fault { IfErr result IsListFault }
    ensures whole { (text : List ℕ) → R.left reader.old ≡ Some text
        → MatchResult result (EndsWhole text) (IsUnread (R.has_failed reader.new) text) }
{
    let Ok(mut inbox) = JournalInbox::new(alloc) else {
        return Err(Failure::Memory);
    };
    match whole_bytes(&mut inbox, reader) {
        Ok(bytes) => Ok(bytes),
        Err(fault) => {
            explain_unread(explainer, path, fault, inbox.taken());
            Err(Failure::Journal)
        }
    }
}

// Explains why a file was not read as a journal behind so many bytes of whole records.
fn explain_unread(explainer: Explainer<'_>, path: &str, fault: EntryFault, whole: u64) {
    match fault {
        EntryFault::Read => explainer.explain(format_args!("{path} can't be read")),
        EntryFault::Foreign | EntryFault::Cut => explainer.explain(format_args!(
            "{path} is no journal: no record begins at byte {whole}"
        )),
    }
}
