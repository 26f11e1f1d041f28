//! `verify`: how much a list holds, or the first record at which it is no list.
ghost use Rattle.std.specs.Prelude.{◌≡◌, ◌||◌, ◌==◌, Some, false, IfErr, OnOk};
ghost use Rattle.std.specs.Io.KnownBytes.{Appends};
ghost use Rattle.dispatch_room_exit.specs.declared.exit_status.Failure.TheVariants.{Network};
ghost use Rattle.dispatch_room_disk.specs.CommandSteps.{Prints, at};
ghost use Rattle.dispatch_room_commands.specs.TaskSteps.{IsVerify, IsVerifyOf, PrintsNone};
ghost use Rattle.dispatch_room_commands.specs.VerifiedLists.{fails_by, span_text, tally_text};
ghost use Rattle.dispatch_room_journal.specs.ReadSteps.{ends_well, left_in, most_rows};

use dispatch_room_disk::outputs::print;
use dispatch_room_exit::exit_status::{Done, Failure};
use dispatch_room_journal::entry_reader::EntryFault;
use dispatch_room_journal::journal_inbox::JournalInbox;
use dispatch_room_journal::list_source::ListSource;
use dispatch_room_journal::list_tallies::{Defect, Span, Tally};
use dispatch_room_journal::verification::verify;
use dispatch_room_tcp::hosts::Machine;
use room_http_messages::sources::Source;
use std::alloc::Global;
use std::io::Write;

/// Prints how many messages a list has, when the first came and the last, and whether the list
/// ended well; or that nothing was begun; or fails at the first record at which it is no list.
pub fn verify_list<M: Machine, O: Write>(
    machine: &mut M,
    path: &str,
    out: &mut O,
) -> Result<Done, Failure>
    ensures { IsVerify path.now (at (O.contents out.old) (M.done machine.old))
        (at (O.contents out.new) (M.done machine.new)) result }
{
    let mut list = ListSource::new(machine.open_list(path)?);
    let done = verify_in(machine.alloc(), &mut list, out);
    machine.leave_list(path, &list);
    done
}

// Looks a list through, and prints what it holds.
fn verify_in<R: Source, O: Write>(
    alloc: Global,
    list: &mut ListSource<R>,
    out: &mut O,
) -> Result<Done, Failure>
    requires sound { R.has_failed list.old.reader ≡ false }
    requires none { list.old.passed ≡ 0 }
    ensures { IsVerifyOf
        (left_in list.old.cursor.mode list.old.cursor.vouched list.old.cursor.inbox
        (R.left list.old.reader))
        (R.has_failed list.new.reader || list.new.passed == most_rows)
        (ends_well list.new.cursor.mode) (O.contents out.old) (O.contents out.new) result }
{
    let Ok(mut inbox) = JournalInbox::new(alloc) else {
        return Err(Failure::Memory);
    };
    match verify(&mut inbox, list) {
        Ok(Some(tally)) => print_tally(&tally, list.ended_well(), out),
        Ok(None) => print_none(out),
        Err(defect) => Err(failure_of(&defect)),
    }
}

// Why a text is no list, as the program reports it.
fn failure_of(defect: &Defect) -> Failure
    ensures { result ≡ fails_by defect.now.fault defect.now.number }
{
    match defect.fault {
        EntryFault::Cut | EntryFault::Foreign => Failure::Record(defect.number),
        EntryFault::Read => Failure::Network,
    }
}

// Prints that in a list nothing was begun.
fn print_none<O: Write>(out: &mut O) -> Result<Done, Failure>
    ensures { PrintsNone (O.contents out.old) (O.contents out.new) result }
{
    print(b"nothing was begun\n", out)?;
    Ok(Done::InPart)
}

// Prints what a list holds.
fn print_tally<O: Write>(tally: &Tally, has_ended: bool, out: &mut O) -> Result<Done, Failure>
    ensures { Prints (tally_text tally.now has_ended) (O.contents out.old)
        (O.contents out.new) result }
{
    if writeln!(out, "verified {}", tally.messages).is_err() {
        return Err(Failure::Network);
    }
    if let Some(span) = tally.span {
        print_span(&span, out)?;
    }
    let end = if has_ended { "ended\n" } else { "not ended\n" };
    match out.write_all(end.as_bytes()) {
        Ok(()) => Ok(Done::Whole),
        Err(_) => Err(Failure::Network),
    }
}

// Prints when the messages of a list came.
fn print_span<O: Write>(span: &Span, out: &mut O) -> Result<(), Failure>
    ensures printed { OnOk result
        (Appends (O.contents out.old) (O.contents out.new) (span_text (Some span.now))) }
    ensures failed { IfErr result (λ fault. fault ≡ Network) }
{
    match writeln!(out, "from {} to {}", span.first.get(), span.last.get()) {
        Ok(()) => Ok(()),
        Err(_) => Err(Failure::Network),
    }
}
