//! The names under which what a restore finds is set aside.
ghost use Rattle.std.specs.Prelude.{◌≡◌, IfOk, OnOk, string_bytes};
ghost use Rattle.std.specs.Io.KnownBytes.{Appends};
ghost use Rattle.dispatch_room_disk.specs.AsideNames.{aside_name, found_text};
ghost use Rattle.dispatch_room_disk.specs.CommandSteps.{Prints};

use dispatch_room_exit::exit_status::{Done, Failure};
use std::alloc::{AllocError, Global};
use std::io::{self, Write};

/// What a restore finds in the place of a copy.
#[derive(Clone, Copy)]
pub enum Found {
    /// The copy's room: it stays.
    Copy,
    /// No file, nor one that a database has beside it.
    Nothing,
    /// Another room, or what is left of one: it goes to the name of this number.
    Other(u32),
}

/// The name of a number: FILE.old, FILE.old.1 and so on.
pub(crate) fn aside_path(alloc: Global, path: &str, number: u32) -> Result<String, AllocError>
    ensures { IfOk result (λ name. string_bytes name ≡ aside_name path.now number) }
{
    if number == 0 {
        return format!(in alloc; "{path}.old");
    }
    format!(in alloc; "{path}.old.{number}")
}

/// Prints under which name another room was set aside, or that none had to be.
pub fn print_found<O: Write>(found: Found, path: &str, out: &mut O) -> Result<Done, Failure>
    ensures { Prints (found_text path.now found) (O.contents out.old) (O.contents out.new) result }
{
    match print_line(found, path, out) {
        Ok(()) => Ok(Done::Whole),
        Err(_) => Err(Failure::Network),
    }
}

fn print_line<O: Write>(found: Found, path: &str, out: &mut O) -> io::Result<()>
    ensures { OnOk result
        (Appends (O.contents out.old) (O.contents out.new) (found_text path.now found)) }
{
    match found {
        Found::Copy => out.write_all(b"in place already: nothing is set aside\n"),
        Found::Nothing => Ok(()),
        Found::Other(0) => writeln!(out, "set aside: {path}.old"),
        Found::Other(number) => writeln!(out, "set aside: {path}.old.{number}"),
    }
}
