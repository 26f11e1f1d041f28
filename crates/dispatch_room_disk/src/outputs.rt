//! What a command prints at last.
ghost use Rattle.dispatch_room_disk.specs.CommandSteps.{Prints};

use dispatch_room_exit::exit_status::{Done, Failure};
use std::io::Write;

/// Prints a text, and all is done; or the output fails.
pub fn print<O: Write>(text: &[u8], out: &mut O) -> Result<Done, Failure>
    ensures { Prints text.now (O.contents out.old) (O.contents out.new) result }
{
    match out.write_all(text) {
        Ok(()) => Ok(Done::Whole),
        Err(_) => Err(Failure::Network),
    }
}
