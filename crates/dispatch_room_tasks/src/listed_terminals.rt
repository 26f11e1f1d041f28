//! Who has a terminal in the room of a database, listed.
ghost use Rattle.std.specs.Prelude.{◌≡◌, false, map, IfErr, IfOk, OnErr, OnOk};
ghost use Rattle.std.specs.Io.KnownBytes.{Appends};
ghost use Rattle.sqlite.specs.Held.{state};
ghost use Rattle.sqlite.specs.State.{Survives};
ghost use Rattle.room_model.specs.Room.{Room};
ghost use Rattle.room_tables.specs.RoomsInTables.{Configuration, Stands};
ghost use Rattle.room_tables_schema.specs.FileConnections.{HasRoomSchema, IsClean};
ghost use Rattle.room_store_writes.specs.Transactions.{Leaves};
ghost use Rattle.dispatch_room_exit.specs.declared.exit_status.Done.TheVariants.{Whole};
ghost use Rattle.dispatch_room_tasks.specs.OpenedRoom.{HoldsNone};
ghost use Rattle.dispatch_room_tasks.specs.ListedTerminals.{HasListed, IsMachines, IsListing};
ghost use Rattle.dispatch_room_tasks.specs.ListedTerminals.{Prints, line_text, lines_text};
ghost use Rattle.dispatch_room_tasks.specs.ListedTerminals.{listed_of};

use crate::opened_room::TaskResult;
use crate::opening_faults::of_opening;
use dispatch_room_exit::exit_status::{Done, Failure};
use room_place::plans::DivisionNumber;
use room_store_file::opened_file::open_in;
use room_store_writes::terminal_list::list;
use room_tables_schema::database_faults::Fault;
use room_types::asks::Who;
use room_types::callsign::Callsign;
use room_types::fleet::Terminal;
use room_types::numbers::PositionNumber;
use sqlite::{Alter, Connection};
use std::alloc::{AllocError, Global};
use std::io::{self, Write};

// Who has a terminal, in the order in which it is listed.
#[derive(Clone, Copy, PartialEq, Eq, PartialOrd, Ord)]
pub(crate) enum Listed {
    Desk(DivisionNumber),
    Position(PositionNumber),
    Crew(Callsign),
}

/// Lists who has a terminal in the room of a database, a line each: the desks first, then the
/// positions, then the crews. No token is listed.
pub fn list_in<S: Alter + Drop, O: Write>(
    alloc: Global,
    mut conn: Connection<S>,
    out: &mut O,
) -> TaskResult<Done, S>
    requires outside { conn.in_transaction ≡ false }
    ensures listed { IfOk result (λ worked. HasListed S.Store conn worked.1
        (O.contents out.old) (O.contents out.new) worked.0) }
    ensures fault { IfErr result (HoldsNone S.Store conn) }
    ensures unprinted { OnErr result (O.contents out.new ≡ O.contents out.old) }
{
    match open_in(alloc, &mut conn) {
        Ok(_plan) => {
            let done = list_opened(alloc, &mut conn, out);
            Ok((done, conn))
        }
        Err(fault) => Err(of_opening(fault)),
    }
}

// Lists who has one in the room of a file that is opened.
fn list_opened<S: Alter, O: Write>(
    alloc: Global,
    conn: &mut Connection<S>,
    out: &mut O,
) -> Result<Done, Failure>
    requires room { HasRoomSchema S.Store conn.old }
    requires outside { conn.old.in_transaction ≡ false }
    ensures whole { IfOk result (λ done. done ≡ Whole) }
    ensures fault { IfErr result IsMachines }
    ensures printed { IsClean S.Store conn.new
        → OnOk result ((config : Configuration) (room : Room)
        → Stands (state S.Store conn.old).now.trees config room
        → Prints config.terminals (O.contents out.old) (O.contents out.new)) }
    ensures leaves { IsClean S.Store conn.new
        → Leaves (state S.Store conn.old) (state S.Store conn.new) }
    ensures survives { Survives (state S.Store conn.old) (state S.Store conn.new) (λ _. ⊥) }
{
    match list(alloc, conn) {
        Ok(terminals) => print_listed(alloc, terminals.as_slice(), out),
        Err(Fault::Memory) => Err(Failure::Memory),
        Err(Fault::Storage) => Err(Failure::Storage),
    }
}

// Lists who has these terminals.
fn print_listed<O: Write>(
    alloc: Global,
    terminals: &[Terminal],
    out: &mut O,
) -> Result<Done, Failure>
    ensures whole { IfOk result (λ done. done ≡ Whole) }
    ensures fault { IfErr result IsMachines }
    ensures printed { OnOk result (Prints terminals.now (O.contents out.old) (O.contents out.new)) }
{
    let Ok(listed) = in_order(alloc, terminals) else {
        return Err(Failure::Memory);
    };
    match print_each(listed.as_slice(), out) {
        Ok(()) => Ok(Done::Whole),
        Err(_) => Err(Failure::Network),
    }
}

// Who has these terminals, in the order in which it is listed.
fn in_order(alloc: Global, terminals: &[Terminal]) -> Result<Vec<Listed>, AllocError>
    ensures { IfOk result (λ listed. IsListing terminals.now listed.items) }
{
    let mut listed = those_of(alloc, terminals)?;
    listed.sort()?;
    Ok(listed)
}

fn those_of(alloc: Global, terminals: &[Terminal]) -> Result<Vec<Listed>, AllocError>
    ensures { IfOk result (λ listed. listed.items ≡ map (λ t. listed_of t.who) terminals.now) }
{
    terminals
        .iter()
        .map(|terminal| listed_of(&terminal.who))
        .collect(alloc)
}

fn listed_of(who: &Who) -> Listed
    ensures { result ≡ listed_of who.now }
{
    match *who {
        Who::Desk(division) => Listed::Desk(division),
        Who::Position(position) => Listed::Position(position),
        Who::Crew(callsign) => Listed::Crew(callsign),
    }
}

fn print_each<O: Write>(listed: &[Listed], out: &mut O) -> io::Result<()>
    ensures { OnOk result
        (Appends (O.contents out.old) (O.contents out.new) (lines_text listed.now)) }
{
    for one in listed {
        print_one(one, out)?;
    }
    Ok(())
}

fn print_one<O: Write>(one: &Listed, out: &mut O) -> io::Result<()>
    ensures { OnOk result (Appends (O.contents out.old) (O.contents out.new) (line_text one.now)) }
{
    match one {
        Listed::Desk(division) => writeln!(out, "desk {}", division.get()),
        Listed::Position(position) => writeln!(out, "position {}", position.get()),
        Listed::Crew(callsign) => writeln!(out, "crew {}", callsign.as_str()),
    }
}
