//! `check`: how much the room of a database has, or the first thing that is wrong with its file.
ghost use Rattle.std.specs.Prelude.{
  ◌++◌,
  ◌≡◌,
  ◌⊎◌,
  Err,
  IfErr,
  IfOk,
  IsSome,
  OnOk,
  codes,
  false,
};
ghost use Rattle.std.specs.Io.KnownBytes.{Appends};
ghost use Rattle.jiff.specs.Words.{read_whole};
ghost use Rattle.sqlite.specs.Held.{state};
ghost use Rattle.room_store_check_tables.specs.HeldRooms.{WritesNothing};
ghost use Rattle.dispatch_room_exit.specs.declared.exit_status.Done.TheVariants.{Whole};
ghost use Rattle.dispatch_room_exit.specs.declared.exit_status.Failure.TheVariants.{File, Network};
ghost use Rattle.dispatch_room_archive.specs.FindingTexts.{wrong_text};
ghost use Rattle.dispatch_room_archive.specs.Examination.{
  HasChecked,
  PrintsSummary,
  calls_text,
  failure_of,
  fleet_text,
  no_rule_text,
  plan_text,
  reports_text,
  summary_text,
};

use crate::finding_texts::WrongText;
use dispatch_room_exit::exit_status::{Done, Failure};
use room_http_time::zones::Zone;
use room_place::plans::Plan;
use room_store_check_rows::summaries::Summary;
use room_store_file::examined_file::{Wrong, examine};
use room_tables_rows::meta_sql::VERSION;
use sqlite::{Alter, Connection};
use std::alloc::Global;
use std::io::{self, Write};

/// Prints how much the room of a database has, or the first thing that is wrong with its file, and
/// then fails as `File`, `Version` or `Storage`. It fails as `Memory` if memory is refused, and as
/// `Network` if the output fails. Nothing is written to the file.
pub fn check_in<S: Alter + Drop, O: Write>(
    alloc: Global,
    mut conn: Connection<S>,
    out: &mut O,
) -> (Result<Done, Failure>, Connection<S>)
    requires outside { conn.in_transaction ≡ false }
    ensures checked { HasChecked S.Store conn result.1 (O.contents out.old) (O.contents out.new)
        result.0 }
    ensures printed { OnOk result.0 (PrintsSummary (O.contents out.old) (O.contents out.new)) }
    ensures nothing { WritesNothing (state S.Store conn) (state S.Store result.1) }
{
    let done = match examine(alloc, &mut conn) {
        Ok((plan, summary)) => print_room(&plan, &summary, out),
        Err(Wrong::Memory) => Err(Failure::Memory),
        Err(wrong) => print_wrong(wrong, out),
    };
    (done, conn)
}

// Prints how much a room has; or says that its days can't be reckoned, as the zone of its plan is
// no rule.
fn print_room<O: Write>(plan: &Plan, summary: &Summary, out: &mut O) -> Result<Done, Failure>
    ensures text { OnOk result (Appends (O.contents out.old) (O.contents out.new)
        (summary_text summary.now)) }
    ensures whole { IfOk result (λ done. done ≡ Whole) }
    ensures rule { OnOk result (IsSome (read_whole plan.now.zone)) }
    ensures fault { IfErr result (λ fault. (fault ≡ Network)
        ⊎ ((fault ≡ File) × ¬ IsSome (read_whole plan.now.zone)
        × Appends (O.contents out.old) (O.contents out.new) no_rule_text)) }
{
    if Zone::read(plan.zone()).is_err() {
        return match writeln!(out, "its zone is no rule of a time zone") {
            Ok(()) => Err(Failure::File),
            Err(_) => Err(Failure::Network),
        };
    }
    match print_summary(summary, out) {
        Ok(()) => Ok(Done::Whole),
        Err(_) => Err(Failure::Network),
    }
}

// Prints a line of what is wrong with a file, by which the program fails.
fn print_wrong<O: Write>(wrong: Wrong, out: &mut O) -> Result<Done, Failure>
    ensures { ((result ≡ Err (failure_of wrong))
        × Appends (O.contents out.old) (O.contents out.new) (wrong_text wrong ++ codes "\n"))
        ⊎ (result ≡ Err Network) }
{
    let shown = WrongText { wrong };
    match writeln!(out, "{shown}") {
        Ok(()) => Err(failure_of(shown.wrong)),
        Err(_) => Err(Failure::Network),
    }
}

// How a program fails by what is wrong with its file.
pub(crate) fn failure_of(wrong: Wrong) -> Failure
    ensures { result ≡ failure_of wrong }
{
    match wrong {
        Wrong::OldRoom => Failure::Version,
        Wrong::Memory => Failure::Memory,
        Wrong::Storage => Failure::Storage,
        Wrong::Tables | Wrong::NoPlan | Wrong::Rows(_) | Wrong::Terminals(_) => Failure::File,
    }
}

// Prints the version, the rows of each table, how many of them may need attention, and the newest
// moment.
fn print_summary<O: Write>(summary: &Summary, out: &mut O) -> io::Result<()>
    ensures text { OnOk result (Appends (O.contents out.old) (O.contents out.new)
        (summary_text summary.now)) }
{
    print_plan(summary, out)?;
    print_calls(summary, out)?;
    print_fleet(summary, out)?;
    print_reports(summary, out)
}

fn print_plan<O: Write>(summary: &Summary, out: &mut O) -> io::Result<()>
    ensures text { OnOk result (Appends (O.contents out.old) (O.contents out.new)
        (plan_text summary.now)) }
{
    writeln!(
        out,
        "version {VERSION}\nareas {}, terminals {}\ndivisions {}, points {}",
        summary.areas, summary.terminals, summary.divisions, summary.points
    )
}

fn print_calls<O: Write>(summary: &Summary, out: &mut O) -> io::Result<()>
    ensures text { OnOk result (Appends (O.contents out.old) (O.contents out.new)
        (calls_text summary.now)) }
{
    writeln!(
        out,
        "calls {}\nincidents {}, active {}",
        summary.calls, summary.incidents, summary.active_incidents
    )
}

fn print_fleet<O: Write>(summary: &Summary, out: &mut O) -> io::Result<()>
    ensures text { OnOk result (Appends (O.contents out.old) (O.contents out.new)
        (fleet_text summary.now)) }
{
    writeln!(
        out,
        "vehicles {}, assignments {}\nturns {}, open {}\nloans {}, offers {}",
        summary.vehicles,
        summary.assignments,
        summary.turns,
        summary.open_turns,
        summary.loans,
        summary.offers
    )
}

fn print_reports<O: Write>(summary: &Summary, out: &mut O) -> io::Result<()>
    ensures text { OnOk result (Appends (O.contents out.old) (O.contents out.new)
        (reports_text summary.now)) }
{
    writeln!(
        out,
        "reports {}, uncleared {}\nnewest moment {}",
        summary.reports,
        summary.uncleared,
        summary.newest.get()
    )
}
