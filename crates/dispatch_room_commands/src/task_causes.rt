//! Explains failures whose cause follows from what was asked for.

use dispatch_room_cli::tasks::{Task, Terminals};
use dispatch_room_exit::exit_status::{Done, Failure};
use dispatch_room_exit::failure_causes::Explainer;
use room_http_time::days::Day;
use room_types::asks::Who;

/// Explains why a task failed, unless that was explained where it failed.
pub fn explain(explainer: Explainer<'_>, task: &Task<'_>, done: &Result<Done, Failure>) {
    let Err(fault) = *done else {
        return;
    };
    match *task {
        Task::Times {
            file,
            division,
            day,
        }
        | Task::JoinedTimes {
            file,
            division,
            day,
            ..
        } => match fault {
            Failure::Division => {
                let division = division.get();
                explainer.explain(format_args!("no division {division} in the plan of {file}"));
            }
            Failure::Day => explain_no_day(explainer, day),
            _ => {}
        },
        Task::Replay { file, .. } => explain_replay(explainer, file, fault),
        Task::Terminals {
            file,
            ref wanted,
            ..
        } => {
            explain_unchanged(explainer, file, wanted, fault);
        }
        Task::Renew { file, since, .. } if fault == Failure::Day => {
            explain_since(explainer, file, since);
        }
        Task::Verify { list } => {
            if let Failure::Record(number) = fault {
                explainer.explain(format_args!(
                    "{list}: record {number} is not of a journal, or was changed"
                ));
            }
        }
        _ => {}
    }
}

fn explain_no_day(explainer: Explainer<'_>, text: &str) {
    explainer.explain(format_args!("\"{text}\" is no day from 1970-01-01 to 2099-12-31"));
}

// Explains why a new room can't begin with a day: the text is none, or it is too late for a room.
fn explain_since(explainer: Explainer<'_>, file: &str, since: &str) {
    if Day::parse(since).is_none() {
        explain_no_day(explainer, since);
    } else {
        explainer.explain(format_args!(
            "{since} begins less than two days before the last moment of {file}"
        ));
    }
}

fn explain_replay(explainer: Explainer<'_>, file: &str, fault: Failure) {
    match fault {
        Failure::Record(number) => explainer.explain(format_args!(
            "standard input: record {number} is not of a journal, or holds no valid message"
        )),
        Failure::OtherRoom(number) => explainer.explain(format_args!(
            "standard input: at record {number} the journal goes on from another room than {file}"
        )),
        Failure::Differs(number) => explainer.explain(format_args!(
            "standard input: record {number} has another status than {file} answers with"
        )),
        _ => {}
    }
}

// Explains why the terminals of one user were not changed.
fn explain_unchanged(explainer: Explainer<'_>, file: &str, wanted: &Terminals, fault: Failure) {
    match wanted {
        Terminals::List => {}
        Terminals::New(who) | Terminals::Revoke(who) => explain_none(explainer, file, who, fault),
    }
}

// Explains that a room has no such desk or crew, or that this user has no terminal in it.
fn explain_none(explainer: Explainer<'_>, file: &str, who: &Who, fault: Failure) {
    match who {
        Who::Desk(division) => {
            let division = division.get();
            if fault == Failure::Division {
                explainer.explain(format_args!("no division {division} in the plan of {file}"));
            } else if fault == Failure::Input {
                explainer.explain(format_args!("desk {division} has no terminal in {file}"));
            }
        }
        Who::Position(position) if fault == Failure::Input => {
            let position = position.get();
            explainer.explain(format_args!("position {position} has no terminal in {file}"));
        }
        Who::Crew(callsign) if fault == Failure::Input => {
            let name = callsign.as_str();
            explainer.explain(format_args!("no vehicle {name} in {file}"));
        }
        _ => {}
    }
}
