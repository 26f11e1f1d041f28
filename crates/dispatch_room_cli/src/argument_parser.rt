//! Reads the words of a command line as a task.

ghost use Rattle.std.specs.Prelude.{◌≡◌, codes, IfOk, List, map, MatchBool, MatchOption};
ghost use Rattle.std.specs.Prelude.{MatchResult, option_map, ℕ};
ghost use Rattle.std.specs.String.{string_bytes};
ghost use Rattle.clap.specs.Words.{first_of};
ghost use Rattle.dispatch_room_cli.specs.AskedTasks.{Has, HasNoNumber, HasNumber, IsAddress};
ghost use Rattle.dispatch_room_cli.specs.AskedTasks.{IsAmiss, IsAsked, IsColor, IsCount, IsFlag};
ghost use Rattle.dispatch_room_cli.specs.AskedTasks.{IsJournal, IsLimit, IsList, IsMatched};
ghost use Rattle.dispatch_room_cli.specs.AskedTasks.{IsNamed, IsOver, IsRead, IsReplay, IsService};
ghost use Rattle.dispatch_room_cli.specs.AskedTasks.{IsTokenPlace, LeavesToken};
ghost use Rattle.dispatch_room_cli.specs.AskedTasks.{given_in};
ghost use Rattle.dispatch_room_cli.specs.Addresses.{IsLoopback};
ghost use Rattle.dispatch_room_cli.specs.CommandForms.{IsProgram};
ghost use Rattle.dispatch_room_cli.specs.ExplainedFailures.{Explains};
ghost use Rattle.dispatch_room_cli.specs.Tasks.{IsHere, IsServedHere};
ghost use Rattle.dispatch_room_cli.specs.declared.argument_parser.Mistake.TheVariants.{Conflict};
ghost use Rattle.dispatch_room_cli.specs.declared.argument_parser.Mistake.TheVariants.{NoCommand};

use crate::addresses::{AddressFault, fault_in, loopback};
use crate::builder::program;
use crate::database_names::is_of_database;
use crate::tasks::{Color, Journal, Look, Replay, Service, Task, Terminals, TokenPlace};
use crate::who::who_of;
use clap::error::ErrorKind;
use clap::{ArgMatches, Command, Error};
use room_place::plans::DivisionNumber;
use room_types::asks::Who;
use room_types::numbers::{Moment, Number};
use std::alloc::Global;
use std::fmt;
use std::net::SocketAddr;

/// The version of the program, whose first number is that of the rooms that it keeps.
pub const VERSION: &str = "2.1";

// The option that explains failures, also where standard error is no terminal.
const EXPLAIN: &str = "--explain";

// Printed for an address that other machines reach.
const NOT_LOOPBACK: &str = "a room is served at an address of this machine only, as \
     127.0.0.1:8080 or [::1]:8080: it speaks plain HTTP, and a token is all that a terminal shows; \
     terminals on other machines come by a proxy with TLS";

/// Why words that clap takes are no task.
#[derive(Clone, Copy)]
enum Mistake<'a> {
    /// They name no command, or a word of it is missing: clap lets through neither.
    NoCommand,
    /// The address is not one of this machine only.
    NotLoopback {
        address: &'a str,
        fault: AddressFault,
    },
    /// The word behind an option names nobody.
    Nobody {
        option: &'a str,
        who: &'a str,
    },
    /// Two words exclude each other.
    Conflict {
        one: &'a str,
        other: &'a str,
    },
    /// `--journal` is given, and nothing that changes terminals.
    NoChange,
    /// A board has no token, neither at its place nor in a file.
    NoToken,
    /// A journal would have the name of a file that the room's database uses.
    OfDatabase {
        list: &'a str,
        file: &'a str,
    },
}

impl<'a> Mistake<'a> {
    fn kind(self) -> ErrorKind {
        match self {
            Mistake::NoCommand => ErrorKind::MissingSubcommand,
            Mistake::NoChange | Mistake::NoToken => ErrorKind::MissingRequiredArgument,
            Mistake::NotLoopback { .. } | Mistake::Nobody { .. } | Mistake::OfDatabase { .. } => {
                ErrorKind::ValueValidation
            }
            Mistake::Conflict { .. } => ErrorKind::ArgumentConflict,
        }
    }
}

impl<'a> fmt::Display for Mistake<'a> {
    fn fmt<W: fmt::Write>(&self, f: &mut fmt::Formatter<W>) -> fmt::Result {
        match *self {
            Mistake::NoCommand => f.write_str("a command is missing"),
            Mistake::NotLoopback { address, fault } => {
                write!(
                    f,
                    "invalid value '{address}' for '<ADDRESS>': {fault}; {NOT_LOOPBACK}"
                )
            }
            Mistake::Nobody { option, who } => write!(
                f,
                "invalid value '{who}' for '--{option} <WHO>': expected desk:1 to desk:9, \
                 position:1 to position:99, or crew: and a callsign"
            ),
            Mistake::OfDatabase { list, file } => write!(
                f,
                "invalid value '{list}' for '--journal <LIST>': the database of {file} uses a file \
                 of this name"
            ),
            Mistake::NoChange => f.write_str(
                "the argument '--journal <LIST>' is used with '--new <WHO>', '--revoke <WHO>' or \
                 '--from <CSV>'",
            ),
            Mistake::NoToken => f.write_str("one of '[TOKEN]' and '--token <FILE>' is needed"),
            Mistake::Conflict { one, other } => {
                write!(f, "the argument '{one}' cannot be used with '{other}'")
            }
        }
    }
}

/// Reads the words of a command line, the program's name first. An error is help that was asked
/// for, a mistake in the words, or lack of memory. A room is served at no address that other
/// machines reach.
pub fn read<'a>(alloc: Global, words: &'a [String]) -> Result<Task<'a>, Error>
    ensures served_here { IfOk result IsServedHere }
    ensures asked { IfOk result (IsRead (map string_bytes words.entry.now)) }
{
    let mut command = program(alloc, VERSION)?;
    task(alloc, &mut command, words)
}

/// Whether the words ask that a failure be explained. Behind `--` they name files.
pub fn explains(words: &[String]) -> bool
    ensures { MatchBool result
        (Explains (map string_bytes words.now))
        (¬ Explains (map string_bytes words.now)) }
{
    for word in words {
        let word = word.as_str();
        if word == EXPLAIN {
            return true;
        }
        if word == "--" {
            return false;
        }
    }
    false
}

fn task<'a>(
    alloc: Global,
    command: &mut Command<'a>,
    words: &'a [String],
) -> Result<Task<'a>, Error>
    requires { IsProgram command.old }
    ensures served_here { IfOk result IsServedHere }
    ensures asked { IfOk result (IsRead (map string_bytes words.entry.now)) }
{
    let matches = command.try_get_matches_from_mut(words)?;
    match task_of(&matches) {
        Ok(task) => Ok(task),
        Err(mistake) => {
            let mistake_text = format!(in alloc; "{mistake}")?;
            Err(command.error(mistake.kind(), mistake_text.as_str())?)
        }
    }
}

fn task_of<'a>(matches: &ArgMatches<'a>) -> Result<Task<'a>, Mistake<'a>>
    ensures served_here { IfOk result IsServedHere }
    ensures asked { IfOk result (IsMatched matches.now) }
{
    let Some((name, given)) = matches.subcommand() else {
        return Err(Mistake::NoCommand);
    };
    task_by(name, given)
}

// What a command of this name asks for.
fn task_by<'a>(name: &str, given: &ArgMatches<'a>) -> Result<Task<'a>, Mistake<'a>>
    ensures served_here { IfOk result IsServedHere }
    ensures asked { IfOk result (IsAsked (given_in given.now) name.now) }
{
    match name {
        "board" => board_of(given),
        "renew" => renew_of(given),
        "restore" => Ok(Task::Restore {
            copy: text(given, "COPY")?,
            file: text(given, "FILE")?,
        }),
        "verify" => Ok(Task::Verify {
            list: text(given, "LIST")?,
        }),
        _ => task_over(text(given, "FILE")?, name, given),
    }
}

// What a command over a room's file asks for.
fn task_over<'a>(file: &'a str, name: &str, given: &ArgMatches<'a>) -> Result<Task<'a>, Mistake<'a>>
    ensures served_here { IfOk result IsServedHere }
    ensures asked { IfOk result (IsOver (given_in given.now) name.now file.now) }
{
    match name {
        "init" => Ok(Task::Init {
            file,
            plan: text(given, "PLAN")?,
        }),
        "import" => Ok(Task::Import {
            file,
            fleet: text(given, "FLEET")?,
            list: list_of(file, given)?,
        }),
        "replan" => Ok(Task::Replan {
            file,
            plan: text(given, "PLAN")?,
            list: list_of(file, given)?,
        }),
        "migrate" => Ok(Task::Migrate { file }),
        "check" => Ok(Task::Check { file }),
        "digest" => Ok(Task::Digest { file }),
        "serve" => serve_of(file, given),
        "replay" => Ok(Task::Replay {
            file,
            replay: replay_of(given),
        }),
        "times" => times_of(file, given),
        "terminals" => terminals_of(file, given),
        _ => Err(Mistake::NoCommand),
    }
}

fn times_of<'a>(file: &'a str, given: &ArgMatches<'a>) -> Result<Task<'a>, Mistake<'a>>
    ensures served_here { IfOk result IsServedHere }
    ensures asked { IfOk result (IsOver (given_in given.now) (codes "times") file.now) }
{
    let division = division_of(given)?;
    let day = text(given, "DAY")?;
    match word(given, "and") {
        None => Ok(Task::Times {
            file,
            division,
            day,
        }),
        Some(older) => Ok(Task::JoinedTimes {
            file,
            older,
            division,
            day,
        }),
    }
}

fn terminals_of<'a>(file: &'a str, given: &ArgMatches<'a>) -> Result<Task<'a>, Mistake<'a>>
    ensures served_here { IfOk result IsServedHere }
    ensures asked { MatchResult result
        (IsOver (given_in given.now) (codes "terminals") file.now)
        (IsAmiss (given_in given.now) file.now) }
{
    let new = named(given, "new")?;
    let revoked = named(given, "revoke")?;
    let list = list_of(file, given)?;
    let wanted = match (new, revoked, word(given, "from")) {
        (None, None, None) if list.is_some() => return Err(Mistake::NoChange),
        (None, None, None) => Terminals::List,
        (Some(who), None, None) => Terminals::New(who),
        (None, Some(who), None) => Terminals::Revoke(who),
        (None, None, Some(csv)) => return Ok(Task::SetTerminals { file, csv, list }),
        (Some(_), Some(_), _) => return Err(conflict("--new <WHO>", "--revoke <WHO>")),
        (Some(_), None, Some(_)) => return Err(conflict("--new <WHO>", "--from <CSV>")),
        (None, Some(_), Some(_)) => return Err(conflict("--revoke <WHO>", "--from <CSV>")),
    };
    Ok(Task::Terminals { file, wanted, list })
}

fn conflict<'a>(one: &'a str, other: &'a str) -> Mistake<'a>
    ensures { result ≡ Conflict one.entry other.entry }
{
    Mistake::Conflict { one, other }
}

// Whom the word behind an option names, where the option is given.
fn named<'a>(given: &ArgMatches<'a>, option: &'a str) -> Result<Option<Who>, Mistake<'a>>
    ensures { MatchResult result
        (IsNamed (given_in given.now) option.now)
        (λ mistake. (file : List ℕ) → IsAmiss (given_in given.now) file mistake) }
{
    let Some(who) = word(given, option) else {
        return Ok(None);
    };
    match who_of(who) {
        Some(who) => Ok(Some(who)),
        None => Err(Mistake::Nobody { option, who }),
    }
}

fn serve_of<'a>(file: &'a str, given: &ArgMatches<'a>) -> Result<Task<'a>, Mistake<'a>>
    ensures served_here { IfOk result IsServedHere }
    ensures asked { IfOk result (IsOver (given_in given.now) (codes "serve") file.now) }
{
    let service = service_of(file, given)?;
    Ok(Task::Serve { file, service })
}

fn service_of<'a>(file: &'a str, given: &ArgMatches<'a>) -> Result<Service<'a>, Mistake<'a>>
    ensures here { IfOk result IsHere }
    ensures asked { IfOk result (IsService (given_in given.now) file.now) }
{
    Ok(Service {
        address: address_of(given)?,
        connections: connections_of(given),
        idle: number(given, "idle")?,
        keep: number(given, "keep")?,
        patience: number(given, "patience")?,
        history: flag(given, "history"),
        log: flag(given, "log"),
        journal: journal_of(file, given)?,
    })
}

// Where a room is served.
fn address_of<'a>(given: &ArgMatches<'a>) -> Result<SocketAddr, Mistake<'a>>
    ensures here { IfOk result IsLoopback }
    ensures asked { IfOk result (IsAddress (given_in given.now)) }
{
    let address = text(given, "ADDRESS")?;
    match loopback(address) {
        Some(address) => Ok(address),
        None => Err(Mistake::NotLoopback {
            address,
            fault: fault_in(address),
        }),
    }
}

// How many connections are served: without end where no number is given.
fn connections_of(given: &ArgMatches<'_>) -> u64
    ensures { IsCount (given_in given.now) result }
{
    count(given, "connections").unwrap_or(u64::MAX)
}

// The list that is kept of a room's file, where there is one.
fn list_of<'a>(file: &'a str, given: &ArgMatches<'a>) -> Result<Option<&'a str>, Mistake<'a>>
    ensures { MatchResult result
        (IsList (given_in given.now) file.now)
        (IsAmiss (given_in given.now) file.now) }
{
    match word(given, "journal") {
        Some(list) if is_of_database(file, list) => Err(Mistake::OfDatabase { list, file }),
        list => Ok(list),
    }
}

fn journal_of<'a>(file: &'a str, given: &ArgMatches<'a>) -> Result<Option<Journal<'a>>, Mistake<'a>>
    ensures { IfOk result (IsJournal (given_in given.now) file.now) }
{
    let Some(list) = list_of(file, given)? else {
        return Ok(None);
    };
    Ok(Some(Journal {
        list,
        is_synced: text(given, "journal-sync")? == "always",
        keeps_questions: text(given, "journal-of")? == "all",
    }))
}

fn replay_of(given: &ArgMatches<'_>) -> Replay
    ensures { IsReplay (given_in given.now) result }
{
    Replay {
        until: until_of(given),
        answers: flag(given, "answers"),
        history: flag(given, "history"),
        open: flag(given, "open"),
        digest: flag(given, "digest"),
    }
}

fn until_of(given: &ArgMatches<'_>) -> Option<Moment>
    ensures { IsLimit (given_in given.now) (codes "until") 0 4102444799 result }
{
    let number = limit(given, "until")?;
    Moment::new(number)
}

fn renew_of<'a>(given: &ArgMatches<'a>) -> Result<Task<'a>, Mistake<'a>>
    ensures served_here { IfOk result IsServedHere }
    ensures asked { IfOk result (IsAsked (given_in given.now) (codes "renew")) }
{
    Ok(Task::Renew {
        file: text(given, "OLD")?,
        new: text(given, "NEW")?,
        since: text(given, "since")?,
    })
}

fn board_of<'a>(given: &ArgMatches<'a>) -> Result<Task<'a>, Mistake<'a>>
    ensures served_here { IfOk result IsServedHere }
    ensures asked { IfOk result (IsAsked (given_in given.now) (codes "board")) }
{
    let look = Look {
        address: text(given, "ADDRESS")?,
        plain: flag(given, "plain"),
        token: token_of(given)?,
        incident: incident_of(given),
        patience: number(given, "patience")?,
        color: color_of(given)?,
    };
    Ok(Task::Board { look })
}

// Where the token of a board stands.
fn token_of<'a>(given: &ArgMatches<'a>) -> Result<TokenPlace<'a>, Mistake<'a>>
    ensures { MatchResult result
        (IsTokenPlace (given_in given.now))
        (LeavesToken (given_in given.now)) }
{
    match (word(given, "TOKEN"), word(given, "token")) {
        (Some(token), None) => Ok(TokenPlace::Word(token)),
        (None, Some(file)) => Ok(TokenPlace::File(file)),
        (None, None) => Err(Mistake::NoToken),
        (Some(_), Some(_)) => Err(conflict("--token <FILE>", "[TOKEN]")),
    }
}

fn incident_of(given: &ArgMatches<'_>) -> Option<Number>
    ensures { IsLimit (given_in given.now) (codes "incident") 1 2147483647 result }
{
    let number = limit(given, "incident")?;
    Number::new(number)
}

fn color_of<'a>(given: &ArgMatches<'a>) -> Result<Color, Mistake<'a>>
    ensures { IfOk result (IsColor (given_in given.now)) }
{
    Ok(match text(given, "color")? {
        "always" => Color::Always,
        "never" => Color::Never,
        _ => Color::Auto,
    })
}

fn division_of<'a>(given: &ArgMatches<'a>) -> Result<DivisionNumber, Mistake<'a>>
    ensures { IfOk result (HasNumber (given_in given.now) 16 (codes "DIVISION")) }
{
    let digit = number(given, "DIVISION")?;
    DivisionNumber::new(u32::from(digit)).ok_or(Mistake::NoCommand)
}

fn text<'a>(given: &ArgMatches<'a>, name: &str) -> Result<&'a str, Mistake<'a>>
    ensures { MatchResult result
        (λ text. Has (given_in given.now) name.now text.now)
        (λ mistake. mistake ≡ NoCommand) }
{
    word(given, name).ok_or(Mistake::NoCommand)
}

fn number<'a>(given: &ArgMatches<'a>, name: &str) -> Result<u16, Mistake<'a>>
    ensures { MatchResult result
        (HasNumber (given_in given.now) 16 name.now)
        (λ mistake. (mistake ≡ NoCommand) × HasNoNumber (given_in given.now) 16 name.now) }
{
    given.get_one::<u16>(name).ok_or(Mistake::NoCommand)
}

// What is given by a name, where it is: a text, a number or a flag.
fn word<'a>(given: &ArgMatches<'a>, name: &str) -> Option<&'a str>
    ensures { option_map (λ text. text.now) result ≡ first_of name.now (given_in given.now) }
{
    given.get_str(name)
}

fn limit(given: &ArgMatches<'_>, name: &str) -> Option<u32>
    ensures { MatchOption result
        (HasNoNumber (given_in given.now) 32 name.now)
        (HasNumber (given_in given.now) 32 name.now) }
{
    given.get_one::<u32>(name)
}

fn count(given: &ArgMatches<'_>, name: &str) -> Option<u64>
    ensures { MatchOption result
        (HasNoNumber (given_in given.now) 64 name.now)
        (HasNumber (given_in given.now) 64 name.now) }
{
    given.get_one::<u64>(name)
}

fn flag(given: &ArgMatches<'_>, name: &str) -> bool
    ensures { IsFlag (given_in given.now) name.now result }
{
    given.get_flag(name)
}
