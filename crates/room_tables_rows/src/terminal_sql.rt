//! Terminals: their columns, how they are read, and the statements on them.

ghost use Rattle.std.specs.Prelude.{◌≡◌, pos, is_some, IfSome};
ghost use Rattle.sqlite.specs.Values.{bound, or_null};
ghost use Rattle.sqlite_value.specs.Value.{owned};
ghost use Rattle.sqlite_value.specs.declared.value.Value.TheVariants.{Int, Text};
ghost use Rattle.room_tables_rows.specs.TerminalSql.{is_terminal_row, terminal_row, role_of};
ghost use Rattle.room_tables_rows.specs.TerminalSql.{number_of, crew_of};
ghost use Rattle.room_tables_rows.specs.ReadableColumns.{is_who};

use crate::column_groups::values_of;
use crate::column_values::{Field, Stored, integer};
use room_place::bounded_numbers::Bounded;
use room_types::asks::Who;
use room_types::callsign::Callsign;
use room_types::fleet::Terminal;
use sqlite::Row;
use sqlite_value::value::ValueRef;

impl Stored for Terminal {
    ghost cells = { terminal_row };

    ghost is_row = { is_terminal_row };

    fn read(row: &Row) -> Option<Terminal> {
        let (token, (role, (number, (callsign, ())))) = values_of(row, 4)?;
        let who = who_of(role, number, callsign)?;
        Some(Terminal { token, who })
    }
}

// Who has this role, number and callsign; none where nobody has.
fn who_of(role: u32, number: u32, callsign: Option<Callsign>) -> Option<Who>
    ensures who { IfSome result (λ who. (role_of who ≡ role) × (number_of who ≡ number)
        × (crew_of who ≡ callsign)) }
    ensures has_one { is_some result ≡ is_who (Int (pos role)) (Int (pos number))
        (or_null Text callsign) }
{
    match (role, callsign) {
        (0, None) => Some(Who::Desk(Bounded::new(number)?)),
        (1, None) => Some(Who::Position(Bounded::new(number)?)),
        (2, Some(callsign)) if number == 0 => Some(Who::Crew(callsign)),
        _ => None,
    }
}

/// The columns of a terminal.
pub fn terminal_columns(terminal: &Terminal) -> [ValueRef<'_>; 4]
    ensures { bound result ≡ terminal_row terminal.now }
{
    [
        terminal.token.store(),
        integer(role_of(&terminal.who)),
        integer(number_of(&terminal.who)),
        crew_of(&terminal.who),
    ]
}

// What a terminal may do: 0 a desk's, 1 a position's, 2 a crew's.
fn role_of(who: &Who) -> u32
    ensures { result ≡ role_of who.now }
{
    match who {
        Who::Desk(_) => 0,
        Who::Position(_) => 1,
        Who::Crew(_) => 2,
    }
}

// The number of the division or of the position, 0 for a crew.
fn number_of(who: &Who) -> u32
    ensures { result ≡ number_of who.now }
{
    match who {
        Who::Desk(division) => division.get(),
        Who::Position(position) => position.get(),
        Who::Crew(_) => 0,
    }
}

// The callsign of a crew.
fn crew_of(who: &Who) -> ValueRef<'_>
    ensures { owned result ≡ or_null Text (crew_of who.now) }
{
    match who {
        Who::Crew(callsign) => callsign.store(),
        Who::Desk(_) | Who::Position(_) => ValueRef::Null,
    }
}

pub const ALL_TERMINALS: &str = "SELECT * FROM terminals ORDER BY token";

pub const TERMINAL_AT: &str = "SELECT * FROM terminals WHERE token = ?1 ORDER BY token";

pub const PUT_TERMINAL: &str = "INSERT INTO terminals VALUES (?1, ?2, ?3, ?4) ON CONFLICT (token) \
    DO UPDATE SET token = excluded.token, role = excluded.role, number = excluded.number, \
    callsign = excluded.callsign";
