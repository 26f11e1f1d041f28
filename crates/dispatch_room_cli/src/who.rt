//! Who has a terminal, as a command names it: desk:1, position:3 or crew:A1.
ghost use Rattle.std.specs.Prelude.{◌↔◌, IsTrue, MatchOption};
ghost use Rattle.dispatch_room_cli.specs.TerminalNames.{BeginsNumber, Names, NamesNobody};
ghost use Rattle.dispatch_room_cli.specs.TerminalNames.{WritesNone, WritesNumber};

use room_place::plans::DivisionNumber;
use room_types::asks::Who;
use room_types::callsign::Callsign;
use room_types::numbers::PositionNumber;

/// Who a text names; none where it names nobody.
pub fn who_of(text: &str) -> Option<Who>
    ensures { MatchOption result (NamesNobody text.now) (Names text.now) }
{
    if let Some(division) = text.strip_prefix("desk:") {
        return Some(Who::Desk(DivisionNumber::new(number(division)?)?));
    }
    if let Some(position) = text.strip_prefix("position:") {
        return Some(Who::Position(PositionNumber::new(number(position)?)?));
    }
    let callsign = text.strip_prefix("crew:")?;
    Some(Who::Crew(Callsign::parse(callsign)?))
}

// A number from 1, written in digits only, without a zero before them.
fn number(text: &str) -> Option<u32>
    ensures { MatchOption result (WritesNone text.now) (WritesNumber text.now) }
{
    if !begins_number(text.as_bytes()) {
        return None;
    }
    text.parse::<u32>().ok()
}

fn begins_number(text: &[u8]) -> bool
    ensures { IsTrue result ↔ BeginsNumber text.now }
{
    matches!(text, [b'1'..=b'9', ..])
}
