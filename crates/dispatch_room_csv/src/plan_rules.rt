//! Which row of a plan breaks a rule first.
ghost use Rattle.std.specs.List.{list_any};
ghost use Rattle.std.specs.Prelude.{◌≡◌, length, MatchOption};
ghost use Rattle.room_place.specs.Plans.{is_ascii};
ghost use Rattle.dispatch_room_csv.specs.PlanRules.{AreKept, IsFirstRefused, area_count, has_area};
ghost use Rattle.dispatch_room_csv.specs.PlanRules.{has_token, has_zone_and_areas, is_area_line};
ghost use Rattle.dispatch_room_csv.specs.PlanRules.{is_area_of, is_refused, is_rule, is_sound};
ghost use Rattle.dispatch_room_csv.specs.PlanRules.{is_zone_line};

use crate::plan_lines::PlanLine;
use room_http_time::zones::Zone;
use room_place::places::Place;
use room_place::plans::{Area, LAST_DIVISION, LONGEST_ZONE, MOST_AREAS};
use room_types::asks::Who;
use room_types::token::Token;

impl PlanLine {
    /// Whether the row is for the zone, of its form or not.
    fn is_zone(&self) -> bool
        ensures { result ≡ is_zone_line self.now }
    {
        matches!(self, PlanLine::Zone(_) | PlanLine::BadZone)
    }

    /// Whether the row is for an area, of its form or not.
    fn is_area(&self) -> bool
        ensures { result ≡ is_area_line self.now }
    {
        matches!(self, PlanLine::Area(_) | PlanLine::BadArea(_))
    }

    /// Whether the row is for an area of this division, of its form or not.
    fn is_area_of(&self, division: u32) -> bool
        ensures { result ≡ is_area_of division self.now }
    {
        match self {
            PlanLine::Area(area) => area.division == division,
            PlanLine::BadArea(Some(named)) => *named == division,
            _ => false,
        }
    }

    fn has_token(&self, token: &Token) -> bool
        ensures { result ≡ has_token token.now self.now }
    {
        match self {
            PlanLine::Terminal(terminal) => terminal.token == *token,
            _ => false,
        }
    }
}

/// Whether there are a zone and areas, and not too many of these. Rows that break a rule count too.
pub(crate) fn has_zone_and_areas(lines: &[PlanLine]) -> bool
    ensures { result ≡ has_zone_and_areas lines.now }
{
    has_zone(lines) && (1..=MOST_AREAS).contains(&area_count(lines))
}

pub(crate) fn area_count(lines: &[PlanLine]) -> usize
    ensures { result ≡ area_count lines.now }
{
    lines.iter().filter(|line| line.is_area()).count()
}

pub(crate) fn has_zone(lines: &[PlanLine]) -> bool
    ensures { result ≡ list_any is_zone_line lines.now }
{
    lines.iter().any(|line| line.is_zone())
}

/// The place of the first row that breaks a rule, counted from 0.
pub(crate) fn first_refused(lines: &[PlanLine]) -> Option<usize>
    ensures { MatchOption result (AreKept lines.now (length lines.now)) (IsFirstRefused lines.now) }
{
    for at in 0..lines.len() {
        if is_refused(lines, &lines[..at], &lines[at]) {
            return Some(at);
        }
    }
    None
}

/// Whether a row breaks a rule, seen beside all rows and those before it.
fn is_refused(lines: &[PlanLine], earlier: &[PlanLine], line: &PlanLine) -> bool
    ensures { result ≡ is_refused lines.now earlier.now line.now }
{
    match line {
        PlanLine::Zone(rule) => !is_rule(rule.as_str()) || has_zone(earlier),
        PlanLine::Area(area) => !is_sound(area),
        PlanLine::Terminal(terminal) => {
            !has_area(lines, terminal.who) || is_taken(&terminal.token, earlier)
        }
        PlanLine::BadZone | PlanLine::BadArea(_) | PlanLine::Bad => true,
    }
}

pub(crate) fn is_taken(token: &Token, earlier: &[PlanLine]) -> bool
    ensures { result ≡ list_any (has_token token.now) earlier.now }
{
    earlier.iter().any(|line| line.has_token(token))
}

/// Whether a plan can have the zone, and the zone can be read.
pub(crate) fn is_rule(text: &str) -> bool
    ensures { result ≡ is_rule text.now }
{
    (1..=LONGEST_ZONE).contains(&text.len())
        && are_ascii(text.as_bytes())
        && Zone::read(text).is_ok()
}

fn are_ascii(text: &[u8]) -> bool
    ensures { result ≡ is_ascii text.now }
{
    text.iter().all(|byte| byte.is_ascii())
}

/// Whether an area is of a division, its west not above its east, its south not above its north,
/// and its corners in the squares.
fn is_sound(area: &Area) -> bool
    ensures { result ≡ is_sound area.now }
{
    let rect = &area.rect;
    (1..=LAST_DIVISION).contains(&area.division)
        && rect.west <= rect.east
        && rect.south <= rect.north
        && Place::new(rect.west, rect.south).is_some()
        && Place::new(rect.east, rect.north).is_some()
}

/// Whether a desk's division has an area. Other terminals need none.
fn has_area(lines: &[PlanLine], who: Who) -> bool
    ensures { result ≡ has_area lines.now who }
{
    match who {
        Who::Desk(division) => has_area_of(lines, division.get()),
        Who::Crew(_) | Who::Position(_) => true,
    }
}

pub(crate) fn has_area_of(lines: &[PlanLine], division: u32) -> bool
    ensures { result ≡ list_any (is_area_of division) lines.now }
{
    lines.iter().any(|line| line.is_area_of(division))
}
