//! Time zones and their days.
ghost use Rattle.std.specs.Prelude.{◌≡◌, ◌↔◌, pos, IfOk, IfSome, IsOk, IsSome};
ghost use Rattle.jiff.specs.Placed.{IsPosixZone};
ghost use Rattle.jiff.specs.Words.{epoch_day, read_whole};
ghost use Rattle.jiff_core.specs.Calendar.{days_from_civil};
ghost use Rattle.room_http_time.specs.Days.{IsDay, IsInner, IsMidnight, IsSpan, zone_of};

use jiff::civil::Date;
use jiff::tz::TimeZone;
use jiff_tz::posix;
use std::fmt;

/// A time zone, by a rule as POSIX writes it: `GMT0BST,M3.5.0/1,M10.5.0`, say.
#[derive(Clone, Copy)]
pub struct Zone {
    rule: posix::TimeZone,
}

/// Why a text is no zone.
#[derive(Clone, Copy, PartialEq, Eq)]
pub enum ZoneFault {
    /// It is no rule.
    Rule,
}

impl fmt::Display for ZoneFault {
    ghost use Rattle.std.specs.Prelude.{codes, Some};

    ghost output = { λ _. Some (codes "the text is no rule of a time zone") };

    fn fmt<W: fmt::Write>(&self, f: &mut fmt::Formatter<W>) -> fmt::Result {
        f.write_str(match self {
            ZoneFault::Rule => "the text is no rule of a time zone",
        })
    }
}

impl Zone {
    /// The zone of a rule. It takes no memory.
    pub fn read(text: &str) -> Result<Zone, ZoneFault>
        ensures read { IsOk result ↔ IsSome (read_whole text.now) }
        ensures zone { IfOk result (λ zone. IsPosixZone text.now (zone_of zone)) }
    {
        match posix::TimeZone::parse(text.as_bytes()) {
            Ok(rule) => Ok(Zone { rule }),
            Err(_) => Err(ZoneFault::Rule),
        }
    }

    /// The seconds of UTC since 1970 at which a day begins and at which the next one does: none
    /// where the numbers are no day from 1970-01-01 to 2099-12-31. Where the clock skips 00:00 or
    /// shows it twice, the offset before the change counts.
    pub fn day(&self, year: u16, month: u8, day: u8) -> Option<(i64, i64)>
        ensures found { IsSome result ↔ IsDay year month day }
        ensures span { IfSome result (IsSpan (zone_of self.now)
            (days_from_civil (pos year) month day)) }
    {
        let date = date_of(year, month, day)?;
        let next = date.tomorrow().unwrap();
        Some((self.midnight(date), self.midnight(next)))
    }

    /// The second at which a day begins.
    fn midnight(&self, date: Date) -> i64
        requires { IsInner (epoch_day date) }
        ensures { IsMidnight (zone_of self.now) (epoch_day date) result }
    {
        let zone = TimeZone::from_plain(jiff_tz::TimeZone::Posix(self.rule));
        date.to_zoned(zone).unwrap().timestamp().as_second()
    }
}

/// The date of these numbers.
fn date_of(year: u16, month: u8, day: u8) -> Option<Date>
    ensures found { IsSome result ↔ IsDay year month day }
    ensures date { IfSome result (λ date. epoch_day date ≡ days_from_civil (pos year) month day) }
{
    if year < 1970 || 2099 < year || 12 < month || 31 < day {
        return None;
    }
    Date::new(year as i16, month as i8, day as i8).ok()
}
