//! Days of the calendar.
ghost use Rattle.std.specs.Prelude.{◌≡◌, ◌≤◌, true};
ghost use Rattle.std.specs.Option.{SomeIff};
ghost use Rattle.room_http_time.specs.Dates.{is_date, days_in, is_leap, two_digits, day_of};

use std::marker::Model;

/// A day of the Gregorian calendar from 1970-01-01 to 2099-12-31. A contract sees its numbers.
#[derive(Clone, Copy)]
pub struct Day {
    year: u16,
    month: u8,
    day: u8,
}

impl Model for Day {
    ghost use Rattle.std.specs.Prelude.{◌≡◌, true};
    ghost use Rattle.room_http_time.specs.Dates.{Date, is_date};

    ghost Value = { Date };

    ghost view = { λ d. record { year = d.year; month = d.month; day = d.day } };

    ghost invariant = { λ d. is_date d.year d.month d.day ≡ true };

    ghost inverse = { λ date. record { year = date.year; month = date.month; day = date.day } };
}

impl Day {
    /// The day of these numbers: none where the calendar has none, or not in these years.
    pub fn new(year: u16, month: u8, day: u8) -> Option<Day>
        ensures { SomeIff result (is_date year month day ≡ true)
            (record { year = year; month = month; day = day }) }
    {
        if is_date(year, month, day) {
            Some(Day { year, month, day })
        } else {
            None
        }
    }

    /// The day that a text writes as `YYYY-MM-DD`: none where it writes none.
    pub fn parse(text: &str) -> Option<Day>
        ensures { result ≡ day_of text.now }
    {
        let bytes = text.as_bytes();
        if bytes.len() != 10 || bytes[4] != b'-' || bytes[7] != b'-' {
            return None;
        }
        let century = two_digits(bytes[0], bytes[1])?;
        let year = two_digits(bytes[2], bytes[3])?;
        let month = two_digits(bytes[5], bytes[6])?;
        let day = two_digits(bytes[8], bytes[9])?;
        Day::new(u16::from(century) * 100 + u16::from(year), month, day)
    }

    /// The year: 1970 to 2099.
    pub fn year(self) -> u16
        ensures value { result ≡ self.year }
        ensures least { 1970 ≤ self.year }
        ensures greatest { self.year ≤ 2099 }
    {
        self.year
    }

    /// The month: 1 to 12.
    pub fn month(self) -> u8
        ensures value { result ≡ self.month }
        ensures least { 1 ≤ self.month }
        ensures greatest { self.month ≤ 12 }
    {
        self.month
    }

    /// The day of the month, from 1.
    pub fn day(self) -> u8
        ensures value { result ≡ self.day }
        ensures least { 1 ≤ self.day }
        ensures greatest { self.day ≤ 31 }
    {
        self.day
    }
}

/// Whether the numbers are a day of these years.
fn is_date(year: u16, month: u8, day: u8) -> bool
    ensures { result ≡ is_date year month day }
{
    (1970..=2099).contains(&year) && 1 <= day && day <= days_in(year, month)
}

/// How many days a month has, 0 where there is no such month.
fn days_in(year: u16, month: u8) -> u8
    ensures { result ≡ days_in year month }
{
    match month {
        2 if is_leap(year) => 29,
        2 => 28,
        4 | 6 | 9 | 11 => 30,
        1..=12 => 31,
        _ => 0,
    }
}

fn is_leap(year: u16) -> bool
    ensures { result ≡ is_leap year }
{
    year % 4 == 0 && (year % 100 != 0 || year % 400 == 0)
}

/// The number that two digits write: none where they are no digits.
fn two_digits(tens: u8, ones: u8) -> Option<u8>
    ensures { result ≡ two_digits tens ones }
{
    if tens.is_ascii_digit() && ones.is_ascii_digit() {
        Some((tens - b'0') * 10 + (ones - b'0'))
    } else {
        None
    }
}
