//! What a zone or its text, and a day, decide by themselves.
//! A law is the contract of a function that does nothing.
ghost use Rattle.room_http_time.specs.Laws.{IsOneSpan, IsOneZone};

/// A day begins and ends at one second in a zone.
pub fn one_span()
    ensures { IsOneSpan }
{}

/// Two zones that one text gives have the same days.
pub fn one_zone()
    ensures { IsOneZone }
{}
