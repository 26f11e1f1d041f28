//! What the stream decides by itself, however it was cut into pieces. Each law is the contract of a
//! function that does nothing.
ghost use Rattle.room_http_messages.specs.Laws.{IsNoEnd, IsOneMessage, IsOneReading, IsOneSplit};

/// A stream begins with at most one message.
pub fn one_message()
    ensures { IsOneMessage }
{}

/// A stream that begins with a message is neither at its end there, nor cut, nor refused.
pub fn no_end()
    ensures { IsNoEnd }
{}

/// A stream splits into messages in one way. Two readings differ only in how far they went.
pub fn one_split()
    ensures { IsOneSplit }
{}

/// A stream that is read to its end, or to where it is cut or refused, has the same messages in
/// each such reading.
pub fn one_reading()
    ensures { IsOneReading }
{}
