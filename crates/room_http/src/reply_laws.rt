//! What follows only from an answer and its moment. A law is the contract of a function that does
//! nothing.
ghost use Rattle.room_http.specs.ReplyLaws.{IsAlwaysThere, IsOneReply};

/// An answer has the same bytes whenever it is made for the same moment.
pub fn one_reply()
    ensures { IsOneReply }
{}

/// An answer has bytes at each moment before the year 10000, the last that a date of HTTP can
/// express.
pub fn a_reply_is_there()
    ensures { IsAlwaysThere }
{}
