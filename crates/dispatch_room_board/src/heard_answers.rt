//! The answers in what was heard, one after another.
ghost use Rattle.std.specs.Prelude.{codes, map, MatchResult};
ghost use Rattle.httparse.specs.Spans.{header_bytes};
ghost use Rattle.room_http_messages.specs.HeadFields.{AreWithin, values_of};
ghost use Rattle.dispatch_room_board.specs.Members.{IsRead};
ghost use Rattle.dispatch_room_board.specs.HeardAnswers.{Announces, IsDateOf, IsDated, IsMessage};
ghost use Rattle.dispatch_room_board.specs.HeardAnswers.{IsNoMessage};

use crate::board_errors::BoardError;
use crate::exchange::{MOST_HEARD, PIECE};
use httparse::Status;
use httparse::spans::{EMPTY_HEADER_SPAN, HeaderSpan, Span, parse_response};
use httpdate::HttpDate;
use room_http_messages::head_fields::find_field;
use room_http_messages::head_rules::numeral;
use room_http_messages::limits::FIELD_LIMIT;
use room_types::numbers::Moment;

/// Stands for every length above what is ever read.
const TOO_LONG: usize = MOST_HEARD + PIECE;

/// An answer, as it came.
#[derive(Clone, Copy)]
pub struct HeardAnswer<'a> {
    pub code: u16,
    /// When the room gave it, where it says so.
    pub moment: Option<Moment>,
    pub content: &'a [u8],
}

/// The answer at the front, and what follows it: a head of HTTP/1.0 or HTTP/1.1, and as many bytes
/// as it announces. Or why there is none: the bytes end too early, or are no answer's, whatever
/// follows them.
pub fn first_message(bytes: &[u8]) -> Result<(HeardAnswer<'_>, &[u8]), BoardError>
    ensures { MatchResult result (λ found. IsMessage bytes.now found.0 found.1.now)
        (IsNoMessage bytes.now) }
{
    let mut headers = [EMPTY_HEADER_SPAN; FIELD_LIMIT];
    let head = match parse_response(bytes, &mut headers) {
        Ok(Status::Complete(head)) => head,
        Ok(Status::Partial) => return Err(BoardError::Unheard),
        Err(_) => return Err(BoardError::Foreign),
    };
    let fields = &headers[..head.headers];
    let size = match length_in(bytes, fields) {
        Some(size) => size,
        None => return Err(BoardError::Foreign),
    };
    let (content, rest) = match bytes[head.len..].split_at_checked(size) {
        Some(parts) => parts,
        None => return Err(BoardError::Unheard),
    };
    let moment = moment_in(bytes, fields);
    let code = head.code;
    Ok((
        HeardAnswer {
            code,
            moment,
            content,
        },
        rest,
    ))
}

// The length of the content by the only Content-Length field: none where there is none, or more,
// or it isn't only digits.
fn length_in(bytes: &[u8], fields: &[HeaderSpan]) -> Option<usize>
    requires { AreWithin bytes.now fields.now }
    ensures { IsRead (Announces (values_of (codes "content-length")
        (map (header_bytes bytes.now) fields.now))) result }
{
    match find_field(bytes, fields, b"content-length").only() {
        Some(value) => numeral(value.of(bytes), TOO_LONG),
        None => None,
    }
}

// The moment of the only Date field.
fn moment_in(bytes: &[u8], fields: &[HeaderSpan]) -> Option<Moment>
    requires { AreWithin bytes.now fields.now }
    ensures { IsRead (IsDated (values_of (codes "date")
        (map (header_bytes bytes.now) fields.now))) result }
{
    match find_field(bytes, fields, b"date").only() {
        Some(value) => moment_of(value.of(bytes)),
        None => None,
    }
}

// The moment of a date; none where the text is none, or after the last moment.
fn moment_of(text: &[u8]) -> Option<Moment>
    ensures { IsRead (IsDateOf text.now) result }
{
    let Ok(date) = HttpDate::parse_ascii(text) else {
        return None;
    };
    match u32::try_from(date.unix_secs()) {
        Ok(seconds) => Moment::new(seconds),
        Err(_) => None,
    }
}
