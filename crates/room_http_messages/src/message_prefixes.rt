//! A look at the first bytes of a stream.
ghost use Rattle.std.specs.Prelude.{◌≤◌, length};
ghost use Rattle.room_http_messages.specs.declared.limits.TheConstants.{INBOX_ROOM};
ghost use Rattle.room_http_messages.specs.Layouts.{LookIs};

use crate::connection::is_closing;
use crate::head_fields::find_field;
use crate::head_rules::check_head;
use crate::limits::{FIELD_LIMIT, HEAD_LIMIT};
use crate::messages::Layout;
use httparse::Status;
use httparse::spans::{EMPTY_HEADER_SPAN, Span, parse_request};
use room_types::refusal_statuses::Refusal;

/// What the first bytes of a stream are.
#[derive(Clone, Copy, PartialEq, Eq)]
pub enum MessagePrefix {
    /// They begin with a message.
    Whole(Layout),
    /// They are refused, whatever follows.
    Refused { refusal: Refusal, head_only: bool },
    /// More is to come: the stream is a part of a message as long as it has fewer bytes than these.
    Needs(usize),
}

/// What the first bytes of a stream are.
pub fn look_at(bytes: &[u8]) -> MessagePrefix
    requires { length bytes.now ≤ INBOX_ROOM }
    ensures { LookIs bytes.now result }
{
    let window = &bytes[..bytes.len().min(HEAD_LIMIT)];
    let mut headers = [EMPTY_HEADER_SPAN; FIELD_LIMIT];
    let head = match parse_request(window, &mut headers) {
        Ok(Status::Complete(head)) => head,
        Ok(Status::Partial) if bytes.len() < HEAD_LIMIT => {
            return MessagePrefix::Needs(bytes.len() + 1);
        }
        Ok(Status::Partial) => {
            return MessagePrefix::Refused {
                refusal: Refusal::HeadTooLong,
                head_only: false,
            };
        }
        Err(_) => {
            return MessagePrefix::Refused {
                refusal: Refusal::BadMessage,
                head_only: false,
            };
        }
    };
    let fields = &headers[..head.headers];
    let head_only = head.method.of(window) == b"HEAD".as_slice();
    match check_head(window, fields, head.version) {
        Err(refusal) => MessagePrefix::Refused { refusal, head_only },
        Ok(size) if bytes.len() < head.len + size => MessagePrefix::Needs(head.len + size),
        Ok(size) => MessagePrefix::Whole(Layout {
            method: head.method,
            target: head.path,
            body: Span {
                start: head.len,
                end: head.len + size,
            },
            terminal: find_field(window, fields, b"x-terminal").only(),
            head_only,
            closing: is_closing(window, fields, head.version),
        }),
    }
}
