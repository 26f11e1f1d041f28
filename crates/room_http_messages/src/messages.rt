//! A message, and where its parts are in the bytes that begin with it.

use httparse::spans::Span;

/// Where the parts of a message are. It borrows nothing, so the bytes can be kept beside it.
#[derive(Clone, Copy, PartialEq, Eq)]
pub struct Layout {
    pub method: Span,
    pub target: Span,
    /// The body ends where the message does.
    pub body: Span,
    /// The value of the only X-Terminal field.
    pub terminal: Option<Span>,
    pub head_only: bool,
    pub closing: bool,
}

/// A message. Its slices are those of the inbox: nothing is copied.
#[derive(Clone, Copy)]
pub struct Message<'inbox> {
    /// The method, in the case in which it was sent.
    pub method: &'inbox [u8],
    pub target: &'inbox [u8],
    /// At most `BODY_LIMIT` bytes.
    pub body: &'inbox [u8],
    /// The value of the X-Terminal field, without the white space around it: none where there is no
    /// such field, or more than one.
    pub terminal: Option<&'inbox [u8]>,
    /// Whether the method is HEAD, so that the answer has no content (RFC 9110, section 9.3.2).
    pub head_only: bool,
    /// Whether the connection closes after the answer: the request is of HTTP/1.0, or the client
    /// asks for it by the option `close` (RFC 9112, section 9.6).
    pub closing: bool,
}
