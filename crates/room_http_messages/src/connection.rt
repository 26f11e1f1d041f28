//! The options of the Connection fields (RFC 9110, section 7.6.1).
ghost use Rattle.std.specs.Prelude.{◌≡◌, map, reverse};
ghost use Rattle.httparse.specs.Grammar.{skip_ows};
ghost use Rattle.httparse.specs.Spans.{header_bytes};
ghost use Rattle.room_http_messages.specs.ConnectionOptions.{has_option, is_closing, is_option};
ghost use Rattle.room_http_messages.specs.HeadFields.{AreWithin};

use httparse::spans::HeaderSpan;

/// The bytes from the first that is no space or tab.
fn trim_start(bytes: &[u8]) -> &[u8]
    ensures { result.now ≡ skip_ows bytes.now }
{
    let mut rest = bytes;
    'spaces: while let [b' ' | b'\t', tail @ ..] = rest {
        rest = tail;
    }
    rest
}

/// The bytes up to the last that is no space or tab.
fn trim_end(bytes: &[u8]) -> &[u8]
    ensures { result.now ≡ reverse (skip_ows (reverse bytes.now)) }
{
    let mut rest = bytes;
    'spaces: while let [front @ .., b' ' | b'\t'] = rest {
        rest = front;
    }
    rest
}

/// Whether a member of a list is an option, in any case.
fn is_option(member: &[u8], option: &[u8]) -> bool
    ensures { result ≡ is_option option.now member.now }
{
    trim_end(trim_start(member)).eq_ignore_ascii_case(option)
}

/// Whether a comma list has an option.
fn has_option(list: &[u8], option: &[u8]) -> bool
    ensures { result ≡ has_option option.now list.now }
{
    list.split(|byte| *byte == b',')
        .any(|member| is_option(member, option))
}

/// Whether the connection closes after the answer to a request: always where it is of HTTP/1.0,
/// and where a Connection field has the option `close` (RFC 9112, section 9.6).
pub fn is_closing(buf: &[u8], headers: &[HeaderSpan], minor: u8) -> bool
    requires { AreWithin buf.now headers.now }
    ensures { result ≡ is_closing minor (map (header_bytes buf.now) headers.now) }
{
    if minor == 0 {
        return true;
    }
    for header in headers {
        if header.name.of(buf).eq_ignore_ascii_case(b"connection")
            && has_option(header.value.of(buf), b"close")
        {
            return true;
        }
    }
    false
}
