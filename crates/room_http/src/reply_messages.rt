//! Answers as messages of HTTP/1.1. The content is made first, as the head gives its length; then
//! the message gets room for all of it, so that it is put together once.
ghost use Rattle.std.specs.Prelude.{◌≡◌, ◌++◌, IfErr, IfOk, IfSome, OnOk, string_bytes};
ghost use Rattle.room_http.specs.ReplyMessages.{IsReply, allow_field, closing_field, field};
ghost use Rattle.room_http.specs.ReplyMessages.{methods, status_of};

use crate::answer_json::content;
use http::StatusCode;
use httpdate::HttpDate;
use room_types::answers::Answer;
use room_types::numbers::Moment;
use room_types::refusal_statuses::{Allow, Refusal};
use std::alloc::{AllocError, Global};
use std::fmt::Display;

fn status_of(answer: &Result<Answer, Refusal>) -> StatusCode
    ensures { result ≡ status_of answer.now }
{
    let code = match answer {
        Ok(_) => 200,
        Err(refusal) => refusal.status(),
    };
    StatusCode::from_u16(code).unwrap()
}

/// Room for the head of an answer, which has fewer bytes.
const HEAD_ROOM: usize = 256;

/// Adds a field of the head.
fn put_field<T: Display + Drop>(head: &mut String, name: &str, value: T) -> Result<(), AllocError>
    ensures { OnOk result (IfSome (T.output value) (λ text.
        string_bytes head.new ≡ string_bytes head.old ++ field name.now text)) }
{
    write!(head, "{name}: {value}\r\n")
}

fn methods(allow: &Allow) -> &'static str
    ensures { result.now ≡ methods allow.now }
{
    match allow {
        Allow::GetHead => "GET, HEAD",
        Allow::Post => "POST",
    }
}

/// Adds the methods that the path takes, where it doesn't take the one that was asked.
fn put_allow(head: &mut String, answer: &Result<Answer, Refusal>) -> Result<(), AllocError>
    ensures { OnOk result
        (string_bytes head.new ≡ string_bytes head.old ++ allow_field answer.now) }
{
    match answer {
        Err(Refusal::WrongMethod(allow)) => put_field(head, "Allow", methods(allow)),
        _ => Ok(()),
    }
}

/// Adds that the connection closes, where it does.
fn put_closing(head: &mut String, closing: bool) -> Result<(), AllocError>
    ensures { OnOk result (string_bytes head.new ≡ string_bytes head.old ++ closing_field closing) }
{
    if closing {
        put_field(head, "Connection", "close")
    } else {
        Ok(())
    }
}

/// The message that gives an answer or a refusal at a moment: without its content after a HEAD
/// request, and with the option `close` where the connection closes after it. `Memory` is the only
/// refusal.
pub fn render(
    alloc: Global,
    answer: &Result<Answer, Refusal>,
    at: Moment,
    head_only: bool,
    closing: bool,
) -> Result<Vec<u8>, Refusal>
    ensures ok { IfOk result (λ bytes. IsReply answer.now at head_only closing bytes.items) }
    ensures err { IfErr result (λ refusal. refusal ≡ Refusal.Memory) }
{
    let content = content(alloc, answer)?;
    let content = content.as_slice();
    let shown = if head_only { &[] } else { content };
    let date = HttpDate::from_unix_secs(at.get() as u64).unwrap();
    let status = status_of(answer);
    let mut head = String::with_capacity(alloc, shown.len().saturating_add(HEAD_ROOM))?;
    write!(head, "HTTP/1.1 {status}\r\n")?;
    put_field(&mut head, "Date", date)?;
    put_field(&mut head, "Content-Type", "application/json")?;
    put_field(&mut head, "Content-Length", content.len())?;
    put_allow(&mut head, answer)?;
    put_closing(&mut head, closing)?;
    head.push_str("\r\n")?;
    let mut bytes = head.into_bytes();
    bytes.extend_from_slice(shown)?;
    Ok(bytes)
}
