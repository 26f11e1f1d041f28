//! What a complete head must not break, in the order in which it is tested.
ghost use Rattle.std.specs.Prelude.{◌≡◌, ◌<◌, ◌≤◌, ◌^◌, ℕ, List, codes, map, min, MatchOption};
ghost use Rattle.std.specs.Prelude.{MatchResult, None, Some, true, false};
ghost use Rattle.std.specs.Str.Parse.{digits_value};
ghost use Rattle.httparse.specs.Spans.{header_bytes};
ghost use Rattle.room_http_messages.specs.HeadFields.{AreWithin, FoundIs, values_of};
ghost use Rattle.room_http_messages.specs.Rules.{body_length, fault_of, has_host_fault};
ghost use Rattle.room_http_messages.specs.Rules.{has_length_fault, is_numeral, length_of};

use crate::head_fields::{Found, find_field};
use crate::limits::BODY_LIMIT;
use httparse::spans::HeaderSpan;
use room_types::refusal_statuses::Refusal;

/// What stands for every number above the limit of a body.
const TOO_LONG: usize = BODY_LIMIT + 1;

/// The number that a text of digits only writes, or `most` where it is above that. So any number of
/// digits is read.
pub fn numeral(value: &[u8], most: usize) -> Option<usize>
    requires { most < 2 ^ 32 }
    ensures { MatchOption result (is_numeral value.now ≡ false)
        (λ n. (is_numeral value.now ≡ true) × (n ≡ min (digits_value 10 value.now) most)) }
{
    let mut number = 0;
    for digit in value {
        if !digit.is_ascii_digit() {
            return None;
        }
        number = (number * 10 + usize::from(*digit - b'0')).min(most);
    }
    if value.is_empty() { None } else { Some(number) }
}

/// Whether the Host fields are at fault.
fn is_host_fault(host: Found, minor: u8) -> bool
    ensures { (buf : List ℕ) (values : List (List ℕ)) → FoundIs buf values host
        → result ≡ has_host_fault minor values }
{
    match host {
        Found::Nowhere => minor == 1,
        Found::Once(_) => false,
        Found::Repeated => true,
    }
}

/// The length of the body by the Content-Length fields, none where they are at fault.
fn announced_length(buf: &[u8], headers: &[HeaderSpan]) -> Option<usize>
    requires { AreWithin buf.now headers.now }
    ensures { let values = values_of (codes "content-length")
        (map (header_bytes buf.now) headers.now) in
        MatchOption result (has_length_fault values ≡ true)
        (λ n. (has_length_fault values ≡ false) × (n ≡ min (length_of values) TOO_LONG)) }
{
    match find_field(buf, headers, b"content-length") {
        Found::Nowhere => Some(0),
        Found::Once(value) => numeral(value.of(buf), TOO_LONG),
        Found::Repeated => None,
    }
}

/// The length of the body that a complete head announces, or the refusal of the first rule that it
/// breaks:
///
/// - `BadMessage`, where a request of HTTP/1.1 has not exactly one Host field, or one of HTTP/1.0
///   more than one (RFC 9112, section 3.2);
/// - `Coding`, at any Transfer-Encoding field (our profile: RFC 9112, section 6.1, lets a server
///   refuse the codings that it doesn't know);
/// - `BadMessage`, at more than one Content-Length field, or one that is not only digits (our
///   profile: RFC 9110, section 8.6, lets a recipient take equal values as one; here they are
///   refused);
/// - `Expectation`, at any Expect field of a request of HTTP/1.1; one of HTTP/1.0 is not looked at
///   (RFC 9110, section 10.1.1);
/// - `BodyTooLong`, where the length is above `BODY_LIMIT`.
#[tactic(auto, using(crate::proofs::RuleLemmas::too_long, crate::proofs::RuleLemmas::not_too_long), unfolding(crate::specs::Rules::fault_of))]
pub fn check_head(buf: &[u8], headers: &[HeaderSpan], minor: u8) -> Result<usize, Refusal>
    requires { AreWithin buf.now headers.now }
    ensures { let fields = map (header_bytes buf.now) headers.now in MatchResult result
        (λ n. (fault_of minor fields ≡ None) × (n ≡ body_length fields) × (n ≤ BODY_LIMIT))
        (λ r. fault_of minor fields ≡ Some r) }
{
    if is_host_fault(find_field(buf, headers, b"host"), minor) {
        return Err(Refusal::BadMessage);
    }
    if find_field(buf, headers, b"transfer-encoding").is_there() {
        return Err(Refusal::Coding);
    }
    let Some(length) = announced_length(buf, headers) else {
        return Err(Refusal::BadMessage);
    };
    if minor == 1 && find_field(buf, headers, b"expect").is_there() {
        return Err(Refusal::Expectation);
    }
    if length > BODY_LIMIT {
        return Err(Refusal::BodyTooLong);
    }
    Ok(length)
}
