//! Where a room may be served, and where a token may go.
ghost use Rattle.std.specs.Prelude.{IfNone, IfSome, MatchBool};
ghost use Rattle.std.specs.Net.Grammar.{IsSocketText};
ghost use Rattle.dispatch_room_cli.specs.Addresses.{IsAnother, IsElsewhere, IsLocalhost};
ghost use Rattle.dispatch_room_cli.specs.Addresses.{IsLoopback, IsThisMachine};

use std::fmt;
use std::net::{IpAddr, SocketAddr};

/// The address with a port that a text is, where it reaches this machine only: of 127.0.0.0/8, or
/// ::1.
pub fn loopback(text: &str) -> Option<SocketAddr>
    ensures one { IfSome result (λ address. IsSocketText text.now address × IsLoopback address) }
    ensures none { IfNone result (IsElsewhere text.now) }
{
    match text.parse::<SocketAddr>() {
        Ok(address) => {
            if address.ip().is_loopback() {
                Some(address)
            } else {
                None
            }
        }
        Err(_) => None,
    }
}

/// Whether a text names this machine: by an address that no other machine reaches, or as
/// `localhost`, each with a port. A name has to be looked up, so any other may be another machine's.
pub fn is_this_machine(text: &str) -> bool
    ensures { MatchBool result (IsThisMachine text.now) (IsAnother text.now) }
{
    match loopback(text) {
        Some(_) => true,
        None => is_localhost(text),
    }
}

fn is_localhost(text: &str) -> bool
    ensures { MatchBool result (IsLocalhost text.now) (¬ IsLocalhost text.now) }
{
    match text.strip_prefix("localhost:") {
        Some(port) => port.parse::<u16>().is_ok(),
        None => false,
    }
}

/// What is wrong with an address at which no room is served.
#[derive(Clone, Copy)]
pub enum AddressFault {
    NoPort,
    HighPort,
    /// It is a name, or has a zone.
    NoNumbers,
    /// Other machines reach it.
    Elsewhere,
}

impl fmt::Display for AddressFault {
    fn fmt<W: fmt::Write>(&self, f: &mut fmt::Formatter<W>) -> fmt::Result {
        f.write_str(match self {
            AddressFault::NoPort => "no port",
            AddressFault::HighPort => "port above 65535",
            AddressFault::NoNumbers => "no name or zone is taken: write 127.0.0.1 or [::1]",
            AddressFault::Elsewhere => "other machines reach it",
        })
    }
}

/// What is wrong with such a text.
pub fn fault_in(text: &str) -> AddressFault {
    if text.parse::<SocketAddr>().is_ok() {
        return AddressFault::Elsewhere;
    }
    match port_in(text) {
        Some(port) if port.parse::<u16>().is_ok() => AddressFault::NoNumbers,
        Some(_) => AddressFault::HighPort,
        None => AddressFault::NoPort,
    }
}

// The digits behind the last colon, but of an address of IPv6 without brackets, which has no port.
fn port_in(text: &str) -> Option<&str> {
    if text.parse::<IpAddr>().is_ok() {
        return None;
    }
    let (_, port) = text.rsplit_once(':')?;
    let is_numeral = !port.is_empty() && port.bytes().all(|byte| byte.is_ascii_digit());
    if is_numeral { Some(port) } else { None }
}
