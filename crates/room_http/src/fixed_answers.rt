//! The answers that are written beforehand, for when memory is refused or the database fails.
ghost use Rattle.std.specs.Prelude.{◌≡◌, ◌⊎◌};
ghost use Rattle.room_http.specs.ReplyMessages.{fixed_bytes};

use room_types::refusal_statuses::Refusal;

fn memory(head_only: bool) -> &'static [u8]
    ensures { result.now ≡ fixed_bytes Refusal.Memory head_only }
{
    if head_only {
        b"HTTP/1.1 503 Service Unavailable\r\nContent-Type: application/json\r\nContent-Length: 30\r\nConnection: close\r\n\r\n"
    } else {
        b"HTTP/1.1 503 Service Unavailable\r\nContent-Type: application/json\r\nContent-Length: 30\r\nConnection: close\r\n\r\n{\"error\":\"Memory\",\"number\":41}"
    }
}

fn storage(head_only: bool) -> &'static [u8]
    ensures { result.now ≡ fixed_bytes Refusal.Storage head_only }
{
    if head_only {
        b"HTTP/1.1 503 Service Unavailable\r\nContent-Type: application/json\r\nContent-Length: 31\r\nConnection: close\r\n\r\n"
    } else {
        b"HTTP/1.1 503 Service Unavailable\r\nContent-Type: application/json\r\nContent-Length: 31\r\nConnection: close\r\n\r\n{\"error\":\"Storage\",\"number\":42}"
    }
}

/// The answer to `Memory` and to `Storage`. It takes no memory, has no date, and closes the
/// connection.
pub fn fixed(refusal: Refusal, head_only: bool) -> &'static [u8]
    requires { (refusal ≡ Refusal.Memory) ⊎ (refusal ≡ Refusal.Storage) }
    ensures { result.now ≡ fixed_bytes refusal head_only }
{
    match refusal {
        Refusal::Storage => storage(head_only),
        _ => memory(head_only),
    }
}
