//! What a service is set to.
use room_http_time::zones::Zone;

/// How a service reads what it is asked.
#[derive(Clone, Copy)]
pub struct HttpSettings {
    /// The zone of its days.
    pub zone: Zone,
    /// Whether the paths of history are served.
    pub history: bool,
}
