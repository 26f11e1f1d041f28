//! What requests are handled with.
ghost use Rattle.std.specs.Prelude.{◌≡◌, IfErr, IfOk};
ghost use Rattle.room_types.specs.declared.refusal_statuses.Refusal.TheVariants.{Memory};

use crate::settings::HttpSettings;
use room_http_requests::router::Routes;
use room_types::refusal_statuses::Refusal;
use std::alloc::Global;

/// What every request of a service is handled with. It is made only once, since making the routes
/// takes longer than an answer.
#[derive(Drop)]
pub struct Handler {
    pub alloc: Global,
    pub routes: Routes,
    pub setting: HttpSettings,
}

impl Handler {
    /// A handler of a service with this setting. A refusal is lack of memory.
    pub fn new(alloc: Global, setting: HttpSettings) -> Result<Handler, Refusal>
        ensures setting { IfOk result (λ handler. handler.setting ≡ setting) }
        ensures refused { IfErr result (λ refusal. refusal ≡ Memory) }
    {
        Ok(Handler {
            alloc,
            routes: Routes::new(alloc)?,
            setting,
        })
    }
}
