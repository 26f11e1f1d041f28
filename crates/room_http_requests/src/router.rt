//! The paths in a router, and the one that a request names.
ghost use Rattle.std.specs.Prelude.{◌≡◌, true, OnOk, IfErr};
ghost use Rattle.room_http_requests.specs.Router.{is_allowed, is_free_for, routed, table};
ghost use Rattle.room_http_requests.specs.Router.{with_path};
ghost use Rattle.room_types.specs.declared.refusal_statuses.Refusal.TheVariants.{Memory};

use crate::parameters::text_of;
use crate::request_table::{PATHS, Path, Target};
use matchit::{InsertError, Router};
use room_types::refusal_statuses::{Allow, Refusal};
use std::alloc::Global;

/// All paths of the room, ready to be looked up.
#[derive(Drop)]
pub struct Routes {
    router: Router<Path>,
    ghost rows: { router ≡ table },
}

/// Adds a path. An error is lack of memory.
#[tactic(auto, unfolding(crate::specs::Router::with_path, crate::specs::Router::is_free_for))]
fn add(router: &mut Router<Path>, path: Path) -> Result<(), Refusal>
    requires { is_free_for router.old path ≡ true }
    ensures ok { OnOk result (router.new ≡ with_path router.old path) }
    ensures err { IfErr result (λ refusal. refusal ≡ Memory) }
{
    match router.insert(path.pattern(), path) {
        Ok(()) => Ok(()),
        Err(InsertError::OutOfMemory) => Err(Refusal::Memory),
        Err(_) => unreachable!(),
    }
}

impl Routes {
    /// All paths in a router. An error is lack of memory.
    #[tactic(auto, unfolding(crate::specs::Router::table))]
    pub fn new(alloc: Global) -> Result<Routes, Refusal>
        ensures { IfErr result (λ refusal. refusal ≡ Memory) }
    {
        let mut router = Router::new(alloc);
        for path in PATHS {
            add(&mut router, path)?;
        }
        Ok(Routes { router })
    }

    /// What a request names by its method and target.
    ///
    /// Refused as `NoPath` where the target is no path of the room, or one of history where that is
    /// not served, or a parameter is not of its form or range, then as `WrongMethod` where the path
    /// doesn't take the method. Methods are compared with case, and HEAD is taken where GET is.
    pub fn route(&self, history: bool, method: &[u8], target: &[u8]) -> Result<Target, Refusal>
        ensures { result ≡ routed history method.now target.now }
    {
        let Some(text) = text_of(target) else {
            return Err(Refusal::NoPath);
        };
        let path = match self.router.at(text) {
            Ok(found) => *found.value,
            Err(_) => return Err(Refusal::NoPath),
        };
        if !history && path.is_of_history() {
            return Err(Refusal::NoPath);
        }
        let Some(target) = Target::parse(path, text) else {
            return Err(Refusal::NoPath);
        };
        let allow = path.allow();
        if is_allowed(allow, method) {
            Ok(target)
        } else {
            Err(Refusal::WrongMethod(allow))
        }
    }
}

/// Whether a method is one of those.
fn is_allowed(allow: Allow, method: &[u8]) -> bool
    ensures { result ≡ is_allowed allow method.now }
{
    match allow {
        Allow::GetHead => matches!(method, b"GET" | b"HEAD"),
        Allow::Post => matches!(method, b"POST"),
    }
}
