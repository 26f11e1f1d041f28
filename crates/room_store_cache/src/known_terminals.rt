//! The room's terminals that are known, in the order of their tokens.
ghost use Rattle.std.specs.Prelude.{◌≡◌, [], IfSome, List, Some};
ghost use Rattle.room_types.specs.declared.fleet.Terminal.{Terminal as Known};
ghost use Rattle.room_model.specs.FleetRows.{terminal_at};
ghost use Rattle.room_store_cache.specs.KnownTerminals.{AreTerminalsOf, IsOneOf};

use room_types::fleet::Terminal;
use room_types::token::Token;
use std::alloc::Global;

/// Some terminals of the room. No event changes one, so none has to be forgotten.
#[derive(Drop)]
pub struct Terminals {
    kept: Vec<Terminal>,
}

impl Terminals {
    /// None is known yet.
    pub fn new(alloc: Global) -> Terminals
        ensures { result.kept.items ≡ [] }
    {
        Terminals {
            kept: Vec::new(alloc),
        }
    }

    /// The terminal of a token, if it is known.
    pub fn get(&self, token: &Token) -> Option<&Terminal>
        ensures { (terminals : List Known) → AreTerminalsOf self.now.kept.items terminals
            → IfSome result (λ t. terminal_at token.now terminals ≡ Some t.now) }
    {
        match self
            .kept
            .binary_search_by_key(token, |terminal| terminal.token)
        {
            Ok(at) => Some(&self.kept[at]),
            Err(_) => None,
        }
    }

    /// Keeps a terminal that was read, where it isn't known and memory is not refused.
    pub fn fill(&mut self, terminal: &Terminal)
        ensures { (terminals : List Known) → AreTerminalsOf self.old.kept.items terminals
            → IsOneOf terminals terminal.now → AreTerminalsOf self.new.kept.items terminals }
    {
        let place = self
            .kept
            .binary_search_by_key(&terminal.token, |known| known.token);
        if let Err(at) = place {
            let terminal = Terminal {
                token: terminal.token,
                who: terminal.who,
            };
            let _ = self.kept.insert(at, terminal);
        }
    }
}
