//! A store, as the room that the engine serves.
ghost use Rattle.std.proofs.Common.{ap, false, inl, inr, subst, sym, ⊎_elim, ◌∙◌, ◌≡◌};
ghost use Rattle.std.proofs.lemmas.Bool.{cases_Bool};
ghost use Rattle.sqlite.specs.Effect.{Database};
ghost use Rattle.room_model.specs.Rooms.{machine};
ghost use Rattle.room_tables.specs.RoomsInTables.{Stands};
ghost use Rattle.room_store_writes.specs.Configurations.{config_of};
ghost use Rattle.room_store_cache.specs.Cache.{KnowsNothing};
ghost use Rattle.room_store.specs.StoredRoom.{IsKept, IsReady, IsRoom, LeavesOneOf};
ghost use Rattle.room_tables_schema.specs.FileConnections.{IsClean};

use crate::store::Store;
use room_model::rooms::Room;
use room_types::answers::Answer;
use room_types::asks::{Event, Who};
use room_types::refusal_statuses::Refusal;
use room_types::token::Token;
use sqlite::Alter;
use std::alloc::Global;

impl<S: Alter> Room for Store<S> {
    ghost is_ready = { λ held. IsReady S.Store held };

    ghost is_trusted = { λ held. IsClean S.Store held.conn };

    ghost stands = { λ held terminals room. IsRoom S.Store held terminals room };

    ghost is_kept = { λ held. IsKept S.Store held };

    ghost leaves_one_of = { λ held terminals rooms. LeavesOneOf S.Store held terminals rooms };

    ghost is_shut = { λ held. held.is_sound ≡ false };

    ghost has_failed = { λ held. KnowsNothing held.cache };

    ghost step = { machine };

    ghost zone = { λ held. held.plan.zone };

    fn who(&mut self, _: Global, token: &Token) -> Result<Option<Who>, Refusal> {
        Store::who(self, token)
    }

    fn act<F: FnOnce(&Result<Answer, Refusal>) -> Result<Vec<u8>, Refusal>>(
        &mut self,
        alloc: Global,
        event: &Event,
        render: F,
    ) -> Result<Vec<u8>, Refusal> {
        Store::act(self, alloc, event, render)
    }

    ghost fits = { λ held terminals room is. is.fits };

    ghost leaves_it = { λ held terminals room kept is db left. inl
        (subst (λ trees. Stands trees (config_of held.plan terminals) room)
        (sym (kept.only_left db left)) (is.tables kept.is_open)) };

    // A stop of an open store leaves what was committed.
    ghost kept_or_shut = { λ held ready clean. ⊎_elim
        (λ sound. let settled = (ready.sound sound clean).settled in inl (record {
          is_open = settled.is_open;
          only_left = λ db left. S.Store.settled held.conn.store db settled.is_open left
              ∙ ap (λ (b : Database). b.trees) settled.committed;
        }))
        (λ unsound. inr unsound) (cases_Bool held.is_sound) };
}
