//! A room that is kept in the tables of a connection.
ghost use Rattle.std.specs.Prelude.{◌≡◌, [], false, List, Result, Ok, IsTrue, IfOk, IfErr, OnOk};
ghost use Rattle.std.specs.Prelude.{MatchResult, OnErr};
ghost use Rattle.std.specs.Fn.{FnOnceReturnsAt};
ghost use Rattle.sqlite.specs.Held.{state};
ghost use Rattle.sqlite.specs.State.{FailsToQuery, Survives};
ghost use Rattle.sqlite.specs.declared.error.Error.{Error};
ghost use Rattle.sqlite_trees.specs.Tree.{Trees};
ghost use Rattle.room_types.specs.declared.answers.Answer.{Answer as Answered};
ghost use Rattle.room_types.specs.declared.fleet.Terminal.{Terminal as Known};
ghost use Rattle.room_types.specs.declared.refusal_statuses.Refusal.{Refusal as Why};
ghost use Rattle.room_types.specs.declared.refusal_statuses.Refusal.TheVariants.{Memory};
ghost use Rattle.room_model.specs.Room.{Room};
ghost use Rattle.room_model.specs.Shares.{AgreeOn};
ghost use Rattle.room_model.specs.Step.{IsAddressed, answer_to, room_after};
ghost use Rattle.room_model.specs.RoomAgreements.{IsWellFormed};
ghost use Rattle.room_tables_schema.specs.FileConnections.{HasRoomSchema, IsClean};
ghost use Rattle.room_model.specs.Digests.{IsMiss};
ghost use Rattle.room_model.specs.Rooms.{IsUnavailable, who_at};
ghost use Rattle.room_model.specs.declared.digests.DigestMismatch.TheVariants.{OtherDigest};
ghost use Rattle.room_tables.specs.RoomsInTables.{Stands};
ghost use Rattle.room_tables_rows.specs.declared.meta_sql.TheConstants.{ALL_META};
ghost use Rattle.room_store_writes.specs.Transactions.{IsSettled, Leaves, LeavesOnErr};
ghost use Rattle.room_store_cache.specs.Cache.{KnowsNothing};
ghost use Rattle.room_store.specs.StoredRoom.{IsReady, IsRoom, IsUnreadable, ShowsRoom};
ghost use Rattle.room_store.specs.DigestEvents.{IsHeadAfter};
ghost use Rattle.room_store_writes.specs.Configurations.{config_of};

use crate::acted_events::{act_on, lemma_numbered};
use crate::store_faults::refusal_of;
use room_model::digests::{DigestMismatch, StartDigest};
use room_place::plans::Plan;
use room_store_cache::cache::Cache;
use room_store_cache::known_terminals::Terminals;
use room_tables::connection_lemmas::lemma_committed;
use room_tables::terminal_table::terminal_at;
use room_tables_rows::meta_sql::ALL_META;
use room_tables_schema::queries::select;
use room_tables_schema::schema_tests::is_room;
use room_types::answers::Answer;
use room_types::asks::{Event, Who};
use room_types::refusal_statuses::Refusal;
use room_types::token::Token;
use sqlite::{Alter, Connection};
use std::alloc::Global;

/// A room in the tables of a connection.
///
/// A failed call may have shut the connection for good, which then says nothing of the tables any
/// more. So after each failed call the store reads a row. It stays sound where it sees a room and
/// can read; where not, every later call is refused as `Storage`, and the file has to be opened
/// again.
pub struct Store<S: Alter> {
    pub(crate) conn: Connection<S>,
    pub(crate) plan: Plan,
    // Terminals that are known, each of them one of the room's.
    pub(crate) terminals: Terminals,
    // What else is known of the room.
    pub(crate) cache: Cache,
    pub(crate) is_sound: bool,
}

impl<S: Alter> Store<S> {
    /// The plan of the room.
    pub fn plan(&self) -> &Plan
        ensures { result.now ≡ self.now.plan }
    {
        &self.plan
    }

    /// Whether a later call may succeed: the connection is open and shows a room, as it was
    /// committed. A failed call may have shut it for good; then every later call is refused as
    /// `Storage`, and the file has to be opened again.
    pub fn is_sound(&self) -> bool
        requires { IsReady S.Store self.now }
        ensures value { result ≡ self.now.is_sound }
        ensures usable { IsClean S.Store self.now.conn
            → IsTrue result → ShowsRoom (state S.Store self.now.conn) }
        ensures cause { IsClean S.Store self.now.conn
            → result ≡ false → IsUnreadable S.Store self.now.conn }
    {
        self.is_sound
    }

    /// Gives the connection back, outside a transaction.
    pub fn close(self) -> Connection<S>
        ensures { result ≡ self.conn }
    {
        let Store {
            conn,
            plan: _,
            terminals: _,
            cache: _,
            is_sound: _,
        } = self;
        conn
    }

    /// Who shows a token: none where no terminal has it. For a terminal that is known nothing is
    /// read. A refusal is of memory or of storage.
    pub fn who(&mut self, token: &Token) -> Result<Option<Who>, Refusal>
        requires ready { IsReady S.Store self.old }
        ensures ready { IsReady S.Store self.new }
        ensures plan { self.new.plan ≡ self.old.plan }
        ensures known { IsClean S.Store self.new.conn
            → IfOk result (λ who. (terminals : List Known) (room : Room)
            → IsRoom S.Store self.old terminals room → who ≡ who_at terminals token.now) }
        ensures same { IsClean S.Store self.new.conn
            → (terminals : List Known) (room : Room) → IsRoom S.Store self.old terminals room
            → IsRoom S.Store self.new terminals room }
        ensures leaves { IsClean S.Store self.new.conn
            → Leaves (state S.Store self.old.conn) (state S.Store self.new.conn) }
        ensures stays_open { IsClean S.Store self.new.conn
            → OnOk result (IsTrue (state S.Store self.old.conn).is_open
            → IsTrue (state S.Store self.new.conn).is_open) }
        ensures unavailable { IfErr result IsUnavailable }
        // After a failure only terminals are known of the room.
        ensures failed { OnErr result (KnowsNothing self.new.cache) }
        ensures survives { Survives (state S.Store self.old.conn) (state S.Store self.new.conn)
            (λ _. ⊥) }
    {
        if !self.is_sound {
            return Err(Refusal::Storage);
        }
        if let Some(terminal) = self.terminals.get(token) {
            return Ok(Some(terminal.who));
        }
        lemma_committed(&self.conn);
        match terminal_at(&mut self.conn, token) {
            Ok(None) => Ok(None),
            Ok(Some(terminal)) => {
                self.terminals.fill(&terminal);
                Ok(Some(terminal.who))
            }
            Err(fault) => {
                self.test_file();
                Err(refusal_of(fault))
            }
        }
    }

    /// Acts on an addressed event: gives what `render` makes of the machine's answer, and the
    /// tables stand for the room after the event. `render` is asked for the bytes before anything
    /// is written. A refusal is of memory or of storage, and changes nothing.
    pub fn act<F: FnOnce(&Result<Answer, Refusal>) -> Result<Vec<u8>, Refusal>>(
        &mut self,
        alloc: Global,
        event: &Event,
        render: F,
    ) -> Result<Vec<u8>, Refusal>
        requires ready { IsReady S.Store self.old }
        requires callable { F.IsAlwaysCallable render }
        requires memory { (answer : Result Answered Why) (r : _)
            → FnOnceReturnsAt F.FnOnce render answer r → IfErr r (λ e. e ≡ Memory) }
        ensures ready { IsReady S.Store self.new }
        ensures plan { self.new.plan ≡ self.old.plan }
        ensures known { self.new.terminals ≡ self.old.terminals }
        // After a failure only terminals are known of the room.
        ensures failed { OnErr result (KnowsNothing self.new.cache) }
        ensures bytes { IsClean S.Store self.new.conn
            → IfOk result (λ bytes. (terminals : List Known) (room : Room)
            → IsRoom S.Store self.old terminals room → IsAddressed event.now room
            → FnOnceReturnsAt F.FnOnce render (answer_to event.now room) (Ok bytes)) }
        // They are so of every room that agrees on the rows of who asks.
        ensures apart { IsClean S.Store self.new.conn
            → IfOk result (λ bytes. (terminals : List Known) (room other : Room)
            → IsRoom S.Store self.old terminals room → IsAddressed event.now room
            → IsWellFormed other → AgreeOn event.now.who event.now.ask room other
            → FnOnceReturnsAt F.FnOnce render (answer_to event.now other) (Ok bytes)) }
        ensures ok { IsClean S.Store self.new.conn
            → OnOk result ((terminals : List Known) (room : Room)
            → IsRoom S.Store self.old terminals room → IsAddressed event.now room
            → IsRoom S.Store self.new terminals (room_after event.now room)) }
        ensures settled { IsClean S.Store self.new.conn
            → OnOk result (IsSettled (state S.Store self.new.conn)) }
        ensures err { LeavesOnErr S.Store self.old.conn self.new.conn result }
        ensures unavailable { IfErr result IsUnavailable }
        // What a stop leaves is what it left before, or the room after the event; after an Ok the
        // room as it is now and nothing else.
        ensures survives { Survives (state S.Store self.old.conn) (state S.Store self.new.conn)
            (λ db. IsTrue (state S.Store self.old.conn).is_open
            → (terminals : List Known) (room : Room) → IsRoom S.Store self.old terminals room
            → IsAddressed event.now room
            → Stands db (config_of self.old.plan terminals) (room_after event.now room)) }
        ensures only_left { IsClean S.Store self.new.conn
            → OnOk result ((db : Trees) → (state S.Store self.new.conn).may_leave db
            → db ≡ (state S.Store self.new.conn).now.trees) }
    {
        if !self.is_sound {
            return Err(Refusal::Storage);
        }
        lemma_numbered(&event.ask);
        match act_on(
            alloc,
            &mut self.conn,
            &self.plan,
            &mut self.cache,
            event,
            render,
        ) {
            Ok(bytes) => Ok(bytes),
            Err(refusal) => {
                self.test_file();
                Err(refusal)
            }
        }
    }

    /// Acts on an addressed event, as `act` does, where the room comes by it to the digest of this
    /// head. Where it would come to another one, that is reported, and the room is kept as it was.
    pub fn act_towards<F: FnOnce(&Result<Answer, Refusal>) -> Result<Vec<u8>, Refusal>>(
        &mut self,
        alloc: Global,
        event: &Event,
        head: &StartDigest,
        render: F,
    ) -> Result<Vec<u8>, DigestMismatch>
        requires ready { IsReady S.Store self.old }
        requires callable { F.IsAlwaysCallable render }
        requires memory { (answer : Result Answered Why) (r : _)
            → FnOnceReturnsAt F.FnOnce render answer r → IfErr r (λ e. e ≡ Memory) }
        ensures ready { IsReady S.Store self.new }
        ensures plan { self.new.plan ≡ self.old.plan }
        ensures known { self.new.terminals ≡ self.old.terminals }
        // After a failure only terminals are known of the room.
        ensures failed { OnErr result (KnowsNothing self.new.cache) }
        ensures bytes { IsClean S.Store self.new.conn
            → IfOk result (λ bytes. (terminals : List Known) (room : Room)
            → IsRoom S.Store self.old terminals room → IsAddressed event.now room
            → FnOnceReturnsAt F.FnOnce render (answer_to event.now room) (Ok bytes)) }
        ensures ok { IsClean S.Store self.new.conn
            → OnOk result ((terminals : List Known) (room : Room)
            → IsRoom S.Store self.old terminals room → IsAddressed event.now room
            → IsRoom S.Store self.new terminals (room_after event.now room)
            × IsHeadAfter event.now self.old.plan.zone terminals room head.now) }
        ensures another { IsClean S.Store self.new.conn
            → IfErr result (λ miss. miss ≡ OtherDigest → (terminals : List Known) (room : Room)
            → IsRoom S.Store self.old terminals room → IsAddressed event.now room
            → ¬ (IsHeadAfter event.now self.old.plan.zone terminals room head.now)) }
        ensures settled { IsClean S.Store self.new.conn
            → MatchResult result (λ _. IsSettled (state S.Store self.new.conn))
            (λ miss. miss ≡ OtherDigest → IsSettled (state S.Store self.new.conn)) }
        ensures err { LeavesOnErr S.Store self.old.conn self.new.conn result }
        ensures unavailable { IfErr result IsMiss }
        // What a stop leaves is what it left before, or the room after the event.
        ensures survives { Survives (state S.Store self.old.conn) (state S.Store self.new.conn)
            (λ db. IsTrue (state S.Store self.old.conn).is_open
            → (terminals : List Known) (room : Room) → IsRoom S.Store self.old terminals room
            → IsAddressed event.now room
            → Stands db (config_of self.old.plan terminals) (room_after event.now room)) }
    {
        if !self.is_sound {
            return Err(DigestMismatch::Unavailable(Refusal::Storage));
        }
        lemma_numbered(&event.ask);
        match self.commit_towards(alloc, event, head, render) {
            Ok(bytes) => Ok(bytes),
            Err(miss) => {
                self.test_file();
                Err(self.after_test(miss))
            }
        }
    }

    // What is reported for a miss once the file was tested: `Storage` where it is shut.
    fn after_test(&self, miss: DigestMismatch) -> DigestMismatch
        ensures missed { IsMiss miss → IsMiss result }
        ensures same { result ≡ OtherDigest → miss ≡ OtherDigest }
        ensures sound { result ≡ OtherDigest → IsTrue self.now.is_sound }
    {
        if self.is_sound {
            miss
        } else {
            DigestMismatch::Unavailable(Refusal::Storage)
        }
    }

    // After a fault the connection may show no room any more, or may be shut, and a shut one still
    // shows the schema that it had. So a row is read too. What was known is forgotten.
    pub(crate) fn test_file(&mut self)
        requires outside { self.old.conn.in_transaction ≡ false }
        ensures ready { IsReady S.Store self.new }
        ensures plan { self.new.plan ≡ self.old.plan }
        ensures known { self.new.terminals ≡ self.old.terminals }
        ensures nothing { KnowsNothing self.new.cache }
        ensures leaves { IsClean S.Store self.new.conn
            → Leaves (state S.Store self.old.conn) (state S.Store self.new.conn) }
        ensures survives { Survives (state S.Store self.old.conn) (state S.Store self.new.conn)
            (λ _. ⊥) }
    {
        self.cache.forget();
        self.is_sound = is_room(self.conn.schema()) && can_read(&mut self.conn);
    }
}

// Whether a query can be made: not where the connection is shut.
fn can_read<S: Alter>(conn: &mut Connection<S>) -> bool
    requires room { HasRoomSchema S.Store conn.old }
    requires outside { conn.old.in_transaction ≡ false }
    ensures shows { IsTrue result → IsClean S.Store conn.new
        → ShowsRoom (state S.Store conn.new) }
    ensures cause { result ≡ false → IsClean S.Store conn.new
        → (e : Error) × FailsToQuery ALL_META.now [] (state S.Store conn.old)
        (state S.Store conn.new) e }
    ensures leaves { IsClean S.Store conn.new
        → Leaves (state S.Store conn.old) (state S.Store conn.new) }
    ensures outside { conn.new.in_transaction ≡ false }
    ensures survives { Survives (state S.Store conn.old) (state S.Store conn.new) (λ _. ⊥) }
{
    lemma_committed(conn);
    select(conn, ALL_META, &[]).is_ok()
}
