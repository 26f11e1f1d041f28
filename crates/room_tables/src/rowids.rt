//! Whether the tables of a file number their rows. Tables that this program made do; of a file from
//! elsewhere no clause says so, and it is tested.

ghost use Rattle.std.specs.Prelude.{◌≡◌, ◌↔◌, ℕ, [], None, map, true, IsTrue, IfOk};
ghost use Rattle.sqlite_value.specs.declared.value.Value.TheVariants.{Null};
ghost use Rattle.sqlite_trees.specs.Tree.{rowid};
ghost use Rattle.sqlite.specs.Held.{state};
ghost use Rattle.room_tables_schema.specs.TableTrees.{AreNumbered, RowidsRise};
ghost use Rattle.room_tables_schema.specs.Outcomes.{ReadsInside, ReadsOnly};
ghost use Rattle.room_tables_schema.specs.Schema.{room_tables};
ghost use Rattle.room_tables_schema.specs.FileConnections.{HasRoomSchema, IsClean};
ghost use Rattle.room_tables.specs.Failures.{ExplainsWhy, ExplainsWhyAtLast};
ghost use Rattle.room_tables.specs.Rowids.{AreAllNumbered, FailsAtRowids, SelectEach};
ghost use Rattle.room_tables.specs.Rowids.{SelectsRowids, ShowsRise, integer_in};

use room_tables_schema::database_faults::Fault;
use room_tables_schema::queries::select_inside;
use room_tables_schema::query_streams::{RowSink, stream};
use sqlite::{Alter, Connection, Row, Transaction};
use sqlite_value::value::ValueRef;

// The rowids of each table in their order, the tables in the order in which they are made.
const ROWIDS: [&str; 13] = [
    "SELECT rowid FROM meta ORDER BY rowid",
    "SELECT rowid FROM areas ORDER BY rowid",
    "SELECT rowid FROM terminals ORDER BY rowid",
    "SELECT rowid FROM divisions ORDER BY rowid",
    "SELECT rowid FROM incidents ORDER BY rowid",
    "SELECT rowid FROM calls ORDER BY rowid",
    "SELECT rowid FROM vehicles ORDER BY rowid",
    "SELECT rowid FROM turns ORDER BY rowid",
    "SELECT rowid FROM assignments ORDER BY rowid",
    "SELECT rowid FROM points ORDER BY rowid",
    "SELECT rowid FROM loans ORDER BY rowid",
    "SELECT rowid FROM reports ORDER BY rowid",
    "SELECT rowid FROM offers ORDER BY rowid",
];

/// Whether every table of a room numbers its rows, each number once.
pub fn are_numbered<S: Alter>(tx: &mut Transaction<'_, S>) -> Result<bool, Fault>
    requires room { HasRoomSchema S.Store tx.old.conn.now }
    ensures numbered { IsClean S.Store tx.new.conn.now
        → IfOk result (λ yes. IsTrue yes
        ↔ AreAllNumbered (state S.Store tx.old.conn.now).now.trees) }
    ensures reads { ReadsInside S.Store tx.old.conn.now tx.new.conn.now result }
    ensures why { ExplainsWhyAtLast S.Store tx.old.conn.now tx.new.conn.now result FailsAtRowids }
    ensures same_reference { tx.new.conn.ghost_name ≡ tx.old.conn.ghost_name }
{
    are_all_numbered(tx, &ROWIDS)
}

/// The same outside a transaction, with the rowids read one at a time.
pub fn are_numbered_streamed<S: Alter>(conn: &mut Connection<S>) -> Result<bool, Fault>
    requires room { HasRoomSchema S.Store conn.old }
    ensures numbered { IsClean S.Store conn.new
        → IfOk result (λ yes. IsTrue yes ↔ AreAllNumbered (state S.Store conn.old).now.trees) }
    ensures reads { ReadsOnly S.Store conn.old conn.new result }
    ensures why { ExplainsWhyAtLast S.Store conn.old conn.new result FailsAtRowids }
{
    are_all_numbered_streamed(conn, &ROWIDS)
}

// Whether every table numbers its rows, by the texts that select their rowids.
fn are_all_numbered_streamed<S: Alter>(
    conn: &mut Connection<S>,
    texts: &[&str],
) -> Result<bool, Fault>
    requires room { HasRoomSchema S.Store conn.old }
    requires texts { SelectEach (map (λ text. text.now) texts.now) room_tables }
    ensures numbered { IsClean S.Store conn.new
        → IfOk result (λ yes. IsTrue yes ↔ AreAllNumbered (state S.Store conn.old).now.trees) }
    ensures reads { ReadsOnly S.Store conn.old conn.new result }
    ensures why { ExplainsWhyAtLast S.Store conn.old conn.new result FailsAtRowids }
{
    for text in texts {
        if !is_numbered_streamed(conn, text)? {
            return Ok(false);
        }
    }
    Ok(true)
}

// Whether a table numbers its rows, by the text that selects its rowids.
fn is_numbered_streamed<S: Alter>(conn: &mut Connection<S>, text: &str) -> Result<bool, Fault>
    requires room { HasRoomSchema S.Store conn.old }
    requires selects { IsClean S.Store conn.old → (tree : ℕ)
        × SelectsRowids text.now tree }
    ensures numbered { IsClean S.Store conn.new
        → IfOk result (λ yes. (tree : ℕ) → SelectsRowids text.now tree
        → (IsTrue yes ↔ AreNumbered ((state S.Store conn.old).now.trees tree))) }
    ensures reads { ReadsOnly S.Store conn.old conn.new result }
    ensures why { ExplainsWhy S.Store conn.old conn.new result text.now [] (λ _. ⊥) }
{
    let mut rowids = Rowids::new();
    stream(conn, text, &[], &mut rowids)?;
    Ok(rowids.rise)
}

// Whether every table numbers its rows, by the texts that select their rowids.
fn are_all_numbered<S: Alter>(tx: &mut Transaction<'_, S>, texts: &[&str]) -> Result<bool, Fault>
    requires room { HasRoomSchema S.Store tx.old.conn.now }
    requires texts { SelectEach (map (λ text. text.now) texts.now) room_tables }
    ensures numbered { IsClean S.Store tx.new.conn.now
        → IfOk result (λ yes. IsTrue yes
        ↔ AreAllNumbered (state S.Store tx.old.conn.now).now.trees) }
    ensures reads { ReadsInside S.Store tx.old.conn.now tx.new.conn.now result }
    ensures why { ExplainsWhyAtLast S.Store tx.old.conn.now tx.new.conn.now result FailsAtRowids }
    ensures same_reference { tx.new.conn.ghost_name ≡ tx.old.conn.ghost_name }
{
    for text in texts {
        if !is_numbered(tx, text)? {
            return Ok(false);
        }
    }
    Ok(true)
}

// Whether a table numbers its rows, by the text that selects its rowids.
fn is_numbered<S: Alter>(tx: &mut Transaction<'_, S>, text: &str) -> Result<bool, Fault>
    requires room { HasRoomSchema S.Store tx.old.conn.now }
    requires selects { IsClean S.Store tx.old.conn.now → (tree : ℕ)
        × SelectsRowids text.now tree }
    ensures numbered { IsClean S.Store tx.new.conn.now
        → IfOk result (λ yes. (tree : ℕ) → SelectsRowids text.now tree
        → (IsTrue yes ↔ AreNumbered ((state S.Store tx.old.conn.now).now.trees tree))) }
    ensures reads { ReadsInside S.Store tx.old.conn.now tx.new.conn.now result }
    ensures why { ExplainsWhy S.Store tx.old.conn.now tx.new.conn.now result text.now [] (λ _. ⊥) }
    ensures same_reference { tx.new.conn.ghost_name ≡ tx.old.conn.ghost_name }
{
    let shown = select_inside(tx, text, &[])?;
    Ok(rise(shown.as_slice()))
}

// Whether the rowids are integers, each above the one before it.
fn rise(shown: &[Row]) -> bool
    ensures { IsTrue result ↔ RowidsRise shown.now }
{
    let mut rowids = Rowids::new();
    for row in shown {
        rowids.take(row);
    }
    rowids.rise
}

// What the rowids that were shown so far say: whether they are integers, each above the one before
// it, and which was the last.
#[derive(Drop)]
struct Rowids {
    rise: bool,
    last: Option<i64>,
}

impl Rowids {
    // Of none yet.
    fn new() -> Rowids
        ensures rise { result.rise ≡ true }
        ensures none { result.last ≡ None }
    {
        Rowids {
            rise: true,
            last: None,
        }
    }
}

impl RowSink for Rowids {
    ghost takes = { λ first shown now. first.rise ≡ true → first.last ≡ None
        → ShowsRise shown now.rise now.last };

    fn take(&mut self, row: &Row) {
        let id = rowid_of(row);
        if id <= self.last {
            self.rise = false;
        }
        self.last = id;
    }

    ghost begins = { λ x rise none. rw (rise, none) ((tt, tt), λ _. Null) };
}

// The rowid, which is shown first; none where it is no integer.
fn rowid_of(row: &Row) -> Option<i64>
    ensures { result ≡ integer_in (rowid row.now) }
{
    match row.get_ref(0) {
        Ok(ValueRef::Int(id)) => Some(id),
        _ => None,
    }
}
