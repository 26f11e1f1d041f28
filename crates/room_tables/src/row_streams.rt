//! Rows of a table that are read and taken one at a time, in the order of their keys.

ghost use Rattle.std.specs.Prelude.{◌≡◌, ◌++◌, ◌⊎◌, [], ◌∷◌, List, None, Ok, IfErr, IfOk, IsTrue};
ghost use Rattle.std.specs.Prelude.{OnOk, option_copied};
ghost use Rattle.sqlite.specs.Given.{IsPlain};
ghost use Rattle.sqlite.specs.Held.{state};
ghost use Rattle.sqlite.specs.Listing.{understood};
ghost use Rattle.sqlite.specs.Values.{bound};
ghost use Rattle.sqlite_value.specs.Order.{Row as Cells};
ghost use Rattle.room_types.specs.KeyedRows.{IsKeyed, put_row};
ghost use Rattle.room_tables_schema.specs.FileConnections.{HasRoomSchema, IsClean};
ghost use Rattle.room_tables_schema.specs.declared.database_faults.Fault.TheVariants.{Memory};
ghost use Rattle.room_tables_schema.specs.Outcomes.{ReadsOnly};
ghost use Rattle.room_tables.specs.Failures.{AreNoRows, ExplainsWhy};
ghost use Rattle.room_tables.specs.RowStreams.{AreAll, AreRead, AreShown, AreTaken, last_of};

use crate::room_table::Table;
use room_tables_rows::column_values::Stored;
use room_tables_schema::database_faults::Fault;
use room_tables_schema::query_streams::{RowSink, stream};
use room_types::rows::{Row, Rows};
use sqlite::{Alter, Connection};
use sqlite_value::value::ValueRef;

/// What takes the rows of a table, one after another.
pub trait TypedRowSink: Drop {
    /// The rows that it takes.
    type Row: Table;

    /// What rows that are taken one after another make of it.
    ghost takes: { Self → List Self.Row → Self → Type 0 };

    /// Takes the next row, whose key is above those before it. The one fault is `Memory`.
    fn take(&mut self, row: Self::Row) -> Result<(), Fault>
        ensures taken { OnOk result ((first : Self) (rows : List Self.Row)
            → IsKeyed Self.Row.Key.cmp Self.Row.key_of (rows ++ row ∷ [])
            → takes first rows self.old → takes first (rows ++ row ∷ []) self.new) }
        ensures memory { IfErr result (λ fault. fault ≡ Memory) };

    /// Before the first it is as it was.
    ghost begins: { (x : Self) → takes x [] x };
}

/// Rows take the rows of a table by keeping them all.
impl<X: Table> TypedRowSink for Rows<X> {
    type Row = X;

    ghost takes = { λ first rows now. first ≡ [] → now ≡ rows };

    fn take(&mut self, row: X) -> Result<(), Fault> {
        match self.put(row) {
            Ok(_) => Ok(()),
            Err(_) => Err(Fault::Memory),
        }
    }

    ghost begins = { λ x none. none };
}

/// Hands all rows of a table over, read one at a time: so no more than one stands in columns, and
/// the connection keeps no room for more.
pub fn each_row<T: TypedRowSink, S: Alter>(conn: &mut Connection<S>, taker: T) -> Result<T, Fault>
    requires room { HasRoomSchema S.Store conn.old }
    ensures taken { IsClean S.Store conn.new
        → IfOk result (λ taken. (rows : List T.Row) × AreAll T.Row.Key.cmp T.Row.key_of
        T.Row.cells T.Row.rows T.Row.table (state S.Store conn.old).now.trees rows
        × T.takes taker rows taken) }
    ensures reads { ReadsOnly S.Store conn.old conn.new result }
    ensures why { ExplainsWhy S.Store conn.old conn.new result T.Row.texts.all []
        (AreNoRows T.Row.is_row T.Row.Key.cmp T.Row.key_of T.Row.cells) }
{
    each_shown(conn, T::Row::statements().all, &[], taker)
}

/// Hands the rows that a selection shows over, read one at a time.
pub(crate) fn each_shown<T: TypedRowSink, S: Alter>(
    conn: &mut Connection<S>,
    text: &str,
    params: &[ValueRef<'_>],
    taker: T,
) -> Result<T, Fault>
    requires { IsClean S.Store conn.old
        → IsPlain (understood (state S.Store conn.old).now.schema text.now) }
    ensures taken { IsClean S.Store conn.new
        → IfOk result (λ taken. (rows : List T.Row) × AreShown T.Row.Key.cmp T.Row.key_of
        T.Row.cells text.now (bound params.now) (state S.Store conn.old) (state S.Store conn.new)
        rows × T.takes taker rows taken) }
    ensures reads { ReadsOnly S.Store conn.old conn.new result }
    ensures why { ExplainsWhy S.Store conn.old conn.new result text.now (bound params.now)
        (AreNoRows T.Row.is_row T.Row.Key.cmp T.Row.key_of T.Row.cells) }
{
    let mut reader = Reader::new(taker);
    stream(conn, text, params, &mut reader)?;
    reader.end()
}

/// Reads the rows of a table out of columns, and hands them on in the order of their keys. After a
/// fault it hands no more on.
#[derive(Drop)]
pub(crate) struct Reader<T: TypedRowSink> {
    taker: T,
    last: Option<T::Row>,
    taken: Result<(), Fault>,
}

impl<T: TypedRowSink> RowSink for Reader<T> {
    ghost takes = { λ first shown now. first.last ≡ None → first.taken ≡ Ok tt
        → AreTaken T.Row.is_row T.Row.Key.cmp T.Row.key_of T.Row.cells T.takes first.taker shown
        now.taker now.last now.taken };

    fn take(&mut self, columns: &sqlite::Row) {
        if self.taken.is_ok() {
            self.taken = self.take_next(columns);
        }
    }

    ghost begins = { λ x none done. rw (none, done) ([], λ _. [], tt, λ _. None, T.begins x.taker) };
}

impl<T: TypedRowSink> Reader<T> {
    /// Of no row yet.
    pub(crate) fn new(taker: T) -> Reader<T>
        ensures taker { result.taker ≡ taker }
        ensures none { result.last ≡ None }
        ensures well { result.taken ≡ Ok tt }
    {
        Reader {
            taker,
            last: None,
            taken: Ok(()),
        }
    }

    /// What took the rows, or why they were not all taken.
    pub(crate) fn end(self) -> Result<T, Fault>
        ensures { (first : T) (shown : List Cells) → AreTaken T.Row.is_row T.Row.Key.cmp
            T.Row.key_of T.Row.cells T.takes first shown self.taker self.last self.taken
            → AreRead T.Row.is_row T.Row.Key.cmp T.Row.key_of T.Row.cells T.takes first shown
            result }
    {
        let Reader {
            taker,
            last: _,
            taken,
        } = self;
        match taken {
            Ok(()) => Ok(taker),
            Err(fault) => Err(fault),
        }
    }

    // Takes the row that columns stand for, where its key is above the last.
    fn take_next(&mut self, columns: &sqlite::Row) -> Result<(), Fault>
        ensures { (first : T) (shown : List Cells) → AreTaken T.Row.is_row T.Row.Key.cmp
            T.Row.key_of T.Row.cells T.takes first shown self.old.taker self.old.last (Ok tt)
            → AreTaken T.Row.is_row T.Row.Key.cmp T.Row.key_of T.Row.cells T.takes first
            (shown ++ columns.now ∷ []) self.new.taker self.new.last result }
    {
        let Some(row) = T::Row::read(columns) else {
            return Err(Fault::Storage);
        };
        if !is_next(self.last.as_ref(), &row) {
            return Err(Fault::Storage);
        }
        self.last = Some(row);
        self.taker.take(row)
    }
}

// Whether the key of a row is above that of the last of some rows, which is given.
fn is_next<X: Row>(last: Option<&X>, row: &X) -> bool
    ensures next { (rows : List X) → IsKeyed X.Key.cmp X.key_of rows
        → option_copied last.entry ≡ last_of rows → IsTrue result
        → put_row X.Key.cmp X.key_of rows row.now ≡ rows ++ row.now ∷ [] }
    ensures not { (rows : List X) → option_copied last.entry ≡ last_of rows
        → IsTrue result ⊎ ¬ (IsKeyed X.Key.cmp X.key_of (rows ++ row.now ∷ [])) }
{
    match last {
        Some(last) => last.key().cmp(&row.key()).is_lt(),
        None => true,
    }
}
