//! Turns, reports and calls judged one at a time, beside the rows that are kept.
ghost use Rattle.std.specs.Prelude.{◌≡◌, ◌++◌, ◌∷◌, [], Bool, List, IfErr, IfOk, OnOk, filter};
ghost use Rattle.std.specs.Prelude.{is_none, refl};
ghost use Rattle.std.specs.List.{list_all};
ghost use Rattle.sqlite.specs.Held.{state};
ghost use Rattle.room_types.specs.KeyedRows.{IsKeyed};
ghost use Rattle.room_types.specs.declared.slices.DivisionRows.{DivisionRows};
ghost use Rattle.room_store_check_rows.specs.HistoryChecks.{AreOpenings, is_last};
ghost use Rattle.room_tables_schema.specs.FileConnections.{HasRoomSchema, IsClean};
ghost use Rattle.room_tables_schema.specs.declared.database_faults.Fault.TheVariants.{Memory};
ghost use Rattle.room_tables_schema.specs.Outcomes.{ReadsOnly};
ghost use Rattle.room_tables.specs.Failures.{AreNoRows, ExplainsWhy};
ghost use Rattle.room_tables.specs.RowStreams.{AreAll};
ghost use Rattle.room_store_check_tables.specs.JudgedHistories.{AreJudged};

use room_place::plans::Plan;
use room_store_check_rows::first_disagreement::Judged;
use room_store_check_rows::history_checks::{Openings, agrees, is_last};
use room_store_check_rows::room_checks::RoomRows;
use room_tables::room_table::Table;
use room_tables::row_streams::{TypedRowSink, each_row};
use room_tables_schema::database_faults::Fault;
use room_types::rows::Rows;
use room_types::tables::{Call, Report, Turn};
use sqlite::{Alter, Connection};

/// A row of the history of a room. Of such rows is kept what the rest of the room is judged by.
pub(crate) trait History: Judged + Table {
    /// What is kept of them.
    type Kept: Drop;

    // What is kept of these rows, in the order of their keys, beside the other rows of their room.
    ghost keeps: { DivisionRows → List Self → Self.Kept → Type 0 };

    // Keeps what the rest of the room is judged by. The one fault is `Memory`.
    fn keep(self, rows: &RoomRows, kept: &mut Self::Kept) -> Result<(), Fault>
        ensures kept { OnOk result ((before : List Self)
            → IsKeyed Self.Key.cmp Self.key_of (before ++ self ∷ [])
            → keeps rows.now before kept.old → keeps rows.now (before ++ self ∷ []) kept.new) }
        ensures memory { IfErr result (λ fault. fault ≡ Memory) };
}

/// Of turns those are kept that are open.
impl History for Turn {
    type Kept = Rows<Turn>;

    ghost keeps = { λ _ turns kept. kept ≡ filter (λ t. is_none t.ended) turns };

    fn keep(self, _: &RoomRows, kept: &mut Rows<Turn>) -> Result<(), Fault> {
        keep_if(self.ended.is_none(), self, kept)
    }
}

/// Of reports the last of each vehicle is kept.
impl History for Report {
    type Kept = Rows<Report>;

    ghost keeps = { λ s reports kept. kept ≡ filter (is_last s.vehicles) reports };

    fn keep(self, rows: &RoomRows, kept: &mut Rows<Report>) -> Result<(), Fault> {
        keep_if(is_last(&self, &rows.vehicles), self, kept)
    }
}

/// Of calls the openings are kept that they give.
impl History for Call {
    type Kept = Openings;

    ghost keeps = { λ _ calls openings. AreOpenings calls openings };

    fn keep(self, _: &RoomRows, openings: &mut Openings) -> Result<(), Fault> {
        openings.add(&self)?;
        Ok(())
    }
}

// Keeps a row if it passes, after those of the rows before it that do.
fn keep_if<X: Table>(passes: bool, row: X, kept: &mut Rows<X>) -> Result<(), Fault>
    ensures kept { OnOk result ((p : X → Bool) (before : List X) → passes ≡ p row
        → IsKeyed X.Key.cmp X.key_of (before ++ row ∷ []) → kept.old ≡ filter p before
        → kept.new ≡ filter p (before ++ row ∷ [])) }
    ensures memory { IfErr result (λ fault. fault ≡ Memory) }
{
    if passes {
        TypedRowSink::take(kept, row)
    } else {
        Ok(())
    }
}

// Rows that are judged as they are taken.
#[derive(Drop)]
struct Judging<'a, X: History> {
    plan: &'a Plan,
    rows: &'a RoomRows,
    fit: bool,
    kept: X::Kept,
}

// Whether all that were taken agree, and what is kept of them.
impl<'a, X: History> TypedRowSink for Judging<'a, X> {
    type Row = X;

    ghost takes = { λ first taken now.
        (now.plan.now ≡ first.plan.now) × (now.rows.now ≡ first.rows.now)
        × AreJudged (X.disagreement now.plan.now.areas now.rows.now) (X.keeps now.rows.now)
        first.fit first.kept taken now.fit now.kept };

    fn take(&mut self, row: X) -> Result<(), Fault> {
        let row_agrees = agrees(self.plan, self.rows, &row);
        self.fit = self.fit && row_agrees;
        row.keep(self.rows, &mut self.kept)
    }

    ghost begins = { λ x. (refl, refl, record { agree = λ fit. fit; keep = λ none. none }) };
}

/// Judges all rows of a table of the history, one at a time: what is kept of them, and whether all
/// agree with the rows that are kept.
pub(crate) fn judge<X: History, S: Alter>(
    conn: &mut Connection<S>,
    plan: &Plan,
    rows: &RoomRows,
    kept: X::Kept,
) -> Result<(X::Kept, bool), Fault>
    requires room { HasRoomSchema S.Store conn.old }
    ensures judged { IsClean S.Store conn.new
        → IfOk result (λ judged. (xs : List X) × AreAll X.Key.cmp X.key_of X.cells X.rows X.table
        (state S.Store conn.old).now.trees xs
        × (judged.1 ≡ list_all (λ x. is_none (X.disagreement plan.now.areas rows.now x)) xs)
        × (X.keeps rows.now [] kept → X.keeps rows.now xs judged.0)) }
    ensures why { ExplainsWhy S.Store conn.old conn.new result X.texts.all []
        (AreNoRows X.is_row X.Key.cmp X.key_of X.cells) }
    ensures reads { ReadsOnly S.Store conn.old conn.new result }
{
    let judging: Judging<'_, X> = Judging {
        plan,
        rows,
        fit: true,
        kept,
    };
    match each_row(conn, judging) {
        Ok(Judging { kept, fit, .. }) => Ok((kept, fit)),
        Err(fault) => Err(fault),
    }
}
