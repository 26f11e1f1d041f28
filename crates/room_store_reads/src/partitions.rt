//! Parts of a division's incidents, calls, turns and reports that are known or that an index finds,
//! and the load of all that are in some.
ghost use Rattle.std.specs.Prelude.{◌≡◌, ◌==◌, ◌&&◌, ◌||◌, ℕ, Bool, filter, not};
ghost use Rattle.room_types.specs.Codes.{outcome_number};
ghost use Rattle.room_types.specs.KeyedRows.{IsKeyed};
ghost use Rattle.room_tables.specs.FoundRows.{Finds};
ghost use Rattle.room_tables_schema.specs.FileConnections.{HasRoomSchema, StandsOpen};
ghost use Rattle.room_tables_schema.specs.Outcomes.{ReadsOnly};
ghost use Rattle.room_store_reads.specs.Partitions.{AreKnown, any};

use crate::row_unions::{add_all, listed};
use crate::selections::load_one;
use room_place::plans::DivisionNumber;
use room_store_cache::cache::Cache;
use room_store_cache::cached_rows::own_rows;
use room_tables::call_table::calls_of;
use room_tables::report_table::uncleared_reports;
use room_tables::room_table::Table;
use room_tables::turn_table::turns_of;
use room_tables_schema::database_faults::Fault;
use room_types::codes::Outcome;
use room_types::numbers::Number;
use room_types::rows::Rows;
use room_types::tables::{Call, Incident, Report, Turn};
use sqlite::{Alter, Connection};
use std::alloc::Global;

/// A table that a division's rows are read from part by part.
pub trait Partition: Table {
    /// What names a part.
    type Part;

    /// Whether a row is in a division's part.
    ghost is_in: { ℕ → Self.Part → Self → Bool };

    /// The rows of a part.
    fn load_part<S: Alter>(
        alloc: Global,
        conn: &mut Connection<S>,
        known: &Cache,
        division: DivisionNumber,
        part: &Self::Part,
    ) -> Result<Rows<Self>, Fault>
        requires room { HasRoomSchema S.Store conn.old }
        requires open { StandsOpen S.Store conn.old }
        ensures rows { Finds S.Store conn.old conn.new result (λ room x.
            AreKnown known.now room
            → IsKeyed Self.Key.cmp Self.key_of (Self.rows room)
            → x ≡ filter (is_in division part.now) (Self.rows room)) }
        ensures reads { ReadsOnly S.Store conn.old conn.new result };
}

/// Adds the rows that are in one of some parts to rows of their table.
pub fn load_parts<R: Partition, S: Alter>(
    alloc: Global,
    conn: &mut Connection<S>,
    known: &Cache,
    division: DivisionNumber,
    parts: &[R::Part],
    mut rows: Rows<R>,
) -> Result<Rows<R>, Fault>
    requires room { HasRoomSchema S.Store conn.old }
    requires open { StandsOpen S.Store conn.old }
    ensures rows { Finds S.Store conn.old conn.new result (λ room x.
        (first : R → Bool) → AreKnown known.now room → IsKeyed R.Key.cmp R.key_of (R.rows room)
        → rows ≡ filter first (R.rows room)
        → x ≡ filter (λ y. first y || any (λ p. R.is_in division p y) parts.now) (R.rows room)) }
    ensures reads { ReadsOnly S.Store conn.old conn.new result }
{
    for part in parts {
        let more = R::load_part::<S>(alloc, conn, known, division, part)?;
        add_all(&mut rows, &more)?;
    }
    Ok(rows)
}

// The incident of a number, if there is one.
impl Partition for Incident {
    type Part = Number;

    ghost is_in = { λ d n i. i.division == d && n == i.number };

    fn load_part<S: Alter>(
        alloc: Global,
        conn: &mut Connection<S>,
        known: &Cache,
        division: DivisionNumber,
        part: &Number,
    ) -> Result<Rows<Incident>, Fault> {
        let number = *part;
        match known.incident_views.get(&(division, number)) {
            Some(incident_view) => listed(alloc, incident_view.incident),
            None => load_one::<Incident, S>(alloc, conn, division, &(division, number)),
        }
    }
}

// The calls of an incident.
impl Partition for Call {
    type Part = Number;

    ghost is_in = { λ d n c. c.incident == n && c.division == d };

    fn load_part<S: Alter>(
        alloc: Global,
        conn: &mut Connection<S>,
        _known: &Cache,
        division: DivisionNumber,
        part: &Number,
    ) -> Result<Rows<Call>, Fault> {
        calls_of(alloc, conn, division, *part)
    }
}

// The turns of an incident.
impl Partition for Turn {
    type Part = Number;

    ghost is_in = { λ d n t. t.incident == n && t.division == d };

    fn load_part<S: Alter>(
        alloc: Global,
        conn: &mut Connection<S>,
        known: &Cache,
        division: DivisionNumber,
        part: &Number,
    ) -> Result<Rows<Turn>, Fault> {
        match known.incident_views.get(&(division, *part)) {
            Some(incident_view) => own_rows(alloc, &incident_view.turns, division),
            None => turns_of(alloc, conn, division, *part),
        }
    }
}

// The reports of an outcome that are not cleared.
impl Partition for Report {
    type Part = Outcome;

    ghost is_in = { λ d o x. outcome_number x.outcome == outcome_number o &&
        (not x.cleared && x.division == d) };

    fn load_part<S: Alter>(
        alloc: Global,
        conn: &mut Connection<S>,
        _known: &Cache,
        division: DivisionNumber,
        part: &Outcome,
    ) -> Result<Rows<Report>, Fault> {
        uncleared_reports(alloc, conn, *part, division)
    }
}
