//! How a list goes on.
ghost use Rattle.std.specs.Prelude.{◌≡◌, ◌≤◌, [], false, true, is_err, length, OnOk};
ghost use Rattle.dispatch_room_journal.specs.Chains.{IsBody, is_no_entry, row_body, said_by};
ghost use Rattle.dispatch_room_journal.specs.Chains.{shown_by};
ghost use Rattle.dispatch_room_journal.specs.RowRuns.{PutsBody, PutsEnd, PutsEntry, PutsRow};
ghost use Rattle.dispatch_room_journal.specs.RecordFronts.{comes_next};
ghost use Rattle.dispatch_room_journal.specs.PlainTexts.{PutsKnown};
ghost use Rattle.dispatch_room_journal.specs.TextParts.{Lacks};
ghost use Rattle.dispatch_room_journal.specs.declared.list_ends.ListEnd.TheVariants.{Chain};
ghost use Rattle.dispatch_room_journal.specs.declared.row_runs.TheConstants.{ROW_ROOM};

use crate::record_fronts::{END, Link, is_end};
use crate::record_writer::put_record;
use crate::row_runs::row_of;
use room_http_messages::sinks::{Sink, WriteFailed, write_all};

/// How a list goes on.
#[derive(Clone, Copy)]
pub enum ListEnd {
    /// It is no chain: entry follows entry.
    Plain,
    /// It is a chain, and has come so far.
    Chain(Link),
}

/// Puts an entry behind a list that goes on from here: as it is, or as a record.
pub fn put_entry<W: Sink>(
    writer: &mut W,
    end: &mut ListEnd,
    entry: &[u8],
) -> Result<(), WriteFailed>
    requires sound { W.has_failed writer.old ≡ false }
    requires is_one { IsBody entry.now }
    requires says { is_no_entry entry.now ≡ false }
    ensures put { PutsKnown end.old end.new (W.held writer.old) (W.held writer.new) entry.now
        result }
    ensures written { OnOk result
        (PutsEntry end.old end.new (W.held writer.old) (W.held writer.new) entry.now) }
    ensures failed { W.has_failed writer.new ≡ is_err result }
{
    match *end {
        ListEnd::Plain => write_all(writer, entry),
        ListEnd::Chain(link) => put_after(writer, end, &link, entry),
    }
}

// Puts a record behind a chain that has come so far.
fn put_after<W: Sink>(
    writer: &mut W,
    end: &mut ListEnd,
    link: &Link,
    body: &[u8],
) -> Result<(), WriteFailed>
    requires sound { W.has_failed writer.old ≡ false }
    requires is_one { IsBody body.now }
    requires comes { comes_next link.now.has_ended body.now ≡ true }
    ensures put { PutsKnown (Chain link.now) end.new (W.held writer.old) (W.held writer.new)
        (shown_by body.now) result }
    ensures written { OnOk result (PutsBody (Chain link.now) end.new (W.held writer.old)
        (W.held writer.new) body.now) }
    ensures failed { W.has_failed writer.new ≡ is_err result }
{
    let mut check = link.check;
    let put = put_record(writer, &mut check, body);
    *end = ListEnd::Chain(Link {
        check,
        has_ended: is_end(body),
    });
    put
}

/// Puts a line of a file, which is given without its end, behind a chain that has come so far: as a
/// row.
pub fn put_row<W: Sink>(
    writer: &mut W,
    end: &mut ListEnd,
    link: &Link,
    line: &[u8],
) -> Result<(), WriteFailed>
    requires sound { W.has_failed writer.old ≡ false }
    requires fits { length line.now ≤ ROW_ROOM }
    requires line { Lacks 10 line.now }
    ensures put { PutsKnown (Chain link.now) end.new (W.held writer.old) (W.held writer.new)
        (row_body line.now) result }
    ensures says { said_by (row_body line.now) ≡ [] }
    ensures row { OnOk result (PutsRow (Chain link.now) end.new (W.held writer.old)
        (W.held writer.new) line.now) }
    ensures failed { W.has_failed writer.new ≡ is_err result }
{
    let body = row_of(line);
    put_after(writer, end, link, body.as_slice())
}

/// Puts behind a list that goes on from here that it ended well, where it is a chain and does not
/// end so.
pub fn put_end<W: Sink>(writer: &mut W, end: &mut ListEnd) -> Result<(), WriteFailed>
    requires sound { W.has_failed writer.old ≡ false }
    ensures put { PutsKnown end.old end.new (W.held writer.old) (W.held writer.new) [] result }
    ensures ended { OnOk result
        (PutsEnd end.old end.new (W.held writer.old) (W.held writer.new)) }
    ensures failed { W.has_failed writer.new ≡ is_err result }
{
    match *end {
        ListEnd::Chain(link) if !link.has_ended => put_after(writer, end, &link, END),
        ListEnd::Chain(_) | ListEnd::Plain => Ok(()),
    }
}
