//! How a table of the board is laid out.
ghost use Rattle.std.specs.Prelude.{◌≡◌, ◌++◌, OnOk, codes, decimal};
ghost use Rattle.dispatch_room_board.specs.Pages.{Adds, spaced_line};
ghost use Rattle.dispatch_room_board.specs.BoardTables.{IsLayout, Table, alarm_of, row_line};
ghost use Rattle.dispatch_room_board.specs.BoardTables.{table_lines};
ghost use Rattle.dispatch_room_board.specs.declared.board_pages.Paint.TheVariants.{Title};

use crate::board_pages::{Page, Paint};
use crate::cell_layout::Column;
use crate::json_members::FromJson;
use room_types::answers::Listed;
use room_types::numbers::Moment;
use std::alloc::{AllocError, Global};

/// What a table has beside its rows.
#[derive(Clone, Copy)]
pub struct TableLayout {
    /// What an answer calls the list of the rows.
    pub name: &'static str,
    /// What the table is called.
    pub title: &'static str,
    /// What stands above the rows.
    pub titles: &'static str,
    pub columns: &'static [Column],
}

/// Rows of a table.
pub trait Tabled: FromJson {
    // What the table is, and what it shows of a row.
    ghost table: { Table Self };

    fn layout() -> TableLayout
        ensures { IsLayout table result };

    /// Adds the row as it is at a moment.
    fn put(&self, alloc: Global, now: Moment, page: &mut Page) -> Result<(), AllocError>
        ensures { OnOk result (Adds page.old page.new
            (row_line table page.old.colour now self.now)) };
}

/// How a row is painted: red where something is wrong.
pub fn alarm(wrong: bool) -> Paint
    ensures { result ≡ alarm_of wrong }
{
    if wrong { Paint::Alarm } else { Paint::Plain }
}

/// Adds a table: how many rows it has, and the rows as they are at a moment.
pub fn put_rows<T: Tabled>(
    alloc: Global,
    page: &mut Page,
    rows: &Listed<T>,
    now: Moment,
) -> Result<(), AllocError>
    ensures { OnOk result (Adds page.old page.new
        (table_lines T.table page.old.colour now rows.now)) }
{
    let layout = T::layout();
    put_count(alloc, page, layout.title, rows.len())?;
    if rows.is_empty() {
        return Ok(());
    }
    page.put_line(Paint::Plain, layout.titles)?;
    for row in rows.as_slice() {
        row.put(alloc, now, page)?;
    }
    Ok(())
}

fn put_count(alloc: Global, page: &mut Page, title: &str, count: usize) -> Result<(), AllocError>
    ensures { OnOk result (Adds page.old page.new
        (spaced_line page.old.colour Title (title.now ++ codes ": " ++ decimal count))) }
{
    let line = format!(in alloc; "{title}: {count}")?;
    page.put_spaced(Paint::Title, line.as_str())
}
