//! A page: lines of at most 80 columns, with or without colour.
ghost use Rattle.std.specs.Prelude.{◌≡◌};
ghost use Rattle.dispatch_room_board.specs.Pages.{closing_of, opening_of, visible};

use crate::board_cells::BoardCell;
use crate::cell_layout::{Column, cut, put_cells, rest};
use std::alloc::{AllocError, Global};

/// How a line is shown where colours are wanted.
#[derive(Clone, Copy)]
pub enum Paint {
    Plain,
    /// Bold.
    Title,
    /// Red.
    Alarm,
}

/// The lines so far.
#[derive(Drop)]
pub struct Page {
    text: Vec<u8>,
    colour: bool,
}

/// How many columns a line has at most.
pub const WIDEST: usize = 80;

/// How many bytes of a note a line has at most.
pub const NOTED: usize = 70;

impl Page {
    ghost use Rattle.std.specs.Prelude.{◌≡◌, ◌≤◌, [], length, map, OnOk};
    ghost use Rattle.dispatch_room_board.specs.BoardCells.{text_of};
    ghost use Rattle.dispatch_room_board.specs.CellLayout.{row_of, width_of};
    ghost use Rattle.dispatch_room_board.specs.Pages.{Adds, closing_of, line_of, note_line};
    ghost use Rattle.dispatch_room_board.specs.Pages.{note_lines, noted, opening_of, spaced_line};
    ghost use Rattle.dispatch_room_board.specs.Pages.{text_line, visible};

    /// A page without lines.
    pub fn new(alloc: Global, colour: bool) -> Page
        ensures text { result.text.items ≡ [] }
        ensures colour { result.colour ≡ colour }
    {
        Page {
            text: Vec::new(alloc),
            colour,
        }
    }

    /// The lines.
    pub fn as_slice(&self) -> &[u8]
        ensures { result.now ≡ self.now.text.items }
    {
        self.text.as_slice()
    }

    /// Adds a line of a text, which is cut after the last column.
    pub fn put_line(&mut self, paint: Paint, text: &str) -> Result<(), AllocError>
        ensures { OnOk result (Adds self.old self.new
            (text_line self.old.colour paint text.now)) }
    {
        self.begin(paint)?;
        self.text.extend_from_slice(cut(text.as_bytes(), WIDEST))?;
        self.end(paint)
    }

    /// Adds an empty line, and a line of a text.
    pub fn put_spaced(&mut self, paint: Paint, text: &str) -> Result<(), AllocError>
        ensures { OnOk result (Adds self.old self.new
            (spaced_line self.old.colour paint text.now)) }
    {
        self.put_line(Paint::Plain, "")?;
        self.put_line(paint, text)
    }

    /// Adds a row, each cell in its column.
    #[tactic(auto, using(crate::proofs::Widths::row_fits))]
    pub fn put_row(
        &mut self,
        alloc: Global,
        paint: Paint,
        columns: &[Column],
        cells: &[BoardCell<'_>],
    ) -> Result<(), AllocError>
        requires { width_of columns.now ≤ WIDEST }
        ensures line { OnOk result (Adds self.old self.new
            (line_of self.old.colour paint (row_of columns.now (map text_of cells.now)))) }
        ensures fits { length (row_of columns.now (map text_of cells.now)) ≤ WIDEST }
    {
        self.begin(paint)?;
        put_cells(alloc, &mut self.text, columns, cells)?;
        self.end(paint)
    }

    /// Adds a note below a row, in one line or two. What is no printable ASCII is shown as `?`, so
    /// that nothing else of a caller's words reaches a terminal.
    pub fn put_note(&mut self, note: &str) -> Result<(), AllocError>
        ensures { OnOk result (Adds self.old self.new (note_lines self.old.colour note.now)) }
    {
        let note = note.as_bytes();
        self.put_noted(note)?;
        self.put_noted(rest(note, NOTED))
    }

    // Adds a line of the first bytes of a note, where there are any.
    fn put_noted(&mut self, note: &[u8]) -> Result<(), AllocError>
        ensures line { OnOk result (Adds self.old self.new (note_line self.old.colour note.now)) }
        ensures fits { length (noted note.now) ≤ WIDEST }
    {
        if note.is_empty() {
            return Ok(());
        }
        self.begin(Paint::Plain)?;
        self.text.extend_from_slice(b"         ")?;
        self.put_visible(cut(note, NOTED))?;
        self.end(Paint::Plain)
    }

    fn put_visible(&mut self, text: &[u8]) -> Result<(), AllocError>
        ensures { OnOk result (Adds self.old self.new (map visible text.now)) }
    {
        for byte in text {
            self.text.push(visible(*byte))?;
        }
        Ok(())
    }

    fn begin(&mut self, paint: Paint) -> Result<(), AllocError>
        ensures { OnOk result (Adds self.old self.new (opening_of self.old.colour paint)) }
    {
        self.text.extend_from_slice(opening(self.colour, paint))?;
        Ok(())
    }

    fn end(&mut self, paint: Paint) -> Result<(), AllocError>
        ensures { OnOk result (Adds self.old self.new (closing_of self.old.colour paint)) }
    {
        self.text.extend_from_slice(closing(self.colour, paint))?;
        Ok(())
    }
}

// What a terminal is sent before a line.
fn opening(colour: bool, paint: Paint) -> &'static [u8]
    ensures { result.now ≡ opening_of colour paint }
{
    match paint {
        Paint::Title if colour => b"\x1b[1m",
        Paint::Alarm if colour => b"\x1b[31m",
        _ => b"",
    }
}

// What a terminal is sent after a line, and the line's end.
fn closing(colour: bool, paint: Paint) -> &'static [u8]
    ensures { result.now ≡ closing_of colour paint }
{
    match paint {
        Paint::Title | Paint::Alarm if colour => b"\x1b[0m\n",
        _ => b"\n",
    }
}

// The byte, where it is printable ASCII.
fn visible(byte: u8) -> u8
    ensures { result ≡ visible byte }
{
    if matches!(byte, b' '..=b'~') {
        byte
    } else {
        b'?'
    }
}
