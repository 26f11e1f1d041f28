//! The columns of a table, and what stands in each.
ghost use Rattle.std.specs.Prelude.{◌≡◌, ◌++◌, drop, map, take, replicate, OnOk};
ghost use Rattle.dispatch_room_board.specs.BoardCells.{text_of};
ghost use Rattle.dispatch_room_board.specs.CellLayout.{in_column, row_of};

use crate::board_cells::BoardCell;
use crate::cell_texts::text_of;
use std::alloc::{AllocError, Global};

/// A column of a table: on which side of it a text stands, and how many places it has. A longer
/// text is cut.
#[derive(Clone, Copy)]
pub enum Column {
    Left(usize),
    Right(usize),
}

/// Adds the cells of a row, each in its column.
pub fn put_cells(
    alloc: Global,
    line: &mut Vec<u8>,
    columns: &[Column],
    cells: &[BoardCell<'_>],
) -> Result<(), AllocError>
    ensures { OnOk result (line.new.items ≡ line.old.items ++
        row_of columns.now (map text_of cells.now)) }
{
    let (Some((column, columns)), Some((cell, cells))) = (
        columns.split_first(),
        cells.split_first(),
    ) else {
        return Ok(());
    };
    let text = text_of(alloc, cell)?;
    put_cell(line, column, text.as_bytes())?;
    put_cells(alloc, line, columns, cells)
}

/// The first bytes of a text.
pub fn cut(text: &[u8], most: usize) -> &[u8]
    ensures { result.now ≡ take most text.now }
{
    &text[..text.len().min(most)]
}

/// The bytes of a text behind those.
#[tactic(auto, using(std::proofs::lemmas::List::drop_min))]
pub fn rest(text: &[u8], most: usize) -> &[u8]
    ensures { result.now ≡ drop most text.now }
{
    &text[most.min(text.len())..]
}

// Adds a space, and a text in its column.
#[tactic(auto, unfolding(crate::specs::CellLayout::in_column))]
fn put_cell(line: &mut Vec<u8>, column: &Column, text: &[u8]) -> Result<(), AllocError>
    ensures { OnOk result (line.new.items ≡ line.old.items ++ in_column column.now text.now) }
{
    line.push(b' ')?;
    match *column {
        Column::Left(places) => {
            let shown = cut(text, places);
            line.extend_from_slice(shown)?;
            put_spaces(line, places - shown.len())
        }
        Column::Right(places) => {
            let shown = cut(text, places);
            put_spaces(line, places - shown.len())?;
            line.extend_from_slice(shown)?;
            Ok(())
        }
    }
}

fn put_spaces(line: &mut Vec<u8>, count: usize) -> Result<(), AllocError>
    ensures { OnOk result (line.new.items ≡ line.old.items ++ replicate count 32) }
{
    'spaces: for _put in 0..count {
        line.push(b' ')?;
    }
    Ok(())
}
