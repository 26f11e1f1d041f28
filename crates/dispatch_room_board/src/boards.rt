//! The board: the tables of what was heard, and how much of it could be reached.
ghost use Rattle.std.specs.Prelude.{◌≡◌, ℕ, Bool, IfOk, List, OnOk};
ghost use Rattle.dispatch_room_board.specs.Boards.{IsBoard, IsEmpty, reached_with};

use crate::board_errors::BoardError;
use crate::board_pages::Page;
use crate::renderer::Renderer;
use room_types::answers::{IncidentLine, PointLine, VehicleLine};
use room_types::tables::{Loan, Offer};
use std::alloc::{AllocError, Global};

/// How much of a board could be reached: the worst of its parts.
#[derive(Clone, Copy)]
pub enum Reached {
    /// All of it.
    All,
    /// All but what the room refused.
    AllButRefused,
    /// Not all: an answer was missing, or was none of a room.
    Less,
}

impl Reached {
    /// What is reached where this error is met too.
    pub(crate) fn with(self, board_error: &BoardError) -> Reached
        ensures { result ≡ reached_with self board_error.now }
    {
        match (self, board_error) {
            (Reached::Less, _) | (_, BoardError::Unheard | BoardError::Foreign) => Reached::Less,
            (_, BoardError::Refused(_, _)) => Reached::AllButRefused,
        }
    }
}

/// A board: its lines, and how much could be reached.
#[derive(Drop)]
pub struct Board {
    pub page: Page,
    pub reached: Reached,
}

/// The board of what was heard after the requests of a desk, with an incident where one was named,
/// and of what was told after those for the reports of its vehicles.
pub fn board_of(
    alloc: Global,
    heard: &[u8],
    told: &[u8],
    named: bool,
    colour: bool,
) -> Result<Board, AllocError>
    ensures { IfOk result (IsBoard heard.now told.now named colour) }
{
    let mut renderer = Renderer::new(alloc, heard, colour);
    put_all(&mut renderer, told, named)?;
    Ok(renderer.board())
}

// Adds all of a board where none of it stands yet.
fn put_all(renderer: &mut Renderer<'_>, told: &[u8], named: bool) -> Result<(), AllocError>
    ensures { OnOk result ((heard : List ℕ) (colour : Bool) → IsEmpty heard colour renderer.old
        → IsBoard heard told.now named colour
        (record { page = renderer.new.page; reached = renderer.new.reached })) }
{
    renderer.put_moment()?;
    renderer.put_queue(told)?;
    renderer.put_table::<IncidentLine>()?;
    renderer.put_incident(named)?;
    renderer.put_table::<VehicleLine>()?;
    renderer.put_table::<PointLine>()?;
    renderer.put_table::<Offer>()?;
    renderer.put_table::<Loan>()
}
