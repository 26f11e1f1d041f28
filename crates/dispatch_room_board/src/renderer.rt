//! A board that is being made.
ghost use Rattle.std.specs.Prelude.{◌≡◌};
ghost use Rattle.httpdate.specs.Date.{unix_secs};
ghost use Rattle.dispatch_room_board.specs.Boards.{IsHeardAt};
ghost use Rattle.dispatch_room_board.specs.Members.{IsRead};

use crate::answer_contents::{Found, FromAnswer, next_in};
use crate::board_errors::{BoardError, error_text};
use crate::board_pages::{Page, Paint};
use crate::boards::{Board, Reached};
use crate::heard_answers::first_message;
use crate::history_lines::{History, put_history};
use crate::queue_columns::QueueLine;
use crate::table_layouts::{Tabled, put_rows};
use crate::told_reports::{reports_told, vehicles_in, with_reports};
use httpdate::HttpDate;
use room_types::answers::{Listed, Proposal};
use room_types::numbers::Moment;
use std::alloc::{AllocError, Global};

/// A board that is being made: what is still to be read of what was heard, and the lines so far.
#[derive(Drop)]
pub struct Renderer<'a> {
    alloc: Global,
    rest: &'a [u8],
    page: Page,
    reached: Reached,
}

impl<'a> Renderer<'a> {
    ghost use Rattle.std.specs.Prelude.{◌≡◌, [], IfOk, List, OnOk, map};
    ghost use Rattle.dispatch_room_board.specs.AnswerRows.{IsFound};
    ghost use Rattle.dispatch_room_board.specs.Boards.{IsHead, IsPart, IsQueue, IsShown};
    ghost use Rattle.dispatch_room_board.specs.Boards.{ShowsNamed, reached_with, board_error_lines};
    ghost use Rattle.dispatch_room_board.specs.BoardTables.{queue_table, table_lines};
    ghost use Rattle.dispatch_room_board.specs.ToldReports.{AreTold, vehicles_in, with_report};
    ghost use Rattle.dispatch_room_board.specs.declared.told_reports.ToldReport.{ToldReport};
    ghost use Rattle.dispatch_room_board.specs.Histories.{IsHistory, history_lines, history_title};
    ghost use Rattle.dispatch_room_board.specs.Pages.{Adds};
    ghost use Rattle.dispatch_room_board.specs.declared.boards.Reached.TheVariants.{All};

    /// A renderer of a board without lines.
    pub fn new(alloc: Global, heard: &'a [u8], colour: bool) -> Renderer<'a>
        ensures rest { result.rest.now ≡ heard.now }
        ensures page { (result.page.text.items ≡ []) × (result.page.colour ≡ colour) }
        ensures reached { result.reached ≡ All }
    {
        Renderer {
            alloc,
            rest: heard,
            page: Page::new(alloc, colour),
            reached: Reached::All,
        }
    }

    /// The board.
    pub fn board(self) -> Board
        ensures { result ≡ record { page = self.entry.page; reached = self.entry.reached } }
    {
        Board {
            page: self.page,
            reached: self.reached,
        }
    }

    /// Adds when the board was asked for, by the room's own clock.
    pub fn put_moment(&mut self) -> Result<(), AllocError>
        ensures { OnOk result (IsHead self.old self.new) }
    {
        let Some(moment) = moment_of(self.rest) else {
            return self
                .page
                .put_line(Paint::Alarm, "Room at no moment: nothing was heard");
        };
        let date = date_of(moment);
        let line = format!(in self.alloc; "Room at {date}")?;
        self.page.put_line(Paint::Plain, line.as_str())
    }

    /// Adds the queue by the next answer, or why it is not there: each exception with its report,
    /// where that is told.
    pub fn put_queue(&mut self, told: &[u8]) -> Result<(), AllocError>
        ensures { OnOk result (IsQueue told.now self.old self.new) }
    {
        match self.next::<Listed<QueueLine>>()? {
            Ok((lines, now)) => self.put_lines(lines.as_slice(), told, now),
            Err(board_error) => self.put_board_error("Queue", board_error),
        }
    }

    // Adds the lines of the queue with what is told of reports.
    fn put_lines(&mut self, lines: &[QueueLine], told: &[u8], now: Moment) -> Result<(), AllocError>
        ensures shown { OnOk result ((reports : List ToldReport)
            × AreTold (vehicles_in lines.now) told.now reports
            × Adds self.old.page self.new.page (table_lines queue_table self.old.page.colour now
            (map (with_report reports) lines.now))) }
        ensures rest { (self.new.rest ≡ self.old.rest) × (self.new.reached ≡ self.old.reached) }
    {
        let vehicles = vehicles_in(self.alloc, lines)?;
        let reports = reports_told(self.alloc, told, vehicles.as_slice())?;
        let shown = with_reports(self.alloc, lines, reports.as_slice())?;
        put_rows(self.alloc, &mut self.page, &shown, now)
    }

    /// Adds what came of an incident and whom to send to it, where one was named.
    pub fn put_incident(&mut self, named: bool) -> Result<(), AllocError>
        ensures { OnOk result (ShowsNamed named self.old self.new) }
    {
        if named {
            self.put_history()?;
            return self.put_table::<Proposal>();
        }
        Ok(())
    }

    // Adds what came of an incident by the next answer, or why it is not there.
    fn put_history(&mut self) -> Result<(), AllocError>
        ensures { OnOk result (IsPart IsHistory history_title history_lines self.old self.new) }
    {
        match self.next::<History>()? {
            Ok((history, now)) => put_history(self.alloc, &mut self.page, &history, now),
            Err(board_error) => self.put_board_error("Incident", board_error),
        }
    }

    /// Adds a table: the rows of the next answer, or why they are not there.
    pub fn put_table<T: Tabled>(&mut self) -> Result<(), AllocError>
        ensures { OnOk result (IsShown T.says T.table self.old self.new) }
    {
        match self.next::<Listed<T>>()? {
            Ok((rows, now)) => put_rows(self.alloc, &mut self.page, &rows, now),
            Err(board_error) => self.put_board_error(T::layout().title, board_error),
        }
    }

    fn put_board_error(&mut self, title: &str, board_error: BoardError) -> Result<(), AllocError>
        ensures page { OnOk result (Adds self.old.page self.new.page
            (board_error_lines self.old.page.colour title.now board_error)) }
        ensures reached { self.new.reached ≡ reached_with self.old.reached board_error }
        ensures rest { self.new.rest ≡ self.old.rest }
    {
        self.reached = self.reached.with(&board_error);
        let line = error_text(self.alloc, title, &board_error)?;
        self.page.put_spaced(Paint::Alarm, line.as_str())
    }

    // What the next answer gives.
    fn next<G: FromAnswer>(&mut self) -> Result<Found<G>, AllocError>
        ensures found { IfOk result (IsFound G.gives self.old.rest.now self.new.rest.now) }
        ensures page { (self.new.page ≡ self.old.page) × (self.new.reached ≡ self.old.reached) }
    {
        let (found, rest) = next_in(self.alloc, self.rest)?;
        self.rest = rest;
        Ok(found)
    }
}

// The moment of the first answer; none where there is none, or it gives no moment.
fn moment_of(heard: &[u8]) -> Option<Moment>
    ensures { IsRead (IsHeardAt heard.now) result }
{
    match first_message(heard) {
        Ok((message, _)) => message.moment,
        Err(_) => None,
    }
}

// The date of a moment.
fn date_of(moment: Moment) -> HttpDate
    ensures { unix_secs result ≡ moment }
{
    HttpDate::from_unix_secs(u64::from(moment.get())).unwrap()
}
