//! Offers and loans of both ways, read and shown.
ghost use Rattle.dispatch_room_board.specs.BoardRows.{IsLoan, IsOffer};
ghost use Rattle.dispatch_room_board.specs.BoardTables.{loan_table, offer_table};

use crate::board_cells::{BoardCell, left, since};
use crate::board_pages::{Page, Paint};
use crate::cell_layout::Column;
use crate::cell_layout::Column::{Left, Right};
use crate::json_members::{FromJson, member};
use crate::table_layouts::{TableLayout, Tabled, alarm};
use room_types::numbers::Moment;
use room_types::tables::{Loan, Offer};
use serde_json::Value;
use std::alloc::{AllocError, Global};

// The columns of offers and of loans.
const LENT: [Column; 6] = [Left(8), Right(4), Right(4), Left(8), Right(10), Right(8)];

impl FromJson for Offer {
    ghost says = { IsOffer };

    fn from_json(value: &Value) -> Option<Offer> {
        let members = member(value, "vehicle")
            .zip(member(value, "lender"))
            .zip(member(value, "borrower"))
            .zip(member(value, "since"))
            .zip(member(value, "until"));
        match members {
            Some(((((callsign, lender), borrower), since), until)) => Some(Offer {
                callsign,
                lender,
                borrower,
                since,
                until,
            }),
            None => None,
        }
    }
}

impl Tabled for Offer {
    ghost table = { offer_table };

    fn layout() -> TableLayout {
        TableLayout {
            name: "offers",
            title: "Offers",
            titles: " vehicle  from   to recalled        age min left",
            columns: &LENT,
        }
    }

    fn put(&self, alloc: Global, now: Moment, page: &mut Page) -> Result<(), AllocError> {
        let cells = [
            BoardCell::Text(self.callsign.as_str()),
            BoardCell::Number(u64::from(self.lender.get())),
            BoardCell::Number(u64::from(self.borrower.get())),
            BoardCell::Text("-"),
            since(self.since, now),
            left(self.until, now),
        ];
        page.put_row(alloc, Paint::Plain, &LENT, &cells)
    }
}

impl FromJson for Loan {
    ghost says = { IsLoan };

    fn from_json(value: &Value) -> Option<Loan> {
        let members = member(value, "vehicle")
            .zip(member(value, "lender"))
            .zip(member(value, "borrower"))
            .zip(member(value, "since"))
            .zip(member(value, "until"))
            .zip(member(value, "recalled"));
        match members {
            Some((((((callsign, lender), borrower), since), until), recalled)) => Some(Loan {
                callsign,
                lender,
                borrower,
                since,
                until,
                recalled,
            }),
            None => None,
        }
    }
}

impl Tabled for Loan {
    ghost table = { loan_table };

    fn layout() -> TableLayout {
        TableLayout {
            name: "loans",
            title: "Loans",
            titles: " vehicle  from   to recalled        age min left",
            columns: &LENT,
        }
    }

    fn put(&self, alloc: Global, now: Moment, page: &mut Page) -> Result<(), AllocError> {
        let recalled = if self.recalled { "recalled" } else { "-" };
        let cells = [
            BoardCell::Text(self.callsign.as_str()),
            BoardCell::Number(u64::from(self.lender.get())),
            BoardCell::Number(u64::from(self.borrower.get())),
            BoardCell::Text(recalled),
            since(self.since, now),
            left(self.until, now),
        ];
        let over = self.until.get() <= now.get();
        page.put_row(alloc, alarm(over), &LENT, &cells)
    }
}
