//! Loans: their columns, how they are read, and the statements on them.

ghost use Rattle.room_tables_rows.specs.LoanSql.{is_loan_row, loan_row};
ghost use Rattle.room_tables_rows.specs.KeyColumns.{text_cells};

use crate::column_groups::values_of;
use crate::column_values::{Field, Stored};
use crate::stored_rows::{Columns, StoredRow};
use room_types::callsign::Callsign;
use room_types::tables::Loan;
use sqlite::Row;

impl Stored for Loan {
    ghost cells = { loan_row };

    ghost is_row = { is_loan_row };

    fn read(row: &Row) -> Option<Loan> {
        let (callsign, (lender, (borrower, (since, (until, (recalled, ())))))) = values_of(row, 6)?;
        Some(Loan {
            callsign,
            lender,
            borrower,
            since,
            until,
            recalled,
        })
    }
}

impl StoredRow for Loan {
    ghost key_cells = { text_cells };

    fn columns(&self) -> Columns<'_> {
        Columns::of(&[
            self.callsign.store(),
            self.lender.store(),
            self.borrower.store(),
            self.since.store(),
            self.until.store(),
            self.recalled.store(),
        ])
    }

    fn key_columns(key: &Callsign) -> Columns<'_> {
        Columns::of(&[key.store()])
    }
}

pub const ALL_LOANS: &str = "SELECT * FROM loans ORDER BY callsign";

pub const LOAN_AT: &str = "SELECT * FROM loans WHERE callsign = ?1 ORDER BY callsign";

pub const PUT_LOAN: &str = "INSERT INTO loans VALUES (?1, ?2, ?3, ?4, ?5, ?6) \
    ON CONFLICT (callsign) \
    DO UPDATE SET callsign = excluded.callsign, lender = excluded.lender, \
    borrower = excluded.borrower, since = excluded.since, until = excluded.until, \
    recalled = excluded.recalled";

pub const DROP_LOAN: &str = "DELETE FROM loans WHERE callsign = ?1";
