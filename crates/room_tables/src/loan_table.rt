//! Loans in their table.

ghost use Rattle.room_types.specs.declared.changes.Change.TheVariants as change;
ghost use Rattle.room_tables_schema.specs.Schema.{loans_table};
ghost use Rattle.room_tables_rows.specs.declared.loan_sql.TheConstants.{ALL_LOANS, LOAN_AT};
ghost use Rattle.room_tables_rows.specs.declared.loan_sql.TheConstants.{PUT_LOAN};
ghost use Rattle.room_tables_rows.proofs.LoansTable.{loans_are};

use crate::room_table::{Statements, Table};
use room_tables_rows::loan_sql::{ALL_LOANS, LOAN_AT, PUT_LOAN};
use room_types::tables::Loan;

impl Table for Loan {
    ghost table = { loans_table };

    ghost rows = { λ room. room.loans };

    ghost put = { change.PutLoan };

    ghost texts = { record { all = ALL_LOANS.now; at = LOAN_AT.now; put = PUT_LOAN.now } };

    ghost is_table = { loans_are };

    fn statements() -> Statements {
        Statements {
            all: ALL_LOANS,
            at: LOAN_AT,
            put: PUT_LOAN,
        }
    }
}
