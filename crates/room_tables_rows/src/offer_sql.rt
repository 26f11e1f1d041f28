//! Offers: their columns, how they are read, and the statements on them.

ghost use Rattle.room_tables_rows.specs.OfferSql.{is_offer_row, offer_row};
ghost use Rattle.room_tables_rows.specs.KeyColumns.{text_cells};

use crate::column_groups::values_of;
use crate::column_values::{Field, Stored};
use crate::stored_rows::{Columns, StoredRow};
use room_types::callsign::Callsign;
use room_types::tables::Offer;
use sqlite::Row;

impl Stored for Offer {
    ghost cells = { offer_row };

    ghost is_row = { is_offer_row };

    fn read(row: &Row) -> Option<Offer> {
        let (callsign, (lender, (borrower, (since, (until, ()))))) = values_of(row, 5)?;
        Some(Offer {
            callsign,
            lender,
            borrower,
            since,
            until,
        })
    }
}

impl StoredRow for Offer {
    ghost key_cells = { text_cells };

    fn columns(&self) -> Columns<'_> {
        Columns::of(&[
            self.callsign.store(),
            self.lender.store(),
            self.borrower.store(),
            self.since.store(),
            self.until.store(),
        ])
    }

    fn key_columns(key: &Callsign) -> Columns<'_> {
        Columns::of(&[key.store()])
    }
}

pub const ALL_OFFERS: &str = "SELECT * FROM offers ORDER BY callsign";

pub const OFFER_AT: &str = "SELECT * FROM offers WHERE callsign = ?1 ORDER BY callsign";

pub const PUT_OFFER: &str = "INSERT INTO offers VALUES (?1, ?2, ?3, ?4, ?5) ON CONFLICT (callsign) \
    DO UPDATE SET callsign = excluded.callsign, lender = excluded.lender, \
    borrower = excluded.borrower, since = excluded.since, until = excluded.until";

pub const DROP_OFFER: &str = "DELETE FROM offers WHERE callsign = ?1";
