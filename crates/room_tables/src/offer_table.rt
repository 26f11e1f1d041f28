//! Offers in their table.

ghost use Rattle.room_types.specs.declared.changes.Change.TheVariants as change;
ghost use Rattle.room_tables_schema.specs.Schema.{offers_table};
ghost use Rattle.room_tables_rows.specs.declared.offer_sql.TheConstants.{ALL_OFFERS, OFFER_AT};
ghost use Rattle.room_tables_rows.specs.declared.offer_sql.TheConstants.{PUT_OFFER};
ghost use Rattle.room_tables_rows.proofs.OffersTable.{offers_are};

use crate::room_table::{Statements, Table};
use room_tables_rows::offer_sql::{ALL_OFFERS, OFFER_AT, PUT_OFFER};
use room_types::tables::Offer;

impl Table for Offer {
    ghost table = { offers_table };

    ghost rows = { λ room. room.offers };

    ghost put = { change.PutOffer };

    ghost texts = { record { all = ALL_OFFERS.now; at = OFFER_AT.now; put = PUT_OFFER.now } };

    ghost is_table = { offers_are };

    fn statements() -> Statements {
        Statements {
            all: ALL_OFFERS,
            at: OFFER_AT,
            put: PUT_OFFER,
        }
    }
}
