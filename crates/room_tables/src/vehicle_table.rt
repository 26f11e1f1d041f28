//! Vehicles in their table.

ghost use Rattle.room_types.specs.declared.changes.Change.TheVariants as change;
ghost use Rattle.room_tables_schema.specs.Schema.{vehicles_table};
ghost use Rattle.room_tables_rows.specs.declared.vehicle_sql.TheConstants.{ALL_VEHICLES};
ghost use Rattle.room_tables_rows.specs.declared.vehicle_sql.TheConstants.{PUT_VEHICLE, VEHICLE_AT};
ghost use Rattle.room_tables_rows.proofs.VehiclesTable.{vehicles_are};

use crate::room_table::{Statements, Table};
use room_tables_rows::vehicle_sql::{ALL_VEHICLES, PUT_VEHICLE, VEHICLE_AT};
use room_types::tables::Vehicle;

impl Table for Vehicle {
    ghost table = { vehicles_table };

    ghost rows = { λ room. room.vehicles };

    ghost put = { change.PutVehicle };

    ghost texts = { record { all = ALL_VEHICLES.now; at = VEHICLE_AT.now; put = PUT_VEHICLE.now } };

    ghost is_table = { vehicles_are };

    fn statements() -> Statements {
        Statements {
            all: ALL_VEHICLES,
            at: VEHICLE_AT,
            put: PUT_VEHICLE,
        }
    }
}
