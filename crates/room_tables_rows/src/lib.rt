//! Only the prover needs this to be a crate of its own.
//! The rows of each table: their columns, how they are read, and the texts of the statements on
//! them.
//!
//! Nothing is run here. What a text means is computed in `proofs/`, one file a table, under the
//! schema that room_tables_schema writes out.
#![tactic(auto)]

pub mod area_sql;
pub mod assignment_sql;
pub mod call_sql;
mod column_groups;
pub mod column_values;
pub mod division_sql;
pub mod incident_sql;
pub mod laws;
pub mod loan_sql;
pub mod meta_sql;
pub mod offer_sql;
pub mod point_sql;
pub mod report_sql;
pub mod stored_rows;
pub mod terminal_sql;
pub mod turn_sql;
pub mod vehicle_sql;
