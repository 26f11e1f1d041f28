//! The room in its tables: loads, puts and drops of rows.
//!
//! A load gives the rows that the tables stand for; a put, a drop or a settling makes one change of
//! them. Loads run on a connection, also outside a transaction; changes inside one, and so do the
//! reads of all that a file holds. What is the same for each table is said and proved once, of any
//! `Table`.
#![tactic(auto)]

pub mod area_table;
pub mod assignment_table;
pub mod call_table;
pub mod connection_lemmas;
pub mod division_table;
pub mod incident_table;
mod loaded_rows;
pub mod loan_table;
pub mod meta_table;
pub mod offer_table;
pub mod point_table;
pub mod report_table;
pub mod room_table;
pub mod row_changes;
pub mod row_streams;
pub mod rowids;
mod statement_runs;
pub mod table_loads;
pub mod terminal_table;
pub mod turn_table;
pub mod vehicle_table;
