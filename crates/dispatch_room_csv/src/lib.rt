//! The text files of the program: the plan, the fleet, the report of a day.
#![tactic(auto)]

mod csv_records;
pub mod day_report;
mod field_faults;
pub mod fleet_file;
pub mod fleet_file_faults;
pub mod plan_file;
pub mod plan_file_faults;
mod plan_lines;
mod plan_rules;
mod row_fields;
pub mod sheets;
