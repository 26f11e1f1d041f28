//! The board of a desk: what it asks a served room for, how the answers are read, and how they are
//! laid out in lines of at most 80 columns. It only reads.
#![tactic(auto)]

mod answer_contents;
mod answer_rows;
mod board_cells;
mod board_errors;
pub mod board_pages;
pub mod boards;
mod call_columns;
mod cell_layout;
mod cell_texts;
pub mod exchange;
mod heard_answers;
mod history_lines;
mod incident_columns;
mod json_members;
mod loan_columns;
mod point_columns;
mod proposal_columns;
mod queue_columns;
mod renderer;
mod report_lines;
pub mod requests;
mod summary_columns;
mod table_layouts;
pub mod told_reports;
mod turn_columns;
mod vehicle_columns;
