//! Which tables a room's file has: how they are made, and how a file is tested for them; and what
//! SQL makes of a table that stands for a list of rows in key order: laws over any table's columns.
//!
//! A crate of tables uses the laws so:
//!
//! 1. It writes its schema out, and for each table the places of its columns in a row of the tree,
//!    those of the key first. Place 0 is the rowid; a column that is the rowid is read there.
//! 2. For each type of rows it writes `row : X → Row` and proves `IsFaithful`: a row is read back
//!    as it was written, and SQL's order is that of the keys. `Holds places key (trees t) (map row
//!    xs)` then says that a tree stands for a list.
//! 3. For each text it has a `Selects`, `Upserts`, `Overwrites`, `Deletes`, `Creates` or
//!    `Indexes`, whose facts are `refl`; for each table a `StandsApart`; for the rows of an upsert
//!    `stores_row` or `stores_rowid`, and for those of an update `covers_row`.
//! 4. `specs/Laws` says what such a statement makes of the list; the functions of `laws` promise
//!    it.
//! 5. Loads run by `select`, or by `select_inside` within a `Transaction`, whose clauses say that
//!    no outcome changes anything. Puts and drops run by `write`, whose clauses say what an error
//!    and a stop leave.
//! 6. After an open, `stands_for_read` and `numbers_read` take what was read and tested to `Holds`.
#![tactic(auto)]

pub mod database_faults;
mod forms;
pub mod laws;
pub mod queries;
pub mod query_streams;
mod schema_sql;
mod schema_tables;
pub mod schema_tests;
pub mod statements;
pub mod table_creation;
