//! Tables of failure modes and effects: for each event the effects that it reaches alone, with its rate, and the table as
//! comma-separated values.
#![tactic(auto)]

mod change;
mod columns;
mod distances;
mod fields;
mod kept;
mod laws;
mod passing;
mod places;
mod row;
mod table;
mod table_lines;
mod testing;
mod told;
mod truth;

pub use laws::{computed_rows, one_table, reads_back};
pub use row::Row;
pub use table::rows;
pub use table_lines::TableLines;
