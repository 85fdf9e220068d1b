//! The tool from the bytes of its words and files to the bytes that it writes.
#![tactic(auto)]

mod answering;
mod command;
mod compared;
mod confirmed;
mod few;
mod fmea;
mod forms;
mod held;
mod input;
mod laws;
mod line;
mod made;
mod manifest;
mod model;
mod ready;
mod refused;
mod required;
mod sets;
mod targets;
mod text;
mod words;

pub use command::{run, write_status};
pub use few::{model_read, units_read};
pub use held::{ReadFiles, read_first, run_held, run_read};
pub use laws::{confirms_why, holds_where_confirmed, one_due, one_output};
pub use line::write_line;
pub use phases::Status;
