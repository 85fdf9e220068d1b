//! The lines that tell of the probability of a target: the hours, the events that have no probability, the bounds, and with the
//! importance of events those where each of them never occurs and where it always does.
#![tactic(auto)]

mod gathered;
mod line;
mod pushed;

pub use gathered::lines_of;
pub use line::{EventImportance, Line};
pub use pushed::text_of;
