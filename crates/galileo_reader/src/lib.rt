//! Static fault trees in Galileo text, read, and as systems of facts and events.
//!
//! A text is read to its end or refused at a place; it has one reading at most, and one answer.
#![tactic(auto)]

mod answer;
mod building;
mod bytes;
mod checks;
mod cycles;
mod dynamic;
mod front;
mod gaps;
mod laws;
mod lines;
mod nodes;
mod number;
mod reading;
mod real;
mod saying;
mod statement;
mod system;
mod token;
mod tree;
mod wide;

pub use answer::read;
pub use laws::{
    no_feedback, one_answer, one_line, one_text, read_as_before, round_trip, written_tree,
};
pub use system::to_system;
pub use tree::{Flaw, GalileoFault, NamedEvent, NamedGate, NamedTree};
