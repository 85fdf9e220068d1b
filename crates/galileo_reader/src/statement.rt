//! What the lines of a Galileo text say.

use plain_values::{List, Name};
use property_reader::Rate;
use round_gates::GateKind;

/// A name, without its quotes, and the place of its first quote, from 0.
#[derive(Drop)]
pub(crate) struct PlacedName {
    pub at: u32,
    pub name: Name,
}

/// What a line says.
#[derive(Drop)]
pub(crate) enum Statement {
    /// The place of the line, and the name of the top.
    Top(u32, PlacedName),
    /// A gate, its kind, how many inputs the line says that it has, where it says so, and the names of its inputs.
    Gate(PlacedName, GateKind, Option<u32>, List<PlacedName>),
    /// A basic event and its rate.
    Event(PlacedName, Rate),
}
