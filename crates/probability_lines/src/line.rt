//! The lines that tell of a probability.

use decimals::Decimal;
use event_probabilities::Found;
use plain_values::Name;
use probabilities::{Bounds, Importance};

/// A line.
#[derive(Drop)]
pub enum Line {
    /// The hours, as they are given.
    Hours(Name),
    /// An event that has no probability, by its name, and why.
    Unrated(Name, Found),
    /// The bounds are by the sets of at most so many events.
    ByOrder(u32),
    /// No bounds are found: the bounds 0 and 1.
    Large,
    /// The lower bound.
    AtLeast(Decimal),
    /// The upper bound.
    AtMost(Decimal),
    /// The bounds where an event, by its name, never occurs, and where it always does.
    Event(Name, Bounds, Bounds),
    /// The end.
    End,
}

/// The importance of an event, by its number.
#[derive(Clone, Copy)]
pub struct EventImportance {
    pub event: u32,
    pub both: Importance,
}
