//! Whether an event has a probability.

/// Whether an event has a probability.
#[derive(Clone, Copy)]
pub enum Found {
    /// It has one.
    Rated,
    /// It has no rate.
    WithoutRate,
    /// It has a failure rate, and no hours are given.
    WithoutHours,
    /// Its number is none that is read, or is no probability.
    NoProbability,
}
