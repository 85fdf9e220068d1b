use plain_values::List;

/// What is said of a requirement. Sets are rising lists of the numbers of error events.
#[derive(Drop)]
pub enum Verdict {
    /// It is met.
    Met,
    /// Its target never holds, so nothing is shown by it.
    Vacuous,
    /// This is the first minimal cut set, in listing order, that breaks it.
    Broken(List<u32>),
    /// No set breaks it, and this is its first exception that is no minimal cut set of fewer events than it says.
    Stale(List<u32>),
}
