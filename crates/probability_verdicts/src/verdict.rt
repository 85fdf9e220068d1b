use plain_values::Name;

/// What is said of a requirement over a probability.
#[derive(Drop)]
pub enum ProbabilityVerdict {
    /// It is met: the upper bound of the probability is at most the number.
    Met,
    /// Its target never holds, so nothing is shown by it.
    Vacuous,
    /// Its target holds without any event.
    Anyway,
    /// The upper bound, which has this text, is above the number. This is the first event on which the target depends that has no
    /// probability, if there is one; it is taken as one that always occurs.
    Above(Name, Option<u32>),
    /// No bounds are found, since more cases come up than are looked at.
    Large,
}
