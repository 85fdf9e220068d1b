use plain_values::List;

/// One step: a fact, with the events and the earlier steps that make its formula true. The order of the events and of
/// the uses says nothing.
#[derive(Drop)]
pub struct Firing {
    /// The number of the fact in its system.
    pub fact: u32,
    /// The numbers of events.
    pub events: List<u32>,
    /// The numbers of steps.
    pub uses: List<u32>,
}

/// The steps, each named by its place, from 0.
#[derive(Drop)]
pub struct Derivation {
    pub steps: List<Firing>,
}

/// What a check of a derivation finds.
#[derive(Clone, Copy)]
pub enum Finding {
    /// Each step is right, and the last one is of the target.
    Good,
    /// The number of the first step that is not right.
    Wrong(u32),
    /// Each step is right, but there is none, or the last one is not of the target.
    WrongEnd,
}
