use fault_system::Bits;
use plain_values::List;

/// The greatest number of facts of a slice.
pub(crate) const MOST_SLICE_FACTS: u32 = 32_768;

/// The greatest number of events of a slice.
pub(crate) const MOST_SLICE_EVENTS: u32 = 1_024;

/// Facts and events of a system, as sets: those on which some facts depend.
#[derive(Drop)]
pub struct Reach {
    pub facts: Bits,
    pub events: Bits,
}

/// The slice of a target: the numbers of all facts and events on which it depends, itself among them, rising.
#[derive(Drop)]
pub struct Slice {
    pub target: u32,
    pub facts: List<u32>,
    pub events: List<u32>,
}
