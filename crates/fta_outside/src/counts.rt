/// What is counted of a family of sets, where the events have the numbers from 0 on. A count stops at 2 ^ 64 - 1.
#[derive(Drop)]
pub struct FamilyCounts {
    /// How many sets have so many events, from none to all.
    pub orders: Vec<u64>,
    /// How many sets have each event.
    pub uses: Vec<u64>,
    /// Whether each event alone is one of the sets.
    pub singles: Vec<bool>,
}
