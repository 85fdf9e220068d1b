/// A row of an FMEA table: an event, an effect that it reaches alone, and in which round.
#[derive(Clone, Copy)]
pub struct Row {
    /// The number of the event.
    pub event: u32,
    /// The number of the effect, a fact.
    pub effect: u32,
    /// The round in which the effect comes to hold under the event alone: the least number of times after which it
    /// holds if all formulas are applied at once so often, from no fact.
    pub round: u32,
}
