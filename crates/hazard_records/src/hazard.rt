ghost use Rattle.std.specs.Prelude.{◌≡◌};
ghost use Rattle.hazard_records.specs.Hazards.{is_unused};

use plain_values::{List, Name, Spot};

/// A hazard that a model states: the number of the component whose clauses or whose machine have it, the target of which it is said, as it is written, and
/// the numbers of the facts and of the events that this means. The texts are as the model has them, and empty where it has none; the spot is that of the
/// association.
#[derive(Drop)]
pub struct Hazard {
    pub component: u32,
    pub target: Name,
    pub facts: List<u32>,
    pub events: List<u32>,
    pub failure: Name,
    pub severity: Name,
    pub likelihood: Name,
    pub phases: Name,
    pub cross_reference: Name,
    pub description: Name,
    pub spot: Spot,
}

impl Hazard {
    /// Whether it is said of nothing in the model: neither a fact nor an event.
    pub fn is_unused(&self) -> bool
        ensures { result ≡ is_unused self.now }
    {
        self.facts.items().is_empty() && self.events.items().is_empty()
    }
}
