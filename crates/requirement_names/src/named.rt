use plain_values::List;
use requirements::PlacedWord;

/// What a requirement says of the sets of error events that make its target hold, where E is any set of error events. Events are numbers
/// of the model's, and sets of them rise.
#[derive(Drop)]
pub enum SetSentence {
    /// It holds under some E, and under no E of fewer events than this that contains none of these sets.
    Order(u32, List<List<u32>>),
    /// It holds under some E, and under no E, of at most so many events, that lies in this set.
    Mixed(List<u32>, Option<u32>),
    /// It holds under some E without this event, and no minimal set has it.
    Without(u32),
    /// It holds under some E, and not under none.
    Possible,
    /// It holds under no E.
    Never,
}

/// What a requirement says of its target.
#[derive(Drop)]
pub enum NamedSentence {
    /// This, of the sets of error events that make it hold.
    OfSets(SetSentence),
    /// Its probability is at most this number, in so many hours; neither is read yet.
    Probability(PlacedWord, PlacedWord),
}

/// What is required of the fact of a number, and the name of the requirement.
#[derive(Drop)]
pub struct NamedRequirement {
    pub name: PlacedWord,
    pub target: u32,
    pub sentence: NamedSentence,
}
