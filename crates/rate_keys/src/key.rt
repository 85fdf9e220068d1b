use plain_values::{List, Name};

/// A further name by which an event is rated: the name of the event, and the names with dots between them that stand for it.
#[derive(Drop)]
pub struct RateKey {
    pub event: Name,
    pub names: List<Name>,
}
