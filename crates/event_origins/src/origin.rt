use plain_values::Spot;

/// Of which kind an event is.
#[derive(Clone, Copy, PartialEq, Eq)]
pub enum OriginKind {
    /// An error event of a component.
    Error,
    /// An error source that names no state.
    Source,
    /// That an error arrives from outside of the model.
    External,
}

/// Of which kind an event is, and where its declaration stands: the name of an error event, that of a source, or the point of an
/// inward propagation.
#[derive(Clone, Copy, PartialEq, Eq)]
pub struct EventOrigin {
    pub kind: OriginKind,
    pub spot: Option<Spot>,
}
