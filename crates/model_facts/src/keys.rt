/// What a fact is in its component. States and points are named by their places in their lists, types by their numbers; all
/// begin at 0.
#[derive(Clone, Copy, PartialEq, Eq, Hash)]
pub enum FactKind {
    /// The component is in this state.
    State(u32),
    /// At this point a type enters: the point, and the type.
    Enters(u32, u32),
    /// At this point a type exits: the point, and the type.
    Exits(u32, u32),
}

/// A fact of a model: the number of its component, from 0, and what it is there.
#[derive(Clone, Copy, PartialEq, Eq, Hash)]
pub struct FactKey {
    pub owner: u32,
    pub kind: FactKind,
}

/// What an event is in its component. All numbers begin at 0.
#[derive(Clone, Copy, PartialEq, Eq, Hash)]
pub enum EventKind {
    /// The error event of this number.
    Declared(u32),
    /// The error source that has this place among the flows, and names no state.
    Source(u32),
    /// At this point a type arrives from outside of the model: the point, and the type.
    Arrival(u32, u32),
}

/// An event of a model: the number of its component, from 0, and what it is there.
#[derive(Clone, Copy, PartialEq, Eq, Hash)]
pub struct EventKey {
    pub owner: u32,
    pub kind: EventKind,
}
