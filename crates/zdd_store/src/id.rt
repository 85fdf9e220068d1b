/// A number of the store, which stands for a family of sets: the position of its node.
#[derive(Clone, Copy, Debug, PartialEq, Eq, Hash)]
pub struct Id {
    pub position: u32,
}

impl Id {
    /// Stands for no set.
    pub const EMPTY: Id = Id { position: 0 };

    /// Stands for the empty set alone.
    pub const UNIT: Id = Id { position: 1 };
}

/// A node of a zero-suppressed decision diagram: it stands for the sets of `lo` and, with `var` added, those of `hi`.
#[derive(Clone, Copy, Debug, PartialEq, Eq, Hash)]
pub struct Node {
    pub var: u32,
    pub lo: Id,
    pub hi: Id,
}
