use zdd_store::Id;

/// The minimal cut sets of a target that were found.
#[derive(Clone, Copy)]
pub struct FoundFamily {
    /// The number of the target.
    pub target: u32,
    /// The greatest order for which they were asked, if one was given.
    pub most: Option<u32>,
    /// The number of the family in the store.
    pub id: Id,
}
