/// An item of the error types of a library: the number of the package, in the order of the files and of the text, and the
/// place of the item among all items of its blocks. Both begin at 0.
#[derive(Clone, Copy, PartialEq, Eq)]
pub struct ItemId {
    pub package: u32,
    pub item: u32,
}

/// What a search for a name of an error type has found.
#[derive(Clone, Copy)]
pub(crate) enum Looked {
    /// The item of that name.
    Found(ItemId),
    /// No library that was searched has an item of that name.
    Nowhere,
    /// The search came back to a library that was still being searched.
    Circular,
}
