use crate::identifier::Identifier;
use plain_values::{List, Spot};

/// A name that refers to something declared: identifiers with `::` between them, and perhaps one more after a dot.
/// The spot is that of the first of them.
#[derive(Drop)]
pub struct Ref {
    pub names: List<Identifier>,
    pub item: Option<Identifier>,
    pub spot: Spot,
}

/// An end of a connection or of a path: names with dots between them. The spot is that of the first.
#[derive(Drop)]
pub struct End {
    pub names: List<Identifier>,
    pub spot: Spot,
}
