use plain_values::{Name, Spot};

/// A line of a review, without its end, and where that stands which it names.
#[derive(Drop)]
pub struct ReviewLine {
    pub text: Name,
    pub spot: Option<Spot>,
}
