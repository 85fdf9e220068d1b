//! Of which kind each event of a model is, and where its declaration stands; where sides and states are declared.
#![tactic(auto)]

mod declaration;
mod kinds;
mod laws;
mod origin;
mod origins;
mod places;
mod table;

pub use laws::each_event_is_placed;
pub use origin::{EventOrigin, OriginKind};
pub use origins::origins_of;
pub use places::ModelPlaces;
