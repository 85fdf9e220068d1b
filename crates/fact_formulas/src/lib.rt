//! What makes a fact of a model hold, as a formula: the definitions, and which facts are of the root; a model with its facts and events in
//! order.
#![tactic(auto)]

mod numbered;
mod root;
mod sides;

pub use numbered::NumberedModel;
pub use root::is_of_root;
pub use sides::fact_at;
