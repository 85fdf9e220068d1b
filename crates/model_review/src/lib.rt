//! What a model leaves without effect, and where its errors stop: its review.
#![tactic(auto)]

mod ends;
mod finding;
mod flows;
mod laws;
mod lines;
mod links;
mod list;
mod reviewing;
mod sides;
mod states;
mod told;
mod view;
mod walks;

pub use finding::{Finding, TypesAt};
pub use laws::nothing_is_hidden;
pub use lines::flow_of;
pub use reviewing::{Reviewed, review};
