//! What is said of one part of a component and not of another one like it: sides that lead to two sides of one part, and states of parts that
//! do not occur where those of others like them do.
#![tactic(auto)]

mod gives;
mod parts;
mod places;
mod quiet;
mod rows;
mod unlike;
mod ways;

pub use quiet::{QuietState, quiet_states};
pub use unlike::{UnlikeState, unlike_states};
pub use ways::two_ways;
