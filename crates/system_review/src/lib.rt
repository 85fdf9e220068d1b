//! What in a system of facts and events has no effect, and which of its facts stand in loops.
#![tactic(auto)]

mod alone;
mod by_rounds;
mod followed;
mod laws;
mod listing;
mod looping;
mod occurring;
mod possible;
mod proposing;
mod single;
mod unreached;

pub use alone::{made_by_event, made_by_fact};
pub use laws::nothing_is_lost;
pub use looping::{Loop, loops};
pub use occurring::used_facts;
pub use possible::{always_facts, possible_facts};
pub use single::no_single_events;
pub use unreached::{unreached_events, unused_events};
