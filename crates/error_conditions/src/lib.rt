//! What a condition over named parts means, whatever its parts are: triggers of transitions and of outgoing conditions, and
//! composite states. It has two sides: where it may hold, and where it may fail.
#![tactic(auto)]

mod atom;
mod cause;
mod counted;
mod laws;
mod side;
mod walk;

pub use atom::{
    always, event_cause, may_fail, note_no_errors, or_always, point_meaning, says_no_error,
};
pub use cause::{Cause, StateBelow};
pub use counted::all_of;
pub use laws::{covers_named, covers_no_error, first_profile, tells_named, tells_no_error};
pub use side::Side;
pub use walk::{Atoms, cause_of};
