//! The model of an FMEA sheet: a model with the origins of its events, which of them it gives a rate, and what each of its components is.
#![tactic(auto)]

mod gathered;
mod model;
mod next;
mod part;

pub use gathered::{add_at, empty_lists, list_at};
pub use model::SheetModel;
pub use part::Part;
