//! What stands in the text of a model and is not looked at, though errors may depend on it: what is in modes, bindings that are not read, and
//! rates in core text.
#![tactic(auto)]

mod modes;
mod pieces;
mod rates;
mod root;
mod unread;

pub use root::{Implementation, root_implementations};
pub use unread::{Part, What, unread_parts};
