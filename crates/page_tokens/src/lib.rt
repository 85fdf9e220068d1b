//! Page tokens: where a page of a listing begins, and of what it was asked.
#![tactic(auto)]

mod key;
mod laws;
mod token;
mod writing;

pub use key::{asked_digest, page_digest};
pub use laws::{first_version_has_no_key, reads_back};
pub use token::read_page_token;
pub use writing::put_page_token;
