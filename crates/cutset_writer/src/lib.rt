//! Pages of listings of minimal cut sets as text, straight from the diagram.
#![tactic(auto)]

mod bookmark;
mod form;
mod lines;
mod listing_page;
mod page;

pub use bookmark::Bookmark;
pub use form::SetForm;
pub use listing_page::ListingPage;
pub use page::PageWriter;
