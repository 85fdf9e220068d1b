//! Reports on a listing of minimal cut sets: the feeding and the texts of the reports that a caller hands in, and the tool's own
//! ones.
#![tactic(auto)]

mod beginning;
mod counted;
mod counting;
mod diagram;
mod failing;
mod feeding;
mod finishing;
mod giving;
mod orders;
mod singles;
mod stop;
mod uses;
mod whole;

pub use counted::{CountedListing, counted_listing};
pub use diagram::count_family;
pub use failing::FailingReport;
pub use feeding::feed;
pub use finishing::name_of;
pub use giving::{FeedFault, may_take_family};
pub use orders::OrderProfile;
pub use singles::SinglePoints;
pub use stop::ReportStop;
pub use uses::EventUse;
pub use whole::{Listed, report_text};
