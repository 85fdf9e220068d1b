//! The links of an instance: from which side of which point errors propagate to which.
#![tactic(auto)]

mod all;
mod bound;
mod bound_links;
mod carried;
mod carried_links;
mod category;
mod counted;
mod ends;
mod fitting;
mod further;
mod laws;
mod link;
mod links;
mod pointed;
mod refused;
mod tables;
mod unlinked;

pub use all::links_of;
pub use laws::{bindings_only_add_links, links_join_sides};
pub use link::{Link, PointAt};
pub use unlinked::{Unlinked, find_unlinked};
