//! The minimal cut sets of a target, as a family of sets in a store of shared diagrams.
//!
//! Each fact of the target's slice has a family, at first the empty one. It is made anew from its formula and the
//! families of all facts until nothing changes; then it covers exactly the sets of events under which the fact holds. A
//! greatest order cuts each family on the way, so that it bounds the work.
//!
//! Where a first try does not end, the sets of one event are found first, and the others in a system without these events,
//! and without the target in the formulas of facts: a set that goes past the target needs no more than its part before it.
//!
//! Two hints save time, and nothing of them is trusted. Facts are made block after block, and again only where a family in
//! their formulas changed; a last sweep over all facts certifies the end. Diagrams are built over variables, the events as
//! the target meets them depth-first, and the family of the target is brought into the order of the events at the end.
#![tactic(auto)]

mod agenda;
mod families;
mod filling;
mod formulas;
mod gates;
mod inner_order;
mod laws;
mod race;
mod setting;
mod singles;
mod thinning;
mod unfound;

pub use laws::in_slice;
pub use setting::Asked;
pub use singles::{family, family_in_rounds};
pub use unfound::Unfound;
