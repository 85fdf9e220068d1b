//! How many events it takes to make a fact hold.
#![tactic(auto)]

mod agenda;
mod alone;
mod bounds;
mod closing;
mod cuts;
mod known;
mod laws;
mod lows;
mod marks;
mod order;
mod orders;
mod places;
mod proposals;
mod settling;
mod sizes;

pub use laws::{one_order, one_text};
pub use order::Order;
pub use orders::orders_text;
