//! The operations on the families of a store of shared diagrams.
//!
//! Each operation answers a number of the store whose family is exactly the one that its contract states, as a set of
//! sets. It remembers its answers in the store, and each number of the store keeps its family, also where memory is
//! refused. A call goes as deep as there are variables on a path of the diagrams.
#![tactic(auto)]

mod choice;
mod copies;
mod families;
mod halving;
mod memory;
mod minimal;
mod narrowing;
mod product;
mod removal;
mod sizes;
mod split;
mod union;
mod wide;

pub use choice::{at_least, at_least_up_to};
pub use copies::copied;
pub use families::{
    min_product, min_product_up_to, min_union, minimal_family, single, wide_product, wide_union,
    without,
};
pub use sizes::{of_size, up_to_size};
pub use split::look;
