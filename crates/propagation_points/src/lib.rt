//! The points of a component: which sides each has, which types are declared for them, and what a use of a point reaches.
#![tactic(auto)]

mod declared;
mod held;
mod open_point;
mod point;
mod points;
mod setting;
mod side;
mod states;
mod uses;

pub use declared::scopes_of;
pub use held::Held;
pub use open_point::only_name;
pub use point::Point;
pub use points::{Points, points_of};
pub use setting::Setting;
pub use side::{Reach, Side, is_number_in};
pub use states::{Sort, Sorts, Variant, declared_by};
pub use uses::{PointUse, ReachedPoint, reached};
