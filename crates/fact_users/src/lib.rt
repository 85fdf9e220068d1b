//! In which formulas of a system each fact and each event occurs.
#![tactic(auto)]

mod users;

pub use users::{Users, users_at, users_of};
