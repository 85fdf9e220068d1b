//! What a classifier of a package has once its extensions are followed: its chain, its members and its error model items.
#![tactic(auto)]

mod bound;
mod chain;
mod classifier;
mod declaration;
mod effective;
mod error_model;
mod in_package;
mod items;
mod limits;
mod member;
mod members;
mod names;
mod rows;

pub use bound::{bindings_along, braced_along};
pub use chain::chain_of;
pub use classifier::{Classifier, classifiers_of};
pub use declaration::Declaration;
pub use effective::{Effective, Members, effective_members};
pub use error_model::{
    Behavior, OtherItems, Propagations, behavior_of, machine_of, other_items_of, propagations_of,
};
pub use in_package::InPackage;
pub use items::{ClauseItem, ClauseText, InClause};
pub use limits::Limited;
pub use member::{Inherited, MemberKind};
pub use rows::{KeyWords, Row};
