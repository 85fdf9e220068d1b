//! The tokens of a text, and the values into which core and error model text is read.
//!
//! Contracts see each of them as plain data, by its fields.
#![tactic(auto)]

mod core_model;
mod error_model;
mod identifier;
mod place;
mod token;
mod token_slice;
mod tokens;

pub use core_model::{
    Alias, Binding, BindingKind, Category, Connection, ConnectionKind, Decl, Ends, Feature,
    FeatureKind, PackageUnit, Subcomponent, Unit,
};
pub use error_model::{
    Association, Atom, Composite, Condition, Emv2Clause, Emv2Library, EventDecl, EventKind, Flow,
    FlowKind, MachineDecl, OtherTarget, Outgoing, PointItem, PointRef, Source, StateDecl, StateRef,
    Term, Transition, TypeItem, TypeKind, TypeSet, TypesBlock, UserPath, UserPoint,
};
pub use identifier::Identifier;
pub use place::{End, Ref};
pub use token::{Token, TokenKind, TokenRef};
pub use token_slice::TokenSlice;
pub use tokens::TokenList;
