use crate::error_model::{Emv2Clause, Emv2Library};
use crate::identifier::Identifier;
use crate::place::{End, Ref};
use crate::tokens::TokenList;
use plain_values::{List, Spot};

/// A unit of a file: a package, or a property set by its name, which is read past.
#[derive(Drop)]
pub enum Unit {
    Package(PackageUnit),
    PropertySet(Identifier, Spot),
}

/// A package (AS5506): its aliases, its classifiers and its error model text, each in order, whether public or private.
#[derive(Drop)]
pub struct PackageUnit {
    pub name: List<Identifier>,
    pub spot: Spot,
    pub aliases: List<Alias>,
    pub decls: List<Decl>,
    pub library: Emv2Library,
}

/// Another name for a package or a classifier, `renames`. The spot is that of the name, or of the target's where the alias
/// states none.
#[derive(Drop)]
pub struct Alias {
    pub name: Identifier,
    /// Whether it stands for a package.
    pub package: bool,
    /// The names of the target.
    pub names: List<Identifier>,
    pub spot: Spot,
}

/// The category of a component, as it is written (AS5506): one word, or two, as `virtual` `bus` and `thread` `group`.
#[derive(Drop)]
pub struct Category {
    pub word: Identifier,
    pub second: Option<Identifier>,
}

/// A classifier: a component type, or an implementation, which has an item.
#[derive(Drop)]
pub struct Decl {
    pub category: Category,
    pub name: Identifier,
    /// The identifier after the dot of an implementation.
    pub item: Option<Identifier>,
    pub spot: Spot,
    pub extends: Option<Ref>,
    /// Where bindings of prototypes follow the extended name: their `(`.
    pub binds: Option<Spot>,
    /// Where it has a `prototypes` section that is not `none`: its first word.
    pub prototypes: Option<Spot>,
    pub features: List<Feature>,
    pub subcomponents: List<Subcomponent>,
    pub connections: List<Connection>,
    pub clauses: List<Emv2Clause>,
    /// The tokens of each of its `properties` sections, without the first word.
    pub properties: List<TokenList>,
}

/// A binding, as a `properties` section states it: to each of some components, of each of some others, or of each of some
/// connections. All are paths from the component that states it. The spot is that of its first word.
#[derive(Drop)]
pub struct Binding {
    pub kind: BindingKind,
    pub spot: Spot,
    pub references: List<List<Identifier>>,
    pub targets: List<List<Identifier>>,
}

/// The kind of a binding, by its property: of components to processors, of components to memories, of connections to what they
/// run on, or of functions to what performs them.
#[derive(Clone, Copy, PartialEq, Eq)]
pub enum BindingKind {
    Processor,
    Memory,
    Connection,
    Function,
}

/// A feature of a component type.
#[derive(Drop)]
pub struct Feature {
    pub name: Identifier,
    pub spot: Spot,
    /// Whether it is `refined to`.
    pub refined: bool,
    pub kind: FeatureKind,
    /// Where it is an array: its `[`.
    pub array: Option<Spot>,
}

/// The direction of a feature, or that it is an access or a feature group.
#[derive(Clone, Copy, PartialEq, Eq)]
pub enum FeatureKind {
    Inward,
    Outward,
    Both,
    Access,
    Group,
}

/// A subcomponent of an implementation.
#[derive(Drop)]
pub struct Subcomponent {
    pub name: Identifier,
    pub spot: Spot,
    /// Whether it is `refined to`.
    pub refined: bool,
    pub classifier: Option<Ref>,
    /// Where it is an array: its `[`.
    pub array: Option<Spot>,
    /// Where bindings of prototypes follow its classifier: their `(`.
    pub binds: Option<Spot>,
    /// What stands behind its classifier, before its semicolon or the `[` of an array: bindings of prototypes, properties in braces
    /// and the modes that it is in.
    pub tail: TokenList,
}

/// A connection of an implementation.
#[derive(Drop)]
pub struct Connection {
    pub name: Identifier,
    pub spot: Spot,
    /// Whether it is `refined to`.
    pub refined: bool,
    pub kind: ConnectionKind,
    /// Its ends, which a refinement may leave out.
    pub ends: Option<Ends>,
    /// What stands behind its ends, before its semicolon: properties in braces and the modes that it is in.
    pub tail: TokenList,
}

/// The kind of a connection: of ports, parameters or features, of an access, or of feature groups.
#[derive(Clone, Copy, PartialEq, Eq)]
pub enum ConnectionKind {
    Plain,
    Access,
    Group,
}

/// The ends of a connection; `both` where it goes both ways.
#[derive(Drop)]
pub struct Ends {
    pub from: End,
    pub to: End,
    pub both: bool,
}
