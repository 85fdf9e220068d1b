use crate::identifier::Identifier;
use crate::place::{End, Ref};
use crate::tokens::TokenList;
use plain_values::{List, Name, Spot};

/// The error model text of a package (EMV2 library): its blocks of types and its machines, in order.
#[derive(Drop)]
pub struct Emv2Library {
    pub blocks: List<TypesBlock>,
    pub machines: List<MachineDecl>,
}

/// A block `error types`: the libraries whose types it uses, those that it extends, and its items.
#[derive(Drop)]
pub struct TypesBlock {
    pub uses: List<Ref>,
    pub extends: List<Ref>,
    pub items: List<TypeItem>,
}

/// A declared error type, a type set, or an alias of one.
#[derive(Drop)]
pub struct TypeItem {
    pub name: Identifier,
    pub spot: Spot,
    pub kind: TypeKind,
}

/// What a type item declares.
#[derive(Drop)]
pub enum TypeKind {
    /// An error type, and the type that it extends.
    Plain(Option<Ref>),
    /// An alias, `renames type`.
    Alias(Ref),
    /// A type set with its terms.
    Set(TypeSet),
    /// An alias, `renames type set`.
    SetAlias(Ref),
}

/// A written set of error types; its spot is its `{`.
#[derive(Drop)]
pub struct TypeSet {
    pub terms: List<Term>,
    pub spot: Spot,
}

/// A term of a written set.
#[derive(Drop)]
pub enum Term {
    /// The word `noerror`.
    NoError(Spot),
    /// A type or a type set by its name.
    One(Ref),
    /// A product of types; its spot is its first name.
    Product(Spot),
}

/// An error behavior state machine.
#[derive(Drop)]
pub struct MachineDecl {
    pub name: Identifier,
    pub spot: Spot,
    /// Where it extends another machine: the word `extends`.
    pub extends: Option<Spot>,
    /// The libraries of its `use types`.
    pub uses: List<Ref>,
    /// Where it has a `use transformations`: the word `use`.
    pub transforms: Option<Spot>,
    pub events: List<EventDecl>,
    pub states: List<StateDecl>,
    pub transitions: List<Transition>,
    pub associations: List<Association>,
}

/// A declared event.
#[derive(Drop)]
pub struct EventDecl {
    pub name: Identifier,
    pub spot: Spot,
    pub kind: EventKind,
    pub set: Option<TypeSet>,
}

/// The kind of an event.
#[derive(Clone, Copy, PartialEq, Eq)]
pub enum EventKind {
    Error,
    Recover,
    Repair,
}

/// A declared state.
#[derive(Drop)]
pub struct StateDecl {
    pub name: Identifier,
    pub spot: Spot,
    pub initial: bool,
    pub set: Option<TypeSet>,
}

/// A transition: from a source, on a condition, to targets. A branch to `same state` gives no target. The spot is that of
/// its name, or of its first token where it has none.
#[derive(Drop)]
pub struct Transition {
    pub name: Option<Identifier>,
    pub spot: Spot,
    pub source: Source,
    pub condition: Condition,
    pub targets: List<StateRef>,
}

/// From which state a transition or an outgoing condition goes: `None` for `all`.
#[derive(Drop)]
pub struct Source {
    pub state: Option<StateRef>,
    pub spot: Spot,
}

/// A state by its name, perhaps with a set of types.
#[derive(Drop)]
pub struct StateRef {
    pub name: Identifier,
    pub spot: Spot,
    pub set: Option<TypeSet>,
}

/// A condition over events, propagations and states.
#[derive(Drop)]
pub enum Condition {
    Atom(Atom),
    /// Parts joined by `and`.
    All(List<Condition>),
    /// Parts joined by `or`.
    Any(List<Condition>),
    /// At least so many of the parts, `ormore`.
    AtLeast(u32, List<Condition>),
    /// At most so many of the parts, `orless`; the spot is that of the number.
    AtMost(u32, List<Condition>, Spot),
}

/// A named part of a condition, after `in` or not. Its spot is the first token of the name.
#[derive(Drop)]
pub struct Atom {
    pub inward: bool,
    pub names: List<Identifier>,
    pub spot: Spot,
    pub set: Option<TypeSet>,
}

/// The error model text of a classifier (EMV2 subclause). The spot is that of its first word.
#[derive(Drop)]
pub struct Emv2Clause {
    pub spot: Spot,
    /// The libraries of its `use types`.
    pub uses: List<Ref>,
    /// The machine of its last `use behavior`.
    pub machine: Option<Ref>,
    /// Each `use` of mappings, equivalences or transformations: the word `use`.
    pub mappings: List<Spot>,
    pub points: List<PointItem>,
    pub flows: List<Flow>,
    pub events: List<EventDecl>,
    pub transitions: List<Transition>,
    pub outgoing: List<Outgoing>,
    pub composites: List<Composite>,
    /// Each block `connection error`: the word `connection`.
    pub connection_errors: List<Spot>,
    pub user_points: List<UserPoint>,
    pub user_paths: List<UserPath>,
    pub associations: List<Association>,
}

/// A point by its names, or by a word as `processor`.
#[derive(Drop)]
pub struct PointRef {
    pub names: List<Identifier>,
    pub spot: Spot,
}

/// A declared propagation of a point: inward or outward, of a set of types; `negative` where `not` stands.
#[derive(Drop)]
pub struct PointItem {
    pub point: PointRef,
    pub negative: bool,
    pub outward: bool,
    pub set: TypeSet,
}

/// An error flow.
#[derive(Drop)]
pub struct Flow {
    pub name: Identifier,
    pub spot: Spot,
    pub kind: FlowKind,
}

/// The kind of an error flow, with its points and their sets.
#[derive(Drop)]
pub enum FlowKind {
    /// An error source, and the state in which it stands where `when` names one.
    Source(PointRef, Option<TypeSet>, Option<StateRef>),
    Sink(PointRef, Option<TypeSet>),
    /// An error path from the first point to the second, and its `use mappings`: the word `use`.
    Path(PointRef, Option<TypeSet>, PointRef, Option<TypeSet>, Option<Spot>),
}

/// An outgoing propagation condition: from a source, on a condition unless its brackets are empty, at a point.
#[derive(Drop)]
pub struct Outgoing {
    pub name: Option<Identifier>,
    pub spot: Spot,
    pub source: Source,
    pub condition: Option<Condition>,
    pub point: PointRef,
    pub set: Option<TypeSet>,
}

/// A composite error state: its condition, `None` for `others`, and its target.
#[derive(Drop)]
pub struct Composite {
    pub name: Option<Identifier>,
    pub spot: Spot,
    pub condition: Option<Condition>,
    pub target: StateRef,
}

/// A propagation point of the user's.
#[derive(Drop)]
pub struct UserPoint {
    pub name: Identifier,
    pub spot: Spot,
}

/// A propagation path of the user's.
#[derive(Drop)]
pub struct UserPath {
    pub name: Identifier,
    pub spot: Spot,
    pub from: End,
    pub to: End,
}

/// A property association: the property, the tokens of its value, and the paths to which it applies: those that are names with single dots
/// between them, and all others.
#[derive(Drop)]
pub struct Association {
    pub name: List<Identifier>,
    pub spot: Spot,
    pub value: TokenList,
    pub targets: List<List<Identifier>>,
    pub others: List<OtherTarget>,
}

/// A path of an association that is more than names with single dots between them: its text without blanks, and of `^a.b@c.d` the names `a`,
/// `b`, `c` and `d`.
#[derive(Drop)]
pub struct OtherTarget {
    pub text: Name,
    pub names: Option<List<Identifier>>,
}
