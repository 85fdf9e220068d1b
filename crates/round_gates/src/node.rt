use plain_values::List;

/// What makes a gate true of its inputs.
#[derive(Clone, Copy)]
pub enum GateKind {
    /// All inputs are true.
    And,
    /// An input is true.
    Or,
    /// At least so many inputs are true, counted by place.
    AtLeast(u32),
}

/// The name of a gate: a fact, a stage of it, and a place in its formula, counted in preorder from 0.
#[derive(Clone, Copy, PartialEq, Eq, PartialOrd, Ord, Hash)]
pub(crate) struct GateKey {
    pub fact: u32,
    pub stage: u32,
    pub place: u32,
}

/// What stands at a place of a stage when the constants are taken out.
#[derive(Clone, Copy, PartialEq, Eq, Hash)]
pub(crate) enum Node {
    /// Always true.
    Always,
    /// Never true.
    Never,
    /// The event of this number.
    Basic(u32),
    /// The gate of this name.
    Gate(GateKey),
}

/// A part of a formula: its place and its node.
#[derive(Clone, Copy)]
pub(crate) struct Part {
    pub place: u32,
    pub node: Node,
}

/// A gate with its inputs, none of which is constant.
#[derive(Drop)]
pub(crate) struct Line {
    pub key: GateKey,
    pub kind: GateKind,
    pub inputs: List<Node>,
}

/// What the rule of a formula makes of the nodes of its parts.
#[derive(Drop)]
pub(crate) enum Join {
    /// A node that was there, or a constant.
    Plain(Node),
    /// A gate of these inputs.
    Made(GateKind, List<Node>),
}

/// A stage of a fact, counted from 1.
#[derive(Clone, Copy)]
pub(crate) struct Stage {
    pub fact: u32,
    pub stage: u32,
}
