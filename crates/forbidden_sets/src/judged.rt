use backward_slice::Slice;
use dependency_blocks::Blocks;
use fault_system::FaultSystem;

/// What is judged: the target of a slice of a system.
#[derive(Clone, Copy)]
pub struct Judged<'a> {
    /// The system.
    pub system: &'a FaultSystem,
    /// The facts and events on which the target depends.
    pub slice: &'a Slice,
    /// The blocks of these facts. They decide how long it takes, and not what is found.
    pub blocks: &'a Blocks,
}
