use crate::gates::Form;
use backward_slice::Slice;
use dependency_blocks::Blocks;
use fault_system::FaultSystem;

/// Of what the minimal cut sets are asked: the target of a slice of a system, within a greatest order where one is given.
#[derive(Clone, Copy)]
pub struct Asked<'a> {
    /// The system.
    pub system: &'a FaultSystem,
    /// The facts and events on which the target depends.
    pub slice: &'a Slice,
    /// The blocks of these facts. They decide how long it takes, and not what is found.
    pub blocks: &'a Blocks,
    /// The greatest number of events that a set may have.
    pub most: Option<u32>,
}

/// By what the families of the facts of a slice are made.
#[derive(Clone, Copy)]
pub(crate) struct Setting<'a> {
    /// The system.
    pub(crate) system: &'a FaultSystem,
    /// The slice.
    pub(crate) slice: &'a Slice,
    /// The variables of the events.
    pub(crate) order: &'a [u32],
    /// The greatest number of events that a set may have.
    pub(crate) most: Option<u32>,
    /// The form of the families on the way.
    pub(crate) form: Form,
}
