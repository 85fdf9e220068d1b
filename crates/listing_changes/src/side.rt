use backward_slice::Slice;
use fault_system::FaultSystem;

/// A system, and the slice of the target whose minimal cut sets are compared.
#[derive(Clone, Copy)]
pub struct Side<'a> {
    /// The system.
    pub system: &'a FaultSystem,
    /// The facts and events on which the target depends.
    pub part: &'a Slice,
}
