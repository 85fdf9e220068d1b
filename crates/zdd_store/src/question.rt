use crate::id::Id;

/// What can be asked of one family or two, with one answer.
#[derive(Clone, Copy, Debug, PartialEq, Eq, Hash)]
pub enum Operation {
    /// The minimal sets of the first family.
    Minimal,
    /// The minimal sets of the union of the two families.
    MinUnion,
    /// The minimal sets among the unions of a set of the first family and a set of the second, as far as they are asked for.
    MinProduct,
    /// The sets of the first family that contain no set of the second.
    Without,
    /// The sets of the first family that have at most so many numbers.
    UpToSize,
    /// The sets of the first family that have exactly so many numbers.
    OfSize,
    /// A family that covers what one of the two families covers.
    Union,
    /// A family that covers what both families cover.
    Meet,
}

/// A question whose answer the store remembers: an operation, the family that it is asked of, the position of the
/// second family or the size, and how many numbers a set has at most that is asked for.
#[derive(Clone, Copy, Debug, PartialEq, Eq, Hash)]
pub struct Question {
    pub operation: Operation,
    pub first: Id,
    pub second: u32,
    pub most: u32,
}

/// A question and its answer.
#[derive(Clone, Copy)]
pub(crate) struct Known {
    pub question: Question,
    pub answer: u32,
}

impl Question {
    /// The place of a question in a table of so many places. Others may have the same one; nothing is claimed of it.
    pub(crate) fn place(self, places: usize) -> usize {
        let operation = self.operation as u64;
        let mixed = u64::from(self.first.position)
            .wrapping_mul(0x9E37_79B9_7F4A_7C15)
            .wrapping_add(u64::from(self.second).wrapping_mul(0xC2B2_AE3D_27D4_EB4F))
            .wrapping_add(u64::from(self.most).wrapping_mul(0x1656_67B1_9E37_79F9))
            .wrapping_add(operation.wrapping_mul(0x27D4_EB2F_1656_67C5));
        (mixed / 0x1_0000_0000) as usize & places.saturating_sub(1)
    }
}
