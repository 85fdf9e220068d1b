ghost use Rattle.std.specs.Prelude.{◌≡◌};

use std::alloc::AllocError;

/// What is wrong with the name that a word is.
#[derive(Clone, Copy, PartialEq, Eq)]
pub enum Mistake {
    /// A group, or a requirement, of this name stands before.
    DuplicateName,
    /// No fact of the model has this name.
    UnknownTarget,
    /// The text has no group of this name.
    UnknownGroup,
    /// The model has no component and no error event of this name.
    EmptyGroup,
    /// No set of the model's error events has this text.
    BadToken,
}

/// A word that is wrong, and the place of its first byte, counted from 0.
#[derive(Clone, Copy, PartialEq, Eq)]
pub struct WrongWord {
    pub mistake: Mistake,
    pub at: usize,
}

/// Why the names of requirements are not resolved.
#[derive(Drop, Clone, Copy)]
pub enum NameFault {
    Memory,
    /// There is no requirement.
    NoRequirement,
    /// This is the first word that is wrong.
    Wrong(WrongWord),
}

impl From<AllocError> for NameFault {
    ghost use Rattle.requirement_names.specs.declared.mistake.NameFault.TheVariants.{Memory};

    ghost from_gives = { λ _ fault. fault ≡ Memory };

    fn from(_error: AllocError) -> NameFault {
        NameFault::Memory
    }
}
