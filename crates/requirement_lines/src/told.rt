ghost use Rattle.std.specs.Prelude.{◌≡◌};

use plain_values::Refusal;
use requirement_names::WrongWord;
use std::alloc::AllocError;

/// In which form verdicts are written.
#[derive(Clone, Copy)]
pub enum LineForm {
    /// A line for each requirement, and a last one that counts them.
    Plain,
    /// As TAP 13, which tools for tests read.
    Tap,
}

/// What is told of a text of requirements.
#[derive(Drop)]
pub struct Told {
    /// The lines, as bytes.
    pub text: Vec<u8>,
    /// Whether each requirement is met.
    pub all_met: bool,
}

/// Why nothing is told of a text of requirements. Places are of bytes, counted from 0.
#[derive(Drop, Clone, Copy)]
pub enum RequirementFault {
    Memory,
    /// Q1: the word at this place is wrong, or one lacks behind it.
    Unread(usize),
    /// Q3 to Q7: this is the first word that names nothing, or names something again.
    Unnamed(WrongWord),
    /// Q2: there is no requirement.
    NoRequirement,
    /// M10 or M11: the slice of a target is too large; the name of the requirement stands at this place.
    TooLarge(Refusal, usize),
}

impl From<AllocError> for RequirementFault {
    ghost use Rattle.requirement_lines.specs.declared.told.RequirementFault.TheVariants.{Memory};

    ghost from_gives = { λ _ fault. fault ≡ Memory };

    fn from(_error: AllocError) -> RequirementFault {
        RequirementFault::Memory
    }
}
