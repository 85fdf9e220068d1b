ghost use Rattle.std.specs.Prelude.{◌≡◌};

use std::alloc::AllocError;

/// Why a family was not found.
#[derive(Clone, Copy)]
pub enum Unfound {
    /// It was given up after the rounds of tries that were allowed.
    GivenUp,
    /// Memory was wanting.
    Memory,
}

impl From<AllocError> for Unfound {
    ghost use Rattle.cutset_engine.specs.declared.unfound.Unfound.TheVariants.{Memory};

    ghost from_gives = { λ _ unfound. unfound ≡ Memory };

    fn from(_error: AllocError) -> Unfound {
        Unfound::Memory
    }
}
