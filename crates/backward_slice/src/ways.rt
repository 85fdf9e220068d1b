//! Which facts are gone to from a fact.

/// Of the facts in the formula of each fact, those to which it is gone.
pub trait Ways {
    ghost use Rattle.std.specs.Prelude.{◌≡◌, ℕ};
    ghost use Rattle.fault_system.specs.Truth.{NumberSet};

    ghost ways: { Self → ℕ → NumberSet };

    /// Whether it is gone from one fact to another in its formula.
    fn leads(&self, from: u32, to: u32) -> bool
        ensures { result ≡ ways self.now from to };
}

/// To each fact in the formula of a fact it is gone.
#[derive(Clone, Copy)]
pub(crate) struct AllWays;

impl Ways for AllWays {
    ghost use Rattle.backward_slice.specs.inner.Reach.{all_ways};

    ghost ways = { λ _. all_ways };

    fn leads(&self, from: u32, to: u32) -> bool {
        let _ = (from, to);
        true
    }
}
