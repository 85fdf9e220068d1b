//! Laws of the definitions alone: the contract of each function is the law, and its body is empty.

ghost use Rattle.std.specs.Prelude.{◌≡◌, ◌≤◌, ◌<◌, ◌+◌, ◌-◌, ◌*◌, ◌^◌, ◌∷◌, [], ℕ, Bool, true, List, length, min};
ghost use Rattle.zdd_store.specs.inner.Family.{Family, least_number};
ghost use Rattle.probabilities.specs.Weights.{weight};
ghost use Rattle.probabilities.specs.inner.Weights.{IsApart, AreDistinct, Grows};
ghost use Rattle.probabilities.specs.Rates.{Rates};
ghost use Rattle.probabilities.specs.inner.Rates.{AreRates};
ghost use Rattle.probabilities.specs.inner.Bounded.{AreParts, IsLowerBound, IsUpperBound};

/// How often a condition holds, by cases of one event.
pub fn by_cases()
    ensures { (d : ℕ) (m : ℕ → ℕ) (e : ℕ) (es : List ℕ) (condition : List ℕ → Bool) → IsApart e es
        → weight d m (e ∷ es) condition ≡ (d - m e) * weight d m es condition + m e * weight d m es (λ set. condition (e ∷ set)) }
{}

/// All outcomes together are the whole.
pub fn all_outcomes()
    ensures { (d : ℕ) (m : ℕ → ℕ) (events : List ℕ) → ((e : ℕ) → m e ≤ d) → AreDistinct events
        → weight d m events (λ set. true) ≡ d ^ length events }
{}

/// A condition that grows holds no less often where events occur more often.
pub fn grows()
    ensures { (d : ℕ) (m n : ℕ → ℕ) (events : List ℕ) (condition : List ℕ → Bool) → ((e : ℕ) → m e ≤ n e) → ((e : ℕ) → n e ≤ d)
        → AreDistinct events → Grows condition → weight d m events condition ≤ weight d n events condition }
{}

/// Bounds of the family without a set, and of that with the empty set alone.
pub fn ends()
    ensures none { (s : ℕ) (rates : Rates) (end : ℕ) → IsLowerBound s rates end [] 0 × IsUpperBound s rates end [] 0 }
    ensures full { (s : ℕ) (rates : Rates) (end : ℕ)
        → IsLowerBound s rates end ([] ∷ []) s × IsUpperBound s rates end ([] ∷ []) s }
{}

/// A lower bound of a family from those of its parts at its least number.
pub fn lower_step()
    ensures { (s : ℕ) (rates : Rates) (end : ℕ) (family : Family) (event : ℕ) (lo hi : Family) (x y z : ℕ)
        → 0 < s → AreRates s rates → event < end → least_number family ≡ event → AreParts family event lo hi
        → IsLowerBound s rates end lo x → IsLowerBound s rates end hi y
        → s * z ≤ rates.low_not event * x + rates.low event * y → IsLowerBound s rates end family z }
{}

/// An upper bound of a family from those of its parts at its least number.
pub fn upper_step()
    ensures { (s : ℕ) (rates : Rates) (end : ℕ) (family : Family) (event : ℕ) (lo hi : Family) (x y z : ℕ)
        → 0 < s → AreRates s rates → event < end → least_number family ≡ event → AreParts family event lo hi
        → IsUpperBound s rates end lo x → IsUpperBound s rates end hi y
        → min (s * s) (rates.high_not event * x + rates.high event * y) ≤ s * z → IsUpperBound s rates end family z }
{}
