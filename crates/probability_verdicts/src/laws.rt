//! Laws of the definitions alone: the contract of each function is the law, and its body is empty.

ghost use Rattle.std.specs.Prelude.{ℕ, List};
ghost use Rattle.fault_system.specs.Systems.{System};
ghost use Rattle.property_reader.specs.declared.rate.Rate.{Rate};
ghost use Rattle.probability_verdicts.specs.declared.verdict.ProbabilityVerdict.TheVariants.{Met};
ghost use Rattle.probability_verdicts.specs.Verdicts.{IsProbabilityVerdict};
ghost use Rattle.probability_verdicts.specs.inner.Kept.{IsKeptProbability};

/// What is met is so: the target is at most as probable as the number, however probable each event is within what its rate and the hours
/// say, where events are independent.
pub fn met_is_kept()
    ensures { (system : System) (rates : List Rate) (target : ℕ) (events most hours : List ℕ)
        → IsProbabilityVerdict system rates target events most hours Met → IsKeptProbability system rates target most hours }
{}
