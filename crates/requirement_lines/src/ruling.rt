//! Verdicts of each kind, and what they come to.

ghost use Rattle.std.specs.Prelude.{◌≡◌};
ghost use Rattle.requirement_lines.specs.Rulings.{is_broken, is_met, is_vacuous, mark_of, probability_mark, set_mark};

use probability_verdicts::ProbabilityVerdict;
use requirement_verdicts::Verdict;

/// What is said of a requirement.
#[derive(Drop)]
pub enum Ruling {
    /// Its sentence speaks of sets of events.
    OfSets(Verdict),
    /// Its sentence speaks of a probability.
    OfProbability(ProbabilityVerdict),
}

/// What the verdict on a requirement comes to.
#[derive(Clone, Copy)]
pub enum Mark {
    Met,
    Broken,
    Vacuous,
}

/// What a verdict comes to.
pub(crate) fn mark_of(ruling: &Ruling) -> Mark
    ensures { result ≡ mark_of ruling.now }
{
    match ruling {
        Ruling::OfSets(verdict) => set_mark(verdict),
        Ruling::OfProbability(verdict) => probability_mark(verdict),
    }
}

/// The same, where the sentence speaks of sets of events.
fn set_mark(verdict: &Verdict) -> Mark
    ensures { result ≡ set_mark verdict.now }
{
    match verdict {
        Verdict::Met => Mark::Met,
        Verdict::Vacuous => Mark::Vacuous,
        Verdict::Broken(_) => Mark::Broken,
        Verdict::Stale(_) => Mark::Broken,
    }
}

/// The same, where it speaks of a probability.
fn probability_mark(verdict: &ProbabilityVerdict) -> Mark
    ensures { result ≡ probability_mark verdict.now }
{
    match verdict {
        ProbabilityVerdict::Met => Mark::Met,
        ProbabilityVerdict::Vacuous => Mark::Vacuous,
        ProbabilityVerdict::Anyway => Mark::Broken,
        ProbabilityVerdict::Above(_, _) => Mark::Broken,
        ProbabilityVerdict::Large => Mark::Broken,
    }
}

pub(crate) fn is_met(mark: Mark) -> bool
    ensures { result ≡ is_met mark }
{
    match mark {
        Mark::Met => true,
        Mark::Broken => false,
        Mark::Vacuous => false,
    }
}

pub(crate) fn is_broken(mark: Mark) -> bool
    ensures { result ≡ is_broken mark }
{
    match mark {
        Mark::Met => false,
        Mark::Broken => true,
        Mark::Vacuous => false,
    }
}

pub(crate) fn is_vacuous(mark: Mark) -> bool
    ensures { result ≡ is_vacuous mark }
{
    match mark {
        Mark::Met => false,
        Mark::Broken => false,
        Mark::Vacuous => true,
    }
}
