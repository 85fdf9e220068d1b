//! Laws of the definitions alone: the contract of each function is the law, and its body is empty.

ghost use Rattle.std.specs.Prelude.{◌≡◌, [], List, MatchOption};
ghost use Rattle.std.specs.List.{AllByRecursion};
ghost use Rattle.fault_system.specs.Systems.{System};
ghost use Rattle.requirements.specs.declared.reading.Requirements.{Requirements};
ghost use Rattle.requirement_names.specs.declared.named.NamedRequirement.{NamedRequirement};
ghost use Rattle.requirement_names.specs.Wrong.{all_wrong, first_wrong};
ghost use Rattle.requirement_names.specs.inner.Wrong.{IsFirstOf};
ghost use Rattle.requirement_names.specs.inner.Named.{AreNamed, FitsModel};

/// The first wrong word is one of all that are wrong, and none stands before it; there is none only where no word is wrong.
pub fn first_is_first()
    ensures { (system : System) (all : Requirements) → MatchOption (first_wrong system all) (all_wrong system all ≡ []) (IsFirstOf (all_wrong system all)) }
{}

/// What requirements name is there: targets are facts of the system, and sets are rising lists of its events.
pub fn named_fit()
    ensures { (system : System) (all : Requirements) (named : List NamedRequirement) → AreNamed system all named → AllByRecursion (FitsModel system) named }
{}
