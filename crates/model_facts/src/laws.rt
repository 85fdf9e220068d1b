//! Laws of the definitions alone: the contract of each function is the law, and its body is empty.

ghost use Rattle.std.specs.Prelude.{List};
ghost use Rattle.profiles.specs.declared.profile.Profile.{Profile};
ghost use Rattle.aadl_syntax.specs.declared.core_model.PackageUnit.{PackageUnit};
ghost use Rattle.package_index.specs.declared.id.ClassifierId.{ClassifierId};
ghost use Rattle.model_facts.specs.Assembly.{Assembly};
ghost use Rattle.model_facts.specs.inner.Laws.{EventNamesArePlain, EventNamesDiffer, FactNamesArePlain, FactNamesDiffer};

/// No two facts of the model of a root have one name, where nothing is declared twice and all names are identifiers.
pub fn fact_names_differ()
    ensures { (profile : Profile) (packages : List PackageUnit) (root : ClassifierId) → FactNamesDiffer profile packages root }
{}

/// No two events of the model of a root have one name, where nothing is declared twice and all names are identifiers.
pub fn event_names_differ()
    ensures { (profile : Profile) (packages : List PackageUnit) (root : ClassifierId) → EventNamesDiffer profile packages root }
{}

/// The names of facts begin with `root`, and have letters, digits, and `_`, `.`, `/`, `:`, `{`, `}` alone, where all names are
/// identifiers.
pub fn fact_names_are_plain()
    ensures { (assembly : Assembly) → FactNamesArePlain assembly }
{}

/// The names of events begin with `root`, and have letters, digits, and `_`, `.`, `/`, `:`, `{`, `}` alone, where all names are
/// identifiers.
pub fn event_names_are_plain()
    ensures { (assembly : Assembly) → EventNamesArePlain assembly }
{}
