//! A law of the definitions alone: the contract of the function is the law, and its body is empty.

ghost use Rattle.std.specs.Prelude.{List};
ghost use Rattle.plain_values.specs.Order.{IsClear};
ghost use Rattle.profiles.specs.declared.profile.Profile.{Profile};
ghost use Rattle.aadl_syntax.specs.declared.core_model.PackageUnit.{PackageUnit};
ghost use Rattle.package_index.specs.declared.id.ClassifierId.{ClassifierId};
ghost use Rattle.package_index.specs.Duplicates.{IsDuplicate};
ghost use Rattle.fault_system.specs.Systems.{IsSystem};
ghost use Rattle.model_facts.specs.Assembly.{assembly_of};
ghost use Rattle.model_facts.specs.inner.Laws.{AreNamed};
ghost use Rattle.fact_formulas.specs.Flat.{system_of};

/// What a root is made into is a system, where nothing is declared twice and all names are identifiers: each number in a
/// formula is that of a fact or an event, no two facts have one name, and no two events have one.
pub fn models_are_systems()
    ensures { (profile : Profile) (packages : List PackageUnit) (root : ClassifierId) → IsClear (IsDuplicate packages) → AreNamed (assembly_of profile packages root) → IsSystem (system_of (assembly_of profile packages root)) }
{}
