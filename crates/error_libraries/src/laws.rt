//! Laws of the definitions alone: the contract of each function is the law, and its body is empty.

ghost use Rattle.std.specs.Prelude.{List};
ghost use Rattle.profiles.specs.declared.profile.Profile.{Profile};
ghost use Rattle.aadl_syntax.specs.declared.core_model.PackageUnit.{PackageUnit};
ghost use Rattle.error_libraries.specs.inner.Printed.{PrintApart};

/// Types of different numbers print differently, where nothing is declared twice.
pub fn types_print_apart()
    ensures { (profile : Profile) (packages : List PackageUnit) → PrintApart profile packages }
{}
