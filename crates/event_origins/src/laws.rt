//! Laws of the definitions alone: the contract of each function is the law, and its body is empty.

ghost use Rattle.std.specs.Prelude.{List};
ghost use Rattle.profiles.specs.declared.profile.Profile.{Profile};
ghost use Rattle.aadl_syntax.specs.declared.core_model.PackageUnit.{PackageUnit};
ghost use Rattle.package_index.specs.declared.id.ClassifierId.{ClassifierId};
ghost use Rattle.event_origins.specs.inner.Placed.{EachIsPlaced};

/// The declaration of each event of the model of a root has a place.
pub fn each_event_is_placed()
    ensures { (profile : Profile) (packages : List PackageUnit) (root : ClassifierId) → EachIsPlaced profile packages root }
{}
