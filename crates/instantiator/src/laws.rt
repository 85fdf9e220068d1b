//! Laws of the definitions alone: the contract of each function is the law, and its body is empty.

ghost use Rattle.std.specs.Prelude.{◌≡◌, List, None};
ghost use Rattle.aadl_syntax.specs.declared.core_model.PackageUnit.{PackageUnit};
ghost use Rattle.package_index.specs.declared.id.ClassifierId.{ClassifierId};
ghost use Rattle.instantiator.specs.Components.{components_of};
ghost use Rattle.instantiator.specs.inner.Reached.{AreInOrder, AreReached};
ghost use Rattle.instantiator.specs.Refused.{instance_refusal};
ghost use Rattle.instantiator.specs.inner.Whole.{ParentsComeFirst, PathsDiffer};

/// No two components of an instance have one path.
pub fn paths_differ()
    ensures { (packages : List PackageUnit) (root : ClassifierId) → PathsDiffer (components_of packages root) }
{}

/// The path of each component without its last name is that of an earlier component.
pub fn parents_come_first()
    ensures { (packages : List PackageUnit) (root : ClassifierId) → ParentsComeFirst (components_of packages root) }
{}

/// Where nothing is refused of an instance, its components are at those paths that lead from the root to something, by
/// effective subcomponents, and have the classifiers that are reached there.
pub fn components_are_reached()
    ensures { (packages : List PackageUnit) (root : ClassifierId) → instance_refusal packages root ≡ None → AreReached packages root }
{}

/// The components of an instance come in the order of their paths: each after those from which it goes on, and two others
/// by the places of the subcomponents at which they first differ.
pub fn components_are_in_order()
    ensures { (packages : List PackageUnit) (root : ClassifierId) → AreInOrder packages root }
{}
