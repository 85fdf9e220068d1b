//! Laws of the definitions alone: the contract of each function is the law, and its body is empty.

ghost use Rattle.std.specs.Prelude.{List};
ghost use Rattle.instantiator.specs.Whole.{Instance};
ghost use Rattle.profiles.specs.declared.profile.Profile.{Profile};
ghost use Rattle.propagation_links.specs.inner.Links.{AllJoinSides, OnlyAddsLinks};
ghost use Rattle.propagation_points.specs.Points.{Point};

/// Each link leads from a side that is there to a side that is there.
pub fn links_join_sides()
    ensures { (profile : Profile) (instance : Instance) (points : List (List Point)) → AllJoinSides profile instance points }
{}

/// The second profile adds links behind those of the first, and these are the extra links of its bindings.
pub fn bindings_only_add_links()
    ensures { (instance : Instance) (points : List (List Point)) → OnlyAddsLinks instance points }
{}
