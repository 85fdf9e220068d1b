//! Laws of the definitions alone: the contract of each function is the law, and its body is empty.

ghost use Rattle.std.specs.Prelude.{◌≡◌, ℕ, Bool, true, Some};
ghost use Rattle.aadl_syntax.specs.declared.error_model.Atom.{Atom};
ghost use Rattle.aadl_syntax.specs.declared.error_model.Condition.{Condition};
ghost use Rattle.error_libraries.specs.Libraries.{Table};
ghost use Rattle.propagation_points.specs.declared.uses.ReachedPoint.{ReachedPoint};
ghost use Rattle.error_conditions.specs.Conditions.{Pair, pair_of, point_pair};
ghost use Rattle.error_conditions.specs.inner.First.{cause_of, is_plain};
ghost use Rattle.error_conditions.specs.inner.Strict.{Covers, Tells, World, comes_in, is_quiet, other_comes_in, strict, truth};

/// If each named part is covered by its meaning, a condition over them is covered by its own: whatever is true or false in the
/// strict reading may be so.
pub fn covers_named()
    ensures { (meaning : Atom → Pair) (named : Atom → Bool) (world : World)
        → ((atom : Atom) → Covers world (named atom) (meaning atom))
        → (condition : Condition) → Covers world (strict named condition) (pair_of meaning condition) }
{}

/// If the meaning of each named part tells exactly whether that is true, the meaning of a condition over them does: nothing more
/// may be so than the named parts say.
pub fn tells_named()
    ensures { (meaning : Atom → Pair) (named : Atom → Bool) (world : World)
        → ((atom : Atom) → Tells world (named atom) (meaning atom))
        → (condition : Condition) → Tells world (strict named condition) (pair_of meaning condition) }
{}

/// A name with `noerror` at a point fails exactly where a type comes in that its set does not mean.
pub fn tells_no_error()
    ensures { (table : Table) (comes : ℕ → ℕ → Bool) (world : World)
        → ((reached : ReachedPoint) → world.points reached ≡ comes_in table comes reached)
        → (reached : ReachedPoint) → truth world (point_pair table true (Some reached)).fails ≡ other_comes_in table comes reached }
{}

/// So it is covered by its meaning: in the strict reading it is true where one of the types of its set comes in, or none at all.
pub fn covers_no_error()
    ensures { (table : Table) (comes : ℕ → ℕ → Bool) (world : World)
        → ((reached : ReachedPoint) → world.points reached ≡ comes_in table comes reached)
        → (reached : ReachedPoint) → Covers world (is_quiet table comes reached) (point_pair table true (Some reached)) }
{}

/// Without `orless` a condition may hold where it does by the first profile.
pub fn first_profile()
    ensures { (meaning : Atom → Pair) (condition : Condition) → is_plain condition ≡ true
        → (pair_of meaning condition).holds ≡ cause_of (λ atom. (meaning atom).holds) condition }
{}
