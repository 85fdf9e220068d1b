ghost use Rattle.std.specs.Prelude.{◌≡◌, IfOk, OnOk, flat_map, map};
ghost use Rattle.noted_refusals.specs.inner.Noted.{noting};
ghost use Rattle.error_conditions.specs.Conditions.{condition_refusals, pair_of};
ghost use Rattle.error_conditions.specs.inner.Sides.{at_side};

use crate::cause::Cause;
use crate::counted::{all_of, any_of, at_least, at_most};
use crate::side::Side;
use aadl_syntax::{Atom, Condition};
use error_types::Reading;
use plain_values::{Code, List, Mem};
use std::alloc::Global;

/// What the named parts of a condition mean where it stands.
pub trait Atoms {
    ghost use Rattle.std.specs.Prelude.{◌≡◌, List, IfOk, OnOk};
    ghost use Rattle.noted_refusals.specs.inner.Noted.{noting};
    ghost use Rattle.aadl_syntax.specs.declared.error_model.Atom.{Atom as Named};
    ghost use Rattle.plain_values.specs.declared.refusal.Refusal.{Refusal};
    ghost use Rattle.error_libraries.specs.Libraries.{Table};
    ghost use Rattle.error_conditions.specs.Conditions.{Pair};
    ghost use Rattle.error_conditions.specs.inner.Sides.{at_side};

    ghost meaning: { Self → Table → Named → Pair };

    ghost faults: { Self → Table → Named → List Refusal };

    /// A side of the meaning of a named part. Its refusals are noted.
    fn meaning<'a>(
        &self,
        alloc: Global,
        side: Side,
        reading: &mut Reading<'_, 'a>,
        atom: &'a Atom,
    ) -> Mem<Cause>
        ensures kept { reading.new.types ≡ reading.old.types }
        ensures meaning { IfOk result (λ cause. cause ≡ at_side side (meaning self.now reading.old.types atom.now)) }
        ensures noted { OnOk result (reading.new.refusals ≡ noting reading.old.refusals (faults self.now reading.old.types atom.now)) };
}

/// A side of the meaning of a condition, from those of its named parts. Their refusals are noted, and by the first profile P5 at
/// each `orless`.
#[cycle(condition)]
pub fn cause_of<'a, A: Atoms>(
    alloc: Global,
    atoms: &A,
    side: Side,
    reading: &mut Reading<'_, 'a>,
    condition: &'a Condition,
) -> Mem<Cause>
    ensures kept { reading.new.types ≡ reading.old.types }
    ensures cause { IfOk result (λ cause. cause ≡ at_side side (pair_of (A.meaning atoms.now reading.old.types) condition.now)) }
    ensures noted { OnOk result (reading.new.refusals ≡ noting reading.old.refusals (condition_refusals reading.old.types.profile (A.faults atoms.now reading.old.types) condition.now)) }
{
    match condition {
        Condition::Atom(atom) => atoms.meaning(alloc, side, reading, atom),
        Condition::All(parts) => {
            let causes = causes_of(alloc, atoms, side, reading, parts.items())?;
            Ok(all_of(side, causes))
        }
        Condition::Any(parts) => {
            let causes = causes_of(alloc, atoms, side, reading, parts.items())?;
            Ok(any_of(side, causes))
        }
        Condition::AtLeast(least, parts) => {
            let causes = causes_of(alloc, atoms, side, reading, parts.items())?;
            Ok(at_least(side, *least, causes)?)
        }
        Condition::AtMost(most, parts, spot) => {
            let refused = reading.types.profile().is_first();
            reading.refusals.note_if(refused, Code::OrLess, *spot);
            let causes = causes_of(alloc, atoms, side.other(), reading, parts.items())?;
            Ok(at_most(side, *most, causes)?)
        }
    }
}

/// A side of the meaning of each part of a condition. Their refusals are noted.
#[cycle(condition)]
fn causes_of<'a, A: Atoms>(
    alloc: Global,
    atoms: &A,
    side: Side,
    reading: &mut Reading<'_, 'a>,
    parts: &'a [Condition],
) -> Mem<List<Cause>>
    ensures kept { reading.new.types ≡ reading.old.types }
    ensures causes { IfOk result (λ causes. causes ≡ map (at_side side) (map (pair_of (A.meaning atoms.now reading.old.types)) parts.now)) }
    ensures noted { OnOk result (reading.new.refusals ≡ noting reading.old.refusals (flat_map (condition_refusals reading.old.types.profile (A.faults atoms.now reading.old.types)) parts.now)) }
{
    let mut causes = List::new(alloc);
    for part in parts {
        causes.push(cause_of(alloc, atoms, side, reading, part)?)?;
    }
    Ok(causes)
}
