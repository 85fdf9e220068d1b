ghost use Rattle.std.specs.Prelude.{◌≡◌, IfOk, None, OnOk, cond, option_copied, option_map};
ghost use Rattle.noted_refusals.specs.inner.Noted.{noting};
ghost use Rattle.propagation_points.specs.Uses.{declared_for, is_absent, is_outside, reach_of, reached, set_outside, use_refusals, used_place, used_side};

use crate::declared::types_in;
use crate::open_point::only_name;
use crate::points::Points;
use crate::side::{Reach, Side, has_other};
use aadl_syntax::{Atom, Identifier, PointRef, TypeSet};
use error_libraries::Scope;
use error_types::Reading;
use plain_values::{Code, Mem, Spot};
use std::alloc::Global;
use std::marker::Model;

/// A point by its place in the list of points, from 0, and the types that are reached at its side.
#[derive(Drop)]
pub struct ReachedPoint {
    pub point: u32,
    pub types: Reach,
}

/// A use of a point by a flow, an outgoing condition or an atom: its names and where they stand, whether outward, the set
/// behind it, and the code of its refusal where there is no such side.
#[derive(Drop)]
pub struct PointUse<'a> {
    names: &'a [Identifier],
    spot: Spot,
    outward: bool,
    set: &'a Option<TypeSet>,
    unknown: Code,
}

impl<'a> Model for PointUse<'a> {
    ghost use Rattle.std.specs.Coded.{codes};
    ghost use Rattle.aadl_syntax.specs.contracts.error_model.Condition as condition;
    ghost use Rattle.propagation_points.specs.Uses.{PointUse as Used};

    ghost Value = { Used };

    ghost coded = { Prim.hlevel (codes, condition.the_row.coded) };

    ghost view = { λ u. record { names = u.names.now; spot = u.spot; outward = u.outward; set = u.set.now; unknown = u.unknown } };
}

impl<'a> PointUse<'a> {
    ghost use Rattle.propagation_points.specs.Uses.{atom_use, point_use};

    /// A point with the set behind it, on its outward or its inward side.
    pub fn new(point: &'a PointRef, outward: bool, set: &'a Option<TypeSet>) -> PointUse<'a>
        ensures { result ≡ point_use point.now outward set.now }
    {
        PointUse {
            names: point.names.items(),
            spot: point.spot,
            outward,
            set,
            unknown: Code::UnknownPoint,
        }
    }

    /// The point of an atom of a condition, on its inward side. Without `in` it might have been an event, so that N12 stands
    /// where there is no such side.
    pub fn of_atom(atom: &'a Atom) -> PointUse<'a>
        ensures { result ≡ atom_use atom.now }
    {
        PointUse {
            names: atom.names.items(),
            spot: atom.spot,
            outward: false,
            set: &atom.set,
            unknown: if atom.inward {
                Code::UnknownPoint
            } else {
                Code::UnknownTrigger
            },
        }
    }

    fn place(&self, points: &Points) -> Option<u32>
        ensures { result ≡ used_place points.now self.now }
    {
        points.place(only_name(self.names)?.text())
    }

    fn side<'p>(&self, points: &'p Points) -> Option<&'p Side>
        ensures { option_copied result ≡ used_side points.now self.now }
    {
        points.declared(only_name(self.names)?.text(), self.outward)
    }
}

/// What a use of a point reaches, where its set is read in this text; none where the component has no such point or not
/// that side.
///
/// Its refusals are noted: at the point, where there is no such side, a dotted name being that of none, N9, or N12 for an
/// atom without `in`; and N10 at a set with a type that is not declared for its side.
pub fn reached<'a>(
    alloc: Global,
    points: &Points,
    reading: &mut Reading<'_, 'a>,
    scope: Option<&Scope>,
    used: &PointUse<'a>,
) -> Mem<Option<ReachedPoint>>
    ensures kept { reading.new.types ≡ reading.old.types }
    ensures reached { IfOk result (λ found. found ≡ reached reading.old.types points.now (option_copied scope.entry) used.now) }
    ensures noted { OnOk result (reading.new.refusals ≡ noting reading.old.refusals (use_refusals reading.old.types points.now (option_copied scope.entry) used.now)) }
{
    let side = used.side(points);
    let is_absent = is_absent(side);
    reading.refusals.note_if(is_absent, used.unknown, used.spot);
    let reach = reach_within(alloc, reading, scope, declared_for(side), used.set)?;
    Ok(reached_at(used.place(points), is_absent, reach))
}

fn reached_at(place: Option<u32>, is_absent: bool, types: Reach) -> Option<ReachedPoint>
    ensures { result ≡ cond is_absent None (option_map (λ place. record { point = place; types = types }) place) }
{
    if is_absent {
        return None;
    }
    match place {
        Some(point) => Some(ReachedPoint { point, types }),
        None => None,
    }
}

/// What a set reaches. N10 is noted where it has a type outside those that are declared, if any are.
pub(crate) fn reach_within<'a>(
    alloc: Global,
    reading: &mut Reading<'_, 'a>,
    scope: Option<&Scope>,
    declared: Option<&[u32]>,
    set: &'a Option<TypeSet>,
) -> Mem<Reach>
    ensures kept { reading.new.types ≡ reading.old.types }
    ensures reach { IfOk result (λ reach. reach ≡ reach_of reading.old.types (option_copied scope.entry) set.now) }
    ensures noted { OnOk result (reading.new.refusals ≡ noting reading.old.refusals (set_outside reading.old.types (option_copied scope.entry) (option_map (λ types. types.now) declared.entry) set.now)) }
{
    let Some(set) = set else {
        return Ok(Reach::Whole);
    };
    let reached = types_in(alloc, &mut reading.types, scope, set)?;
    let is_outside = is_outside(reached.items(), declared);
    reading
        .refusals
        .note_if(is_outside, Code::NotContained, set.spot);
    Ok(Reach::Only(reached))
}

fn is_absent(side: Option<&Side>) -> bool
    ensures { result ≡ is_absent (option_copied side.entry) }
{
    match side {
        Some(Side::Free) => false,
        Some(Side::Declared(_)) => false,
        Some(Side::Absent) => true,
        None => true,
    }
}

/// The types that are declared for a side, if any are.
fn declared_for<'p>(side: Option<&'p Side>) -> Option<&'p [u32]>
    ensures { option_map (λ types. types.now) result ≡ declared_for (option_copied side.entry) }
{
    match side {
        Some(Side::Declared(declared)) => Some(declared.items()),
        Some(Side::Free) => None,
        Some(Side::Absent) => None,
        None => None,
    }
}

fn is_outside(types: &[u32], declared: Option<&[u32]>) -> bool
    ensures { result ≡ is_outside types.now (option_map (λ types. types.now) declared.entry) }
{
    match declared {
        Some(declared) => has_other(declared, types),
        None => false,
    }
}
