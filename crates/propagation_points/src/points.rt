ghost use Rattle.std.specs.Prelude.{◌≡◌, [], IfOk, OnOk, flat_map, map, fold, option_copied, option_map};
ghost use Rattle.noted_refusals.specs.inner.Noted.{noting};
ghost use Rattle.package_index.specs.Names.{only};
ghost use Rattle.propagation_points.specs.Points.{fault_at, keep_first, place_named, point_refusals, point_named, points_of, propagation_refusals, side_of, side_with, with_sides};
ghost use Rattle.propagation_points.specs.inner.Points.{NamesDiffer};

use crate::declared::DeclaredSides;
use crate::open_point::{OpenPoint, only_name, open_points};
use crate::point::Point;
use crate::side::Side;
use aadl_syntax::PointItem;
use component_extension::{Effective, InClause};
use error_types::{Reading, TypeTable};
use noted_refusals::Refusals;
use plain_values::{Code, List, Mem};
use std::alloc::Global;
use std::collections::HashMap;
use std::marker::Model;

/// The points of a component by name. Contracts see them as a list: its features, then its own points, then the words
/// for which a propagation stands.
#[derive(Drop)]
pub struct Points<'a> {
    list: List<Point<'a>>,
    places: HashMap<&'a [u8], u32>,
}

impl<'a> Model for Points<'a> {
    ghost use Rattle.std.specs.Prelude.{List};
    ghost use Rattle.std.specs.Coded.{codes};
    ghost use Rattle.std.specs.HashMap.{get};
    ghost use Rattle.package_index.specs.inner.Tables.{same_text};
    ghost use Rattle.propagation_points.specs.contracts.side.Side as side;
    ghost use Rattle.propagation_points.specs.Points.{Point as Sides};
    ghost use Rattle.propagation_points.specs.inner.Tables.{KnowsNames};

    ghost Value = { List Sides };

    ghost coded = { Prim.hlevel (codes, side.the_row.coded) };

    ghost view = { λ p. p.list };

    ghost invariant = { λ p. KnowsNames (λ point. point.name) p.list (get same_text p.places) };
}

impl<'a> Points<'a> {
    /// No points, as those of a component without a classifier.
    pub fn new(alloc: Global) -> Points<'a>
        ensures { result ≡ [] }
    {
        Points {
            list: List::new(alloc),
            places: HashMap::new(alloc),
        }
    }

    /// The points, in order. No two of them have one name.
    pub fn list(&self) -> &[Point<'a>]
        ensures list { result.now ≡ self.now }
        ensures differ { NamesDiffer (λ point. point.name) self.now }
    {
        self.list.items()
    }

    /// The place of the point of a name in the list.
    pub fn place(&self, name: &[u8]) -> Option<u32>
        ensures { result ≡ place_named self.now name.now }
    {
        self.places.get(name).copied()
    }

    /// The point of a name.
    pub fn find(&self, name: &[u8]) -> Option<&Point<'a>>
        ensures { option_copied result ≡ point_named self.now name.now }
    {
        self.list.items().get(self.place(name)? as usize)
    }

    /// The side of a point in a direction, outward or not; `None` where there is no point of this name.
    pub fn declared(&self, point: &[u8], outward: bool) -> Option<&Side>
        ensures { option_copied result ≡ option_map (side_of outward) (point_named self.now point.now) }
    {
        Some(self.find(point)?.side(outward))
    }

    /// The points with one more at the end, unless there is one of its name.
    fn with(self, point: Point<'a>) -> Mem<Points<'a>>
        ensures { IfOk result (λ points. points ≡ keep_first self.entry point.entry) }
    {
        let name = point.name().text();
        if self.place(name).is_some() {
            return Ok(self);
        }
        let Points {
            mut list,
            mut places,
        } = self;
        let count = list.items().len() as u32;
        places.insert(name, count)?;
        list.push(point)?;
        Ok(Points { list, places })
    }
}

/// The points of a component, with the sides that its propagations declare.
///
/// The refusals of its points are noted: N9 where a propagation, also one with `not`, stands at a point that the
/// component does not have, and P3 at a dotted point of a propagation; both at the point's name.
pub fn points_of<'a>(
    alloc: Global,
    effective: &Effective<'a>,
    reading: &mut Reading<'_, 'a>,
) -> Mem<Points<'a>>
    ensures kept { reading.new.types ≡ reading.old.types }
    ensures points { IfOk result (λ points. points ≡ points_of reading.old.types effective.now) }
    ensures noted { OnOk result (reading.new.refusals ≡ noting reading.old.refusals (point_refusals reading.old.types effective.now)) }
{
    let points = made_points(alloc, effective, &mut reading.types)?;
    note_propagations(
        &mut reading.refusals,
        &points,
        effective.propagations.points.items(),
    );
    Ok(points)
}

fn made_points<'a>(
    alloc: Global,
    effective: &Effective<'a>,
    types: &mut TypeTable<'_, 'a>,
) -> Mem<Points<'a>>
    ensures kept { types.new ≡ types.old }
    ensures points { IfOk result (λ points. points ≡ points_of types.old effective.now) }
{
    let points = open_points(alloc, effective)?;
    let declared = DeclaredSides::of(alloc, effective, types)?;
    first_points(alloc, types, &declared, points.as_slice())
}

/// The points with their sides, the first of each name.
fn first_points<'a>(
    alloc: Global,
    types: &mut TypeTable<'_, 'a>,
    declared: &DeclaredSides<'_, 'a>,
    open_points: &[OpenPoint<'a>],
) -> Mem<Points<'a>>
    ensures kept { types.new ≡ types.old }
    ensures points { IfOk result (λ points. points ≡ fold keep_first [] (map (with_sides types.old declared.now.scopes declared.now.items) open_points.now)) }
{
    let mut points = Points::new(alloc);
    for point in open_points {
        points = points.with(with_sides(alloc, types, declared, point)?)?;
    }
    Ok(points)
}

fn with_sides<'a>(
    alloc: Global,
    types: &mut TypeTable<'_, 'a>,
    declared: &DeclaredSides<'_, 'a>,
    point: &OpenPoint<'a>,
) -> Mem<Point<'a>>
    ensures kept { types.new ≡ types.old }
    ensures point { IfOk result (λ made. made ≡ with_sides types.old declared.now.scopes declared.now.items point.now) }
{
    let name = point.name();
    let inward = declared.types(alloc, types, false, name.text())?;
    let outward = declared.types(alloc, types, true, name.text())?;
    Ok(Point::new(
        name,
        side_with(point.inward(), inward),
        side_with(point.outward(), outward),
    ))
}

fn side_with(is_open: bool, types: Option<List<u32>>) -> Side
    ensures { result ≡ side_with is_open types }
{
    match types {
        Some(types) => Side::Declared(types),
        None if is_open => Side::Free,
        None => Side::Absent,
    }
}

/// Notes the refusals of propagations at these points.
fn note_propagations<'a>(
    refusals: &mut Refusals,
    points: &Points<'a>,
    propagations: &[InClause<'a, PointItem>],
)
    ensures { refusals.new ≡ noting refusals.old (flat_map (propagation_refusals points.now) propagations.now) }
{
    for propagation in propagations {
        note_propagation(refusals, points, propagation.item());
    }
}

fn note_propagation(refusals: &mut Refusals, points: &Points, propagation: &PointItem)
    ensures { refusals.new ≡ noting refusals.old (fault_at points.now propagation.now.point (only propagation.now.point.names)) }
{
    let spot = propagation.point.spot;
    match only_name(propagation.point.names.items()) {
        Some(name) => {
            let is_unknown = points.place(name.text()).is_none();
            refusals.note_if(is_unknown, Code::UnknownPoint, spot);
        }
        None => refusals.note_if(true, Code::FeatureGroup, spot),
    }
}
