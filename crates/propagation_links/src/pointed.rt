ghost use Rattle.std.specs.Prelude.{◌≡◌, [], map, option_copied, option_map, slice_get, unwrap_or};
ghost use Rattle.propagation_points.specs.Points.{place_named, side_of};
ghost use Rattle.propagation_links.specs.Ends.{is_there, points_at};
ghost use Rattle.propagation_links.specs.Unlinked.{has_types, is_declared};

use crate::link::PointAt;
use instantiator::Instance;
use propagation_points::{Point, Points, Side};
use std::marker::Model;

/// An instance, and the points of each of its kinds.
#[derive(Drop)]
pub(crate) struct Pointed<'s, 'i, 'a> {
    instance: &'s Instance<'i, 'a>,
    points: &'s [&'s Points<'a>],
}

impl<'s, 'i, 'a> Model for Pointed<'s, 'i, 'a> {
    ghost use Rattle.std.specs.Prelude.{map};
    ghost use Rattle.std.specs.Coded.{codes};
    ghost use Rattle.aadl_syntax.specs.contracts.error_model.Condition as condition;
    ghost use Rattle.propagation_points.specs.contracts.side.Side as side;
    ghost use Rattle.propagation_links.specs.Ends.{Pointed as Seen};

    ghost Value = { Seen };

    ghost coded = { Prim.hlevel (codes, condition.the_row.coded, side.the_row.coded) };

    ghost view = { λ p. record { instance = p.instance.now; points = map (λ points. points.now) p.points.now } };
}

impl<'s, 'i, 'a> Pointed<'s, 'i, 'a> {
    /// An instance with these points, one for each of its kinds.
    pub(crate) fn new(
        instance: &'s Instance<'i, 'a>,
        points: &'s [&'s Points<'a>],
    ) -> Pointed<'s, 'i, 'a>
        ensures { result ≡ record { instance = instance.now; points = map (λ points. points.now) points.now } }
    {
        Pointed { instance, points }
    }

    /// The instance.
    pub(crate) fn instance(&self) -> &'s Instance<'i, 'a>
        ensures { result.now ≡ self.now.instance }
    {
        self.instance
    }

    /// The place of the point of a name in the list of a component.
    pub(crate) fn place(&self, component: u32, name: &[u8]) -> Option<u32>
        ensures { result ≡ place_named (points_at self.now component) name.now }
    {
        self.points(component)?.place(name)
    }

    /// Whether a side is there.
    pub(crate) fn is_there(&self, side: PointAt) -> bool
        ensures { result ≡ is_there self.now side }
    {
        match self.side(side) {
            Some(Side::Absent) | None => false,
            Some(Side::Free | Side::Declared(_)) => true,
        }
    }

    /// Whether types are declared for a side of the point of a component.
    pub(crate) fn has_types(&self, component: u32, point: u32) -> bool
        ensures { result ≡ has_types self.now component point }
    {
        match self.point(component, point) {
            Some(point) => is_declared(point.side(false)) || is_declared(point.side(true)),
            None => false,
        }
    }

    fn point(&self, component: u32, point: u32) -> Option<&'s Point<'a>>
        ensures { option_copied result ≡ slice_get (points_at self.now component) point }
    {
        self.points(component)?.list().get(point as usize)
    }

    fn side(&self, side: PointAt) -> Option<&'s Side>
        ensures { option_copied result ≡ option_map (side_of side.outward) (slice_get (points_at self.now side.component) side.point) }
    {
        let points = self.points(side.component)?;
        Some(points.list().get(side.point as usize)?.side(side.outward))
    }

    fn points(&self, component: u32) -> Option<&'s Points<'a>>
        ensures { unwrap_or (option_copied result) [] ≡ points_at self.now component }
    {
        self.points.get(self.instance.kind(component)?).copied()
    }
}

/// Whether types are declared for a side.
fn is_declared(side: &Side) -> bool
    ensures { result ≡ is_declared side.now }
{
    match side {
        Side::Absent | Side::Free => false,
        Side::Declared(types) => !types.items().is_empty(),
    }
}
