ghost use Rattle.std.specs.Prelude.{◌≡◌};

use crate::side::Side;
use aadl_syntax::Identifier;
use std::marker::Model;

/// A point of a component: its name, which is borrowed from the text, and its two sides.
#[derive(Drop)]
pub struct Point<'a> {
    name: &'a Identifier,
    inward: Side,
    outward: Side,
}

impl<'a> Model for Point<'a> {
    ghost use Rattle.std.specs.Coded.{codes};
    ghost use Rattle.propagation_points.specs.contracts.side.Side as side;
    ghost use Rattle.propagation_points.specs.Points.{Point as Sides};

    ghost Value = { Sides };

    ghost coded = { Prim.hlevel (codes, side.the_row.coded) };

    ghost view = { λ p. record { name = p.name.now; inward = p.inward; outward = p.outward } };
}

impl<'a> Point<'a> {
    ghost use Rattle.propagation_points.specs.Points.{side_of};

    pub(crate) fn new(name: &'a Identifier, inward: Side, outward: Side) -> Point<'a>
        ensures { result ≡ record { name = name.now; inward = inward; outward = outward } }
    {
        Point {
            name,
            inward,
            outward,
        }
    }

    /// The name.
    pub fn name(&self) -> &'a Identifier
        ensures { result.now ≡ self.now.name }
    {
        self.name
    }

    /// The side of a direction.
    pub fn side(&self, outward: bool) -> &Side
        ensures { result.now ≡ side_of outward self.now }
    {
        if outward { &self.outward } else { &self.inward }
    }
}
