//! Where what a component has is declared.

ghost use Rattle.std.specs.Prelude.{◌≡◌, IfOk, option_copied};
ghost use Rattle.event_origins.specs.Origins.{origin_of};
ghost use Rattle.event_origins.specs.Places.{declarations_at, fact_spot, or_else, side_named, side_spot, state_spot};

use crate::kinds::{Declarations, declarations_of_kinds};
use crate::origins::origin_of;
use model_facts::{Assembly, EventKey, FactKey, FactKind, point_name, state_name};
use plain_values::{List, Mem, Spot};
use propagation_links::PointAt;
use std::alloc::Global;
use std::marker::Model;

/// A model with the declarations of its kinds, by which places are found at once. Contracts see the model.
#[derive(Drop)]
pub struct ModelPlaces<'m> {
    assembly: &'m Assembly<'m>,
    kinds: List<Declarations<'m>>,
}

impl<'m> Model for ModelPlaces<'m> {
    ghost use Rattle.std.specs.Coded.{codes};
    ghost use Rattle.std.specs.Prelude.{◌≡◌, map};
    ghost use Rattle.aadl_syntax.specs.contracts.error_model.Condition as condition;
    ghost use Rattle.propagation_points.specs.contracts.side.Side as side;
    ghost use Rattle.error_conditions.specs.contracts.cause.Cause as cause;
    ghost use Rattle.model_facts.specs.Assembly.{Assembly as Seen};
    ghost use Rattle.event_origins.specs.Declarations.{declarations_of};

    ghost Value = { Seen };

    ghost coded = { Prim.hlevel (codes, condition.the_row.coded, side.the_row.coded, cause.the_row.coded) };

    ghost view = { λ p. p.assembly.now };

    ghost invariant = { λ p. p.kinds ≡ map (declarations_of p.assembly.now.instance.packages) p.assembly.now.instance.kinds };
}

impl<'m> ModelPlaces<'m> {
    /// Of a model.
    pub fn of(alloc: Global, assembly: &'m Assembly<'m>) -> Mem<ModelPlaces<'m>>
        ensures { IfOk result (λ places. places ≡ assembly.now) }
    {
        let kinds = declarations_of_kinds(alloc, assembly.instance())?;
        Ok(ModelPlaces { assembly, kinds })
    }

    /// The model.
    pub fn assembly(&self) -> &'m Assembly<'m>
        ensures { result.now ≡ self.now }
    {
        self.assembly
    }

    /// Where the declaration of an event stands.
    pub fn event(&self, alloc: Global, event: EventKey) -> Mem<Option<Spot>>
        ensures { IfOk result (λ spot. spot ≡ (origin_of self.now event).spot) }
    {
        let origin = origin_of(alloc, self.assembly, self.kinds.items(), event)?;
        Ok(origin.spot)
    }

    /// Where that is declared of which a fact is.
    pub fn fact(&self, fact: FactKey) -> Option<Spot>
        ensures { result ≡ fact_spot self.now fact }
    {
        match fact.kind {
            FactKind::State(state) => self.state(fact.owner, state),
            FactKind::Enters(point, _) => self.side(PointAt {
                component: fact.owner,
                point,
                outward: false,
            }),
            FactKind::Exits(point, _) => self.side(PointAt {
                component: fact.owner,
                point,
                outward: true,
            }),
        }
    }

    /// Where a side is declared.
    pub fn side(&self, side: PointAt) -> Option<Spot>
        ensures { result ≡ side_spot self.now side }
    {
        let declarations = self.declarations(side.component)?;
        let name = point_name(self.assembly, side.component, side.point);
        side_named(declarations, side.outward, name)
    }

    /// Where a state of a component is declared.
    pub fn state(&self, owner: u32, state: u32) -> Option<Spot>
        ensures { result ≡ state_spot self.now owner state }
    {
        let declarations = self.declarations(owner)?;
        declarations
            .states
            .spot_named(state_name(self.assembly, owner, state))
    }

    /// The declarations of the component of a number.
    fn declarations(&self, component: u32) -> Option<&Declarations<'m>>
        ensures { option_copied result ≡ declarations_at self.now.instance component }
    {
        let number = self.assembly.instance().kind(component)?;
        self.kinds.items().get(number)
    }
}

/// Where a side of the point of a name is declared: by the first propagation of the point in this direction, or else by the feature or the
/// propagation point of the name.
fn side_named(declarations: &Declarations, outward: bool, name: &[u8]) -> Option<Spot>
    ensures { result ≡ side_named outward name.now declarations.now }
{
    let sides = if outward {
        &declarations.outward
    } else {
        &declarations.inward
    };
    or_else(
        sides.spot_named(name),
        declarations.features.spot_named(name),
    )
}

/// The first of two places.
fn or_else(spot: Option<Spot>, other: Option<Spot>) -> Option<Spot>
    ensures { result ≡ or_else spot other }
{
    match spot {
        Some(spot) => Some(spot),
        None => other,
    }
}
