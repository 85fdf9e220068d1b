//! The components around components, and what parts of one kind have in common.

ghost use Rattle.std.specs.Prelude.{◌≡◌, ◌++◌, ◌∷◌, [], IfOk, OnOk, map, nat_eq, false, None, slice_index_or};
ghost use Rattle.std.specs.Option.{option_map_or};
ghost use Rattle.instantiator.specs.Whole.{classifier_at, kind_number};
ghost use Rattle.uneven_parts.specs.Unlike.{around, around_path, arounds, likeness, likeness_in, stands_in};

use instantiator::{Component, Instance};
use model_facts::{FactKey, FactKind};
use plain_values::{List, Mem};
use std::alloc::Global;
use std::marker::Model;

/// An instance, with the components around its components. Contracts see the instance.
#[derive(Drop)]
pub(crate) struct Parts<'i> {
    instance: &'i Instance<'i, 'i>,
    around_each: List<Option<u32>>,
}

impl<'i> Model for Parts<'i> {
    ghost use Rattle.std.specs.Prelude.{◌≡◌};
    ghost use Rattle.std.specs.Coded.{codes};
    ghost use Rattle.aadl_syntax.specs.contracts.error_model.Condition as condition;
    ghost use Rattle.instantiator.specs.Whole.{Instance as Seen};
    ghost use Rattle.uneven_parts.specs.Unlike.{arounds};

    ghost Value = { Seen };

    ghost coded = { Prim.hlevel (codes, condition.the_row.coded) };

    ghost view = { λ p. p.instance.now };

    ghost invariant = { λ p. p.around_each ≡ arounds p.instance.now };
}

impl<'i> Parts<'i> {
    /// Of an instance.
    pub(crate) fn of(alloc: Global, instance: &'i Instance<'i, 'i>) -> Mem<Parts<'i>>
        ensures { IfOk result (λ parts. parts ≡ instance.now) }
    {
        let around_each = arounds(alloc, instance)?;
        Ok(Parts {
            instance,
            around_each,
        })
    }

    /// Whether a component stands right in another one.
    pub(crate) fn stands_in(&self, number: u32, other: u32) -> bool
        ensures { result ≡ stands_in self.now number other }
    {
        match self.around(number) {
            Some(around) => other == around,
            None => false,
        }
    }

    /// The component around that of a number.
    fn around(&self, number: u32) -> Option<u32>
        ensures { result ≡ around self.now number }
    {
        match self.around_each.items().get(number as usize) {
            Some(around) => *around,
            None => None,
        }
    }

    /// What a fact has in common with those of other parts, if it is a state of a part.
    pub(crate) fn likeness(&self, fact: FactKey) -> Option<(u32, usize, u32)>
        ensures { result ≡ likeness self.now fact }
    {
        likeness_in(
            self.around(fact.owner),
            self.instance.kind(fact.owner),
            fact.kind,
        )
    }
}

fn likeness_in(
    around: Option<u32>,
    kind: Option<usize>,
    fact: FactKind,
) -> Option<(u32, usize, u32)>
    ensures { result ≡ likeness_in around kind fact }
{
    let around = around?;
    let kind = kind?;
    match fact {
        FactKind::State(state) => Some((around, kind, state)),
        FactKind::Enters(_, _) | FactKind::Exits(_, _) => None,
    }
}

/// The components around those of an instance, in order.
fn arounds(alloc: Global, instance: &Instance) -> Mem<List<Option<u32>>>
    ensures { IfOk result (λ found. found ≡ arounds instance.now) }
{
    arounds_of(alloc, instance, instance.components())
}

fn arounds_of(
    alloc: Global,
    instance: &Instance,
    components: &[Component],
) -> Mem<List<Option<u32>>>
    ensures { IfOk result (λ found. found ≡ map (λ component. around_path instance.now.components component.path) components.now) }
{
    let mut found = List::new(alloc);
    for component in components {
        found.push(around_path(instance, component))?;
    }
    Ok(found)
}

/// The component around a component.
fn around_path(instance: &Instance, component: &Component) -> Option<u32>
    ensures { result ≡ around_path instance.now.components component.now.path }
{
    let (_, around) = component.path.names().split_last()?;
    instance.find(around)
}
