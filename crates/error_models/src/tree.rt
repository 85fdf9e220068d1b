ghost use Rattle.std.specs.Prelude.{◌≡◌, IfOk, Some, map, option_and_then, option_copied, option_map, position, slice_get};
ghost use Rattle.instantiator.specs.Components.{found};
ghost use Rattle.component_extension.specs.Chain.{same_id};
ghost use Rattle.error_libraries.specs.Libraries.{table_of};
ghost use Rattle.error_machines.specs.States.{states_of};
ghost use Rattle.error_models.specs.Below.{classifier_below, kind_among, kind_machine, kind_parts, kind_states, part_named, parts_at, states_named, step_below};

use aadl_syntax::Identifier;
use composite_states::StatesBelow;
use error_machines::{States, UsedMachine, states_of};
use error_types::TypeTable;
use instantiator::{Instance, Kind, Part, parts_of};
use package_index::ClassifierId;
use plain_values::{List, Mem};
use profiles::Profile;
use propagation_points::Sorts;
use std::alloc::Global;
use std::marker::Model;

/// The kinds of an instance, with their subcomponents and states. Contracts see the kinds, the packages in which they stand, and the
/// profile by which these are read.
#[derive(Drop)]
pub(crate) struct Tree<'t, 'i, 'a> {
    profile: Profile,
    instance: &'t Instance<'i, 'a>,
    parts: List<List<Part<'a>>>,
    states: List<States<'a>>,
    nothing: Sorts<'a>,
}

impl<'t, 'i, 'a> Model for Tree<'t, 'i, 'a> {
    ghost use Rattle.std.specs.Coded.{codes};
    ghost use Rattle.aadl_syntax.specs.contracts.error_model.Condition as condition;
    ghost use Rattle.error_models.specs.inner.Trees.{Tree as Seen};

    ghost Value = { Seen };

    ghost coded = { Prim.hlevel (codes, condition.the_row.coded) };

    ghost use Rattle.std.specs.Prelude.{◌≡◌, []};
    ghost use Rattle.error_models.specs.inner.Trees.{IsTree};

    ghost view = { λ t. record { profile = t.profile; packages = t.instance.now.packages; kinds = t.instance.now.kinds } };

    ghost invariant = { λ t. IsTree t.profile t.instance.now.packages t.instance.now.kinds t.parts t.states × (t.nothing ≡ []) };
}

impl<'t, 'i, 'a> Tree<'t, 'i, 'a> {
    /// The kinds of an instance, which have these machines.
    pub(crate) fn of(
        alloc: Global,
        instance: &'t Instance<'i, 'a>,
        machines: &[Option<UsedMachine<'a>>],
        types: &mut TypeTable<'_, 'a>,
    ) -> Mem<Tree<'t, 'i, 'a>>
        requires machines { machines.now ≡ map (kind_machine instance.now.packages) instance.now.kinds }
        requires table { types.old ≡ table_of types.old.profile instance.now.packages }
        ensures kept { types.new ≡ types.old }
        ensures tree { IfOk result (λ tree. tree ≡ record { profile = types.old.profile; packages = instance.now.packages; kinds = instance.now.kinds }) }
    {
        let profile = types.profile();
        let parts = all_parts(alloc, instance)?;
        let states = all_states(alloc, machines, types)?;
        Ok(Tree {
            profile,
            instance,
            parts,
            states,
            nothing: Sorts::new(alloc),
        })
    }

    /// The number of the kind of a classifier, if the instance has such components.
    fn number(&self, id: ClassifierId) -> Option<usize>
        ensures { option_and_then (slice_get self.now.kinds) result ≡ kind_among self.now.kinds id }
    {
        kind_number(self.instance, id)
    }

    /// The subcomponents of a component of a classifier.
    fn parts(&self, classifier: Option<ClassifierId>) -> Option<&List<Part<'a>>>
        ensures { option_copied result ≡ option_map (kind_parts self.now.packages) (option_and_then (kind_among self.now.kinds) classifier) }
    {
        self.parts.items().get(self.number(classifier?)?)
    }

    /// The classifier of the subcomponent of a name, if there is such a subcomponent; it may lack a classifier.
    fn step(
        &self,
        classifier: Option<ClassifierId>,
        name: &Identifier,
    ) -> Option<Option<ClassifierId>>
        ensures { result ≡ step_below self.now.packages self.now.kinds classifier name.now }
    {
        match self.part(classifier, name) {
            Some(part) => Some(found(part)),
            None => None,
        }
    }

    /// The subcomponent of a name of a component of a classifier.
    fn part(&self, classifier: Option<ClassifierId>, name: &Identifier) -> Option<&Part<'a>>
        ensures { option_copied result ≡ part_named name.now (parts_at self.now.packages self.now.kinds classifier) }
    {
        match self.parts(classifier) {
            Some(parts) => part_named(parts.items(), name),
            None => None,
        }
    }

    /// The classifier of the component to which names lead from a component of a classifier, if they lead to one.
    fn classifier_below(
        &self,
        classifier: ClassifierId,
        path: &[Identifier],
    ) -> Option<Option<ClassifierId>>
        ensures { result ≡ classifier_below self.now.packages self.now.kinds (Some classifier) path.now }
    {
        let mut current = Some(classifier);
        for name in path {
            current = self.step(current, name)?;
        }
        Some(current)
    }

    /// The states of a component of a classifier.
    fn states_named(&self, classifier: Option<ClassifierId>) -> Option<&Sorts<'a>>
        ensures { option_copied result ≡ states_named self.now.profile self.now.packages self.now.kinds classifier }
    {
        match classifier {
            Some(id) => self.kind_states(id),
            None => Some(&self.nothing),
        }
    }

    fn kind_states(&self, id: ClassifierId) -> Option<&Sorts<'a>>
        ensures { option_copied result ≡ option_map (λ kind. (kind_states self.now.profile self.now.packages kind).sorts) (kind_among self.now.kinds id) }
    {
        let states = self.states.items().get(self.number(id)?)?;
        Some(&states.sorts)
    }
}

/// The classifier of a subcomponent, if it has one that is found.
fn found(part: &Part) -> Option<ClassifierId>
    ensures { result ≡ found part.now.classifier }
{
    match part.classifier() {
        Ok(classifier) => classifier,
        Err(_) => None,
    }
}

/// The first subcomponent of a name.
fn part_named<'p, 'a>(parts: &'p [Part<'a>], name: &Identifier) -> Option<&'p Part<'a>>
    ensures { option_copied result ≡ part_named name.now parts.now }
{
    parts.iter().find(|part| part.name().is(name))
}

/// The number of the kind of a classifier.
fn kind_number(instance: &Instance, id: ClassifierId) -> Option<usize>
    ensures { option_and_then (slice_get instance.now.kinds) result ≡ kind_among instance.now.kinds id }
{
    place_of(instance.kinds(), id)
}

fn place_of(kinds: &[Kind], id: ClassifierId) -> Option<usize>
    ensures { result ≡ position (λ kind. same_id id kind.classifier) kinds.now }
{
    kinds.iter().position(|kind| same_id(id, kind.classifier))
}

fn same_id(a: ClassifierId, b: ClassifierId) -> bool
    ensures { result ≡ same_id a b }
{
    a.package == b.package && a.decl == b.decl
}

/// The subcomponents of each kind.
fn all_parts<'a>(alloc: Global, instance: &Instance<'_, 'a>) -> Mem<List<List<Part<'a>>>>
    ensures { IfOk result (λ parts. parts ≡ map (kind_parts instance.now.packages) instance.now.kinds) }
{
    let mut parts = List::new(alloc);
    for kind in instance.kinds() {
        let members = kind.effective.members.subcomponents.items();
        parts.push(parts_of(alloc, instance.index(), members)?)?;
    }
    Ok(parts)
}

/// The states of kinds that have these machines.
fn all_states<'a>(
    alloc: Global,
    machines: &[Option<UsedMachine<'a>>],
    types: &mut TypeTable<'_, 'a>,
) -> Mem<List<States<'a>>>
    ensures kept { types.new ≡ types.old }
    ensures states { IfOk result (λ states. states ≡ map (states_of types.old) machines.now) }
{
    let mut states = List::new(alloc);
    for machine in machines {
        states.push(states_of(alloc, types, machine)?)?;
    }
    Ok(states)
}

/// A component of a classifier, and what lies below it.
#[derive(Drop)]
pub(crate) struct BelowKind<'b, 't, 'i, 'a> {
    pub(crate) tree: &'b Tree<'t, 'i, 'a>,
    pub(crate) classifier: ClassifierId,
}

impl<'b, 't, 'i, 'a> Model for BelowKind<'b, 't, 'i, 'a> {
    ghost use Rattle.std.specs.Coded.{codes};
    ghost use Rattle.aadl_syntax.specs.contracts.error_model.Condition as condition;
    ghost use Rattle.error_models.specs.inner.Trees.{Below};

    ghost Value = { Below };

    ghost coded = { Prim.hlevel (codes, condition.the_row.coded) };

    ghost view = { λ b. record { tree = b.tree.now; classifier = b.classifier } };
}

impl<'b, 't, 'i, 'a> StatesBelow<'a> for BelowKind<'b, 't, 'i, 'a> {
    ghost use Rattle.std.specs.Prelude.{Some};
    ghost use Rattle.error_models.specs.Below.{states_below};

    ghost states_at = { λ below. states_below below.tree.profile below.tree.packages below.tree.kinds (Some below.classifier) };

    fn states_at(&self, path: &[Identifier]) -> Option<&Sorts<'a>> {
        let below = self.tree.classifier_below(self.classifier, path)?;
        self.tree.states_named(below)
    }
}
