ghost use Rattle.std.specs.Prelude.{◌≡◌, ◌≤◌, None, IfOk, IfErr, OnOk, length, map, option_and_then, option_copied, option_map, slice_get};
ghost use Rattle.instantiator.specs.Components.{component_below};
ghost use Rattle.instantiator.specs.Effectives.{effective_of};
ghost use Rattle.plain_values.specs.inner.Stops.{StopsAt};
ghost use Rattle.instantiator.specs.Refused.{instance_group, instance_refusal};
ghost use Rattle.noted_refusals.specs.inner.Noted.{TellsFirst};
ghost use Rattle.instantiator.specs.inner.Tables.{kind_of};
ghost use Rattle.instantiator.specs.Whole.{classifier_at, instance_of, kind_number, kinds_of};
ghost use Rattle.instantiator.specs.inner.Whole.{ParentsComeFirst, PathsDiffer};

use crate::draft::Draft;
use crate::kinds::{Kind, Kinds};
use crate::occurrence::Occurrence;
use crate::path::Component;
use crate::preorder::add_all;
use crate::steps::{StepTable, Steps, numbers_of};
use aadl_syntax::Identifier;
use component_extension::Effective;
use noted_refusals::Refusals;
use package_index::{ClassifierId, Index};
use plain_values::{Answer, List};
use std::alloc::Global;
use std::marker::Model;

/// The instance of a root (AS5506: the system instance): its components in preorder, and the effective classifiers that
/// they have. Contracts see the packages, the components, and their classifiers, each once. Components are named by their
/// places from 0, and kinds too.
#[derive(Drop)]
pub struct Instance<'i, 'a> {
    kinds: Kinds<'i, 'a>,
    components: List<Component<'a>>,
    numbers: StepTable<'a>,
}

impl<'i, 'a> Model for Instance<'i, 'a> {
    ghost use Rattle.std.specs.Coded.{codes};
    ghost use Rattle.aadl_syntax.specs.contracts.error_model.Condition as condition;
    ghost use Rattle.instantiator.specs.Whole.{Instance as Seen};

    ghost Value = { Seen };

    ghost coded = { Prim.hlevel (codes, condition.the_row.coded) };

    ghost use Rattle.std.specs.HashMap.{get};
    ghost use Rattle.instantiator.specs.inner.Tables.{IsInstance, same_step};

    ghost view = { λ i. record { packages = i.kinds.packages; components = i.components; kinds = i.kinds.ids } };

    ghost invariant = { λ i. IsInstance i.components i.kinds.ids (get same_step i.numbers) };
}

impl<'i, 'a> Instance<'i, 'a> {
    /// The instance of a root classifier of the index.
    ///
    /// The components are tested in preorder, and the first that is refused decides: M4 where it is the 4,097th, M5 where
    /// its path has more than 32 names after `root`, both at its name in its nearest declaration; then N2 or N3 where the
    /// name of its classifier means none; then what is refused of its classifier's chain and members, as `Effective::of`
    /// has it. The refusals of its group are noted, in place of what was noted before.
    pub fn of(
        alloc: Global,
        index: &'i Index<'a>,
        root: ClassifierId,
        refusals: &mut Refusals,
    ) -> Answer<Instance<'i, 'a>>
        ensures instance { IfOk result (λ instance. instance ≡ instance_of index.now root) }
        ensures accepted { OnOk result (instance_refusal index.now root ≡ None) }
        ensures refused { IfErr result (StopsAt (instance_refusal index.now root)) }
        ensures told { IfErr result (TellsFirst (instance_group index.now root) refusals.new) }
    {
        let mut draft = Draft::new(alloc, index);
        let one = Occurrence::root(alloc, root);
        add_all(alloc, &mut draft, &one, refusals)?;
        let Draft { kinds, components } = draft;
        let numbers = numbers_of(alloc, components.items())?;
        Ok(Instance {
            kinds,
            components,
            numbers,
        })
    }

    /// The index of the packages.
    pub fn index(&self) -> &'i Index<'a>
        ensures { result.now ≡ self.now.packages }
    {
        self.kinds.index()
    }

    /// The components in preorder, of which there are at most 4,096. No two have one path, and the path of each without
    /// its last name is that of an earlier one.
    pub fn components(&self) -> &[Component<'a>]
        ensures components { result.now ≡ self.now.components }
        ensures few { length self.now.components ≤ 4096 }
        ensures differ { PathsDiffer self.now.components }
        ensures behind { ParentsComeFirst self.now.components }
    {
        self.components.items()
    }

    /// The kinds: the classifiers of the components, each once, in the order in which they first come, with their
    /// effective classifiers.
    pub fn kinds(&self) -> &[Kind<'a>]
        ensures kinds { result.now ≡ map (kind_of self.now.packages) self.now.kinds }
        ensures whole { self.now.kinds ≡ kinds_of self.now.components }
    {
        self.kinds.list()
    }

    /// The number of the kind of a component, if there is such a component and it has a classifier.
    pub fn kind(&self, component: u32) -> Option<usize>
        ensures number { result ≡ kind_number self.now.kinds (classifier_at self.now component) }
        ensures there { option_and_then (slice_get self.now.kinds) result ≡ classifier_at self.now component }
    {
        let id = self.classifier(component)?;
        self.kinds.number(id)
    }

    /// The classifier of a component, if there is such a component and it has one.
    pub fn classifier(&self, component: u32) -> Option<ClassifierId>
        ensures { result ≡ classifier_at self.now component }
    {
        self.components.items().get(component as usize)?.classifier
    }

    /// The effective classifier of a component, if there is such a component and it has a classifier.
    pub fn effective(&self, component: u32) -> Option<&Effective<'a>>
        ensures { option_copied result ≡ option_map (effective_of self.now.packages) (classifier_at self.now component) }
    {
        self.kinds.effective(self.kind(component))
    }

    /// The number of the component that these names lead to from a component: by a subcomponent of the first name, one of
    /// that of the next, and so on.
    pub fn find_below(&self, component: u32, names: &[Identifier]) -> Option<u32>
        ensures { result ≡ component_below self.now.components component names.now }
    {
        self.steps().below(component, names)
    }

    /// The number of the component of a path.
    pub fn find(&self, path: &[&Identifier]) -> Option<u32>
        ensures { result ≡ component_below self.now.components 0 (map (λ name. name.now) path.now) }
    {
        self.steps().below(0, path)
    }

    fn steps(&self) -> Steps<'_, 'a>
        ensures components { result ≡ self.now.components }
        ensures differ { PathsDiffer self.now.components }
        ensures behind { ParentsComeFirst self.now.components }
    {
        Steps::new(self.components.items(), &self.numbers)
    }
}
