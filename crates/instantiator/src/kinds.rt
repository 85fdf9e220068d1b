ghost use Rattle.std.specs.Prelude.{◌≡◌, ◌∷◌, ◌++◌, [], length, Some, None, IfOk, IfErr, OnOk, MatchResult, map, option_copied, option_map, option_and_then, slice_get};
ghost use Rattle.component_extension.specs.Items.{classifier_refusals};
ghost use Rattle.instantiator.specs.Components.{parts_of};
ghost use Rattle.instantiator.specs.Effectives.{effective_at, effective_of};
ghost use Rattle.plain_values.specs.inner.Stops.{StopsAt};
ghost use Rattle.instantiator.specs.Refused.{classifier_group, classifier_refusal};
ghost use Rattle.noted_refusals.specs.inner.Noted.{TellsFirst};
ghost use Rattle.instantiator.specs.inner.Tables.{Entered, kind_of};
ghost use Rattle.instantiator.specs.Whole.{kind_place};

use crate::occurrence::{Meant, Part, parts_of};
use component_extension::Effective;
use noted_refusals::Refusals;
use package_index::{ClassifierId, Index};
use plain_values::{Answer, List, Mem, Stop};
use std::alloc::Global;
use std::collections::HashMap;
use std::marker::Model;

/// A classifier of an instance, and its effective classifier, which all components of the classifier share.
#[derive(Drop)]
pub struct Kind<'a> {
    pub classifier: ClassifierId,
    pub effective: Effective<'a>,
}

/// The classifiers of an instance so far, each with its effective classifier. Contracts see the packages, and the
/// classifiers in order.
#[derive(Drop)]
pub(crate) struct Kinds<'i, 'a> {
    index: &'i Index<'a>,
    list: Vec<Kind<'a>>,
    numbers: HashMap<(u32, u32), usize>,
}

impl<'i, 'a> Model for Kinds<'i, 'a> {
    ghost use Rattle.std.specs.Prelude.{map};
    ghost use Rattle.std.specs.Coded.{codes};
    ghost use Rattle.aadl_syntax.specs.contracts.error_model.Condition as condition;
    ghost use Rattle.instantiator.specs.inner.Whole.{Kinds as Seen};

    ghost Value = { Seen };

    ghost coded = { Prim.hlevel (codes, condition.the_row.coded) };

    ghost use Rattle.std.specs.HashMap.{get};
    ghost use Rattle.package_index.specs.inner.Tables.{same_pair};
    ghost use Rattle.instantiator.specs.inner.Tables.{AreKinds};

    ghost view = { λ k. record { packages = k.index.now; ids = map (λ kind. kind.classifier) k.list.items } };

    ghost invariant = { λ k. AreKinds k.index.now k.list.items (get same_pair k.numbers) };
}

impl<'i, 'a> Kinds<'i, 'a> {
    /// No kinds yet.
    pub(crate) fn new(alloc: Global, index: &'i Index<'a>) -> Kinds<'i, 'a>
        ensures { result ≡ record { packages = index.now; ids = [] } }
    {
        Kinds {
            index,
            list: Vec::new(alloc),
            numbers: HashMap::new(alloc),
        }
    }

    /// The number of the kind of what the name of a classifier means, if it means one.
    pub(crate) fn enter(
        &mut self,
        alloc: Global,
        classifier: Meant,
        refusals: &mut Refusals,
    ) -> Answer<Option<usize>>
        ensures entered { MatchResult result (Entered self.old self.new classifier) (StopsAt (classifier_refusal self.old.packages classifier)) }
        ensures told { IfErr result (TellsFirst (classifier_group self.old.packages classifier) refusals.new) }
    {
        match classifier {
            Ok(Some(id)) => Ok(Some(self.enter_id(alloc, id, refusals)?)),
            Ok(None) => Ok(None),
            Err(refusal) => Err(refusals.only(Stop::Refused(refusal))),
        }
    }

    /// The number of the kind of a classifier, which is made unless it is among them.
    fn enter_id(
        &mut self,
        alloc: Global,
        id: ClassifierId,
        refusals: &mut Refusals,
    ) -> Answer<usize>
        ensures entered { MatchResult result (λ number. Entered self.old self.new (Ok (Some id)) (Some number)) (StopsAt (classifier_refusal self.old.packages (Ok (Some id)))) }
        ensures told { IfErr result (TellsFirst (classifier_refusals self.old.packages id) refusals.new) }
    {
        if let Some(number) = self.number(id) {
            return Ok(number);
        }
        let effective = Effective::of(alloc, self.index, id, refusals)?;
        let kind = Kind {
            classifier: id,
            effective,
        };
        Ok(self.add(kind)?)
    }

    /// The number of the kind of a classifier.
    pub(crate) fn number(&self, id: ClassifierId) -> Option<usize>
        ensures { result ≡ kind_place self.now.ids id }
    {
        self.numbers.get(&(id.package, id.decl)).copied()
    }

    /// The kinds, in order.
    pub(crate) fn list(&self) -> &[Kind<'a>]
        ensures { result.now ≡ map (kind_of self.now.packages) self.now.ids }
    {
        self.list.as_slice()
    }

    /// The subcomponents of a component of the kind of a number, in order; none where there is no kind.
    pub(crate) fn parts(&self, alloc: Global, kind: Option<usize>) -> Mem<List<Part<'a>>>
        ensures { IfOk result (λ parts. parts ≡ parts_of self.now.packages (effective_at self.now.packages (option_and_then (slice_get self.now.ids) kind))) }
    {
        match self.effective(kind) {
            Some(effective) => parts_of(alloc, self.index, effective.members.subcomponents.items()),
            None => Ok(List::new(alloc)),
        }
    }

    /// The effective classifier of the kind of a number.
    pub(crate) fn effective(&self, kind: Option<usize>) -> Option<&Effective<'a>>
        ensures { option_copied result ≡ option_map (effective_of self.now.packages) (option_and_then (slice_get self.now.ids) kind) }
    {
        Some(&self.list().get(kind?)?.effective)
    }

    /// The packages.
    pub(crate) fn index(&self) -> &'i Index<'a>
        ensures { result.now ≡ self.now.packages }
    {
        self.index
    }

    /// Adds a kind of a classifier that is not among them.
    fn add(&mut self, kind: Kind<'a>) -> Mem<usize>
        requires effective { kind ≡ kind_of self.old.packages kind.classifier }
        requires new { kind_place self.old.ids kind.classifier ≡ None }
        requires accepted { classifier_refusals self.old.packages kind.classifier ≡ [] }
        ensures kinds { OnOk result (self.new ≡ record self.old { ids = self.old.ids ++ kind.entry.classifier ∷ [] }) }
        ensures number { IfOk result (λ number. number ≡ length self.old.ids) }
    {
        let number = self.list.as_slice().len();
        let id = kind.classifier;
        self.list.reserve(1)?;
        self.numbers.insert((id.package, id.decl), number)?;
        self.list.push(kind)?;
        Ok(number)
    }
}
