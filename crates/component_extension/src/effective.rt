ghost use Rattle.std.specs.Prelude.{◌≡◌, ◌++◌, [], Contains, IfOk, IfErr, OnOk};
ghost use Rattle.noted_refusals.specs.inner.Noted.{Tells, noting};
ghost use Rattle.plain_values.specs.inner.Stops.{StopsAtFirst};
ghost use Rattle.component_extension.specs.Chain.{chain_of};
ghost use Rattle.component_extension.specs.inner.Chain.{Answers};
ghost use Rattle.component_extension.specs.inner.Effective.{AreMembers, IsEffective};
ghost use Rattle.component_extension.specs.Items.{classifier_refusals};
ghost use Rattle.component_extension.specs.Members.{refusals_of, marks_along, member_refusals, members_along};

use crate::bound::{bindings_along, braced_along};
use crate::chain::chain_of;
use crate::classifier::{Classifier, classifiers_of};
use crate::declaration::PlainName;
use crate::error_model::{
    Behavior, OtherItems, Propagations, behavior_of, machine_of, other_items_of, propagations_of,
};
use crate::items::{ClauseText, InClause, clauses_of};
use crate::limits::{Limited, note_all};
use crate::member::Inherited;
use crate::members::{declarations, members_of, note_unknown};
use crate::names::{PlainNames, add_marks, note_duplicates};
use aadl_syntax::{Binding, Connection, Feature, Ref, Subcomponent};
use noted_refusals::Refusals;
use package_index::{ClassifierId, Index};
use plain_values::{Answer, List, Mem};
use std::alloc::Global;

/// The members of a classifier along its chain.
#[derive(Drop)]
pub struct Members<'a> {
    pub features: List<Inherited<'a, Feature>>,
    pub subcomponents: List<Inherited<'a, Subcomponent>>,
    pub connections: List<Inherited<'a, Connection>>,
}

/// The effective classifier: what a classifier has once its extensions are followed. Declarations and items are borrowed
/// from the index. The clauses of the chain stand from the farthest classifier to the nearest, and an item names its
/// clause by its place in this list.
#[derive(Drop)]
pub struct Effective<'a> {
    /// The nearest classifier comes first.
    pub chain: List<ClassifierId>,
    pub members: Members<'a>,
    pub clauses: List<ClauseText<'a>>,
    /// The name of the machine of the nearest clause that uses one.
    pub machine: Option<InClause<'a, Ref>>,
    pub propagations: Propagations<'a>,
    pub behavior: Behavior<'a>,
    pub others: OtherItems<'a>,
    /// Those of `properties` sections, from the farthest classifier to the nearest.
    pub bindings: List<Binding>,
    /// Those in braces behind subcomponents and connections, from the farthest classifier to the nearest.
    pub braced: List<Binding>,
}

impl<'a> Effective<'a> {
    /// The effective classifier of a classifier of the index.
    ///
    /// N2, N3, N4 and P1 of its chain, as `chain_of` has them; or else N5, N6, P1, P2 and P3 of its members, the first by
    /// place, as `effective_members` has them. They are noted, in place of what was noted before.
    pub fn of(
        alloc: Global,
        index: &Index<'a>,
        id: ClassifierId,
        refusals: &mut Refusals,
    ) -> Answer<Effective<'a>>
        ensures effective { IfOk result (IsEffective index.now id) }
        ensures accepted { OnOk result (classifier_refusals index.now id ≡ []) }
        ensures refused { IfErr result (StopsAtFirst (Contains (classifier_refusals index.now id))) }
        ensures told { IfErr result (Tells (classifier_refusals index.now id) refusals.new) }
    {
        let chain = noted_chain(alloc, index, id, refusals)?;
        let classifiers = classifiers_of(alloc, index, chain.items())?;
        let bindings = bindings_along(alloc, classifiers.items())?;
        let braced = braced_along(alloc, classifiers.items())?;
        let members = effective_members(alloc, classifiers.items(), refusals)?;
        let clauses = List::of(clauses_of(alloc, classifiers.items())?)?;
        let machine = machine_of(clauses.items());
        let propagations = propagations_of(alloc, clauses.items())?;
        let behavior = behavior_of(alloc, clauses.items())?;
        let others = other_items_of(alloc, clauses.items())?;
        Ok(Effective {
            chain,
            members,
            clauses,
            machine,
            propagations,
            behavior,
            others,
            bindings,
            braced,
        })
    }
}

/// The chain of a classifier. Its refusal is noted, in place of what was noted before.
fn noted_chain(
    alloc: Global,
    index: &Index<'_>,
    id: ClassifierId,
    refusals: &mut Refusals,
) -> Answer<List<ClassifierId>>
    ensures chain { Answers (chain_of index.now id) result }
    ensures told { IfErr result (Tells (classifier_refusals index.now id) refusals.new) }
{
    match chain_of(alloc, index, id) {
        Ok(chain) => Ok(chain),
        Err(stop) => Err(refusals.only(stop)),
    }
}

/// The members along a chain, of which the farthest classifier comes first.
///
/// One group of refusals, of which the first by place is answered: N5 where a member is `refined to` and no farther
/// classifier declares one of its kind and name, N6 where a name that is not `refined to` is declared before, P1 at
/// bindings of an effective subcomponent, P2 at an effective array, P3 at an effective feature group or its connection. They are noted,
/// in place of what was noted before.
pub fn effective_members<'a>(
    alloc: Global,
    classifiers: &[Classifier<'a>],
    refusals: &mut Refusals,
) -> Answer<Members<'a>>
    ensures members { IfOk result (AreMembers classifiers.now) }
    ensures accepted { OnOk result (member_refusals classifiers.now ≡ []) }
    ensures refused { IfErr result (StopsAtFirst (Contains (member_refusals classifiers.now))) }
    ensures told { IfErr result (Tells (member_refusals classifiers.now) refusals.new) }
{
    refusals.clear();
    let mut marks = Vec::new(alloc);
    let features = members_along(alloc, classifiers, &mut marks, refusals)?;
    let subcomponents = members_along(alloc, classifiers, &mut marks, refusals)?;
    let connections = members_along(alloc, classifiers, &mut marks, refusals)?;
    let names = PlainNames::of(alloc, marks)?;
    note_duplicates(refusals, &names);
    refusals.settle()?;
    Ok(Members {
        features,
        subcomponents,
        connections,
    })
}

/// The members of a kind along a chain. Their names that are not `refined to` are added, and their refusals are noted.
fn members_along<'a, M: Limited>(
    alloc: Global,
    classifiers: &[Classifier<'a>],
    marks: &mut Vec<PlainName<'a>>,
    refusals: &mut Refusals,
) -> Mem<List<Inherited<'a, M>>>
    ensures members { IfOk result (λ members. members ≡ members_along M.kind classifiers.now) }
    ensures marks { OnOk result (marks.new.items ≡ marks.old.items ++ marks_along M.kind classifiers.now) }
    ensures noted { OnOk result (refusals.new ≡ noting refusals.old (refusals_of M.kind M.limits classifiers.now)) }
{
    let all = declarations::<M>(alloc, classifiers)?;
    let mut own = Vec::new(alloc);
    add_marks(&mut own, all.as_slice())?;
    let names = PlainNames::of(alloc, own)?;
    note_unknown(refusals, &names, all.as_slice());
    let members = members_of(alloc, &names, all.as_slice())?;
    note_all(refusals, members.as_slice());
    add_marks(marks, all.as_slice())?;
    Ok(List::of(members)?)
}
